// The array at work: an operation in progress, and its units, one loop of `stretches` for each operation. Document 01, "Work of the array".
// `Ready` is asked for by `requires`, and is no type: it speaks of the lent memory, which no type of an operation holds.
#![tactic(auto)]

ghost use Rattle.std.specs.Prelude.{◌≡◌, ◌+◌, ◌-◌, ◌≤◌};
ghost use Rattle.part.specs.Part.{page, Sound};
ghost use Rattle.array.specs.Jobs.{store, length_of, steps, written, many, onward, Ready};

use part::{Column, Geometry, Row};

// An operation, with its row; a reset's own operation has none.
#[derive(Clone, Copy, Debug, PartialEq, Eq)]
pub enum Job {
    Read(Row),
    Program(Row),
    Erase(Row),
    Restart,
}

// The units of a reset.
pub const RESTART_UNITS: usize = 8;

// The operation in progress with its units done, or none, and then nothing is left of the last one.
// No Option: Idle and Busy are document 01's words, in which specs/ speaks, and None for an idle array would be no plainer.
#[derive(Clone, Copy, Debug, PartialEq, Eq)]
pub enum Work {
    Idle,
    Busy(Job, usize),
}

// How many units an operation has.
pub fn length_of(g: Geometry, job: Job) -> usize
    requires { Sound g }
    ensures { result ≡ length_of g job }
{
    match job {
        Job::Read(_) | Job::Program(_) => g.page(),
        Job::Erase(_) => g.pages as usize * g.page(),
        Job::Restart => RESTART_UNITS,
    }
}

// A read, from a unit up to another.
fn read(g: Geometry, row: Row, from: usize, to: usize, cells: &[u8], cache: &mut [u8])
    requires { Ready g (Job.Read row) from (store cells.now cache.old) × (from ≤ to) × (to ≤ page g) }
    ensures { store cells.now cache.new ≡ steps (written g (Job.Read row)) from (to - from) (store cells.now cache.old) }
{
    if usize::from(row.0) < g.rows() {
        let a = part::place(g, row, Column(0));
        let e = a + g.page();
        stretches::read_units(&cells[a..e], cache, from, to);
    } else {
        stretches::erase_units(cache, from, to);
    }
}

// A program, from a unit up to another, in the page's own stretch of the cells.
fn program(g: Geometry, row: Row, from: usize, to: usize, cells: &mut [u8], cache: &[u8])
    requires { Ready g (Job.Program row) from (store cells.old cache.now) × (from ≤ to) × (to ≤ page g) }
    ensures { store cells.new cache.now ≡ steps (written g (Job.Program row)) from (to - from) (store cells.old cache.now) }
{
    let a = part::place(g, row, Column(0));
    let e = a + g.page();
    stretches::program_units(&mut cells[a..e], cache, from, to);
}

// An erase, from a unit up to another, in the block's own stretch of the cells.
fn erase(g: Geometry, row: Row, from: usize, to: usize, cells: &mut [u8], cache: &[u8])
    requires { Ready g (Job.Erase row) from (store cells.old cache.now) × (from ≤ to) × (to ≤ length_of g (Job.Erase row)) }
    ensures { store cells.new cache.now ≡ steps (written g (Job.Erase row)) from (to - from) (store cells.old cache.now) }
{
    let long = g.pages as usize * g.page();
    let a = g.block(row) * long;
    let e = a + long;
    stretches::erase_units(&mut cells[a..e], from, to);
}

// Units `from` up to `to` of an operation: the operation is chosen once. (No closure: each operation lends cells and cache its own way.)
fn units(g: Geometry, job: Job, from: usize, to: usize, cells: &mut [u8], cache: &mut [u8])
    requires { Ready g job from (store cells.old cache.old) × (from ≤ to) × (to ≤ length_of g job) }
    ensures { store cells.new cache.new ≡ steps (written g job) from (to - from) (store cells.old cache.old) }
{
    match job {
        Job::Read(row) => read(g, row, from, to, &*cells, cache),
        Job::Program(row) => program(g, row, from, to, cells, &*cache),
        Job::Erase(row) => erase(g, row, from, to, cells, &*cache),
        Job::Restart => {}
    }
}

// n units of an operation with `done` units done: what is then in progress, and the cells and the cache.
pub fn advance(
    g: Geometry,
    job: Job,
    done: usize,
    n: usize,
    cells: &mut [u8],
    cache: &mut [u8],
) -> Work
    requires { Ready g job done (store cells.old cache.old) }
    ensures { (result ≡ onward g job (done + n)) × (store cells.new cache.new ≡ many g job done n (store cells.old cache.old)) }
{
    let length = length_of(g, job);
    if n < length - done {
        let to = done + n;
        units(g, job, done, to, cells, cache);
        Work::Busy(job, to)
    } else {
        units(g, job, done, length, cells, cache);
        Work::Idle
    }
}

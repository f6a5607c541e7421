// Beside a run: what a simulator asks and does between events. The next byte on DO, the units left, work of any length, blank memory.
// Buffers are lent one by one: `walk` says why.
#![tactic(auto)]

ghost use Rattle.std.specs.Prelude.{[], ◌≡◌};
ghost use Rattle.device.specs.Machine.{machine};
ghost use Rattle.device.specs.Work.{unitwise};
ghost use Rattle.model.specs.Runs.{seen, shown};
ghost use Rattle.beside.specs.Beside.{peek_of, operation_length, units_left, work_of, blank_end, blank_of};

use array::{Job, Work};
use device::State;
use part::Geometry;
use refusals::Refusal;
use walk::{Answer, Walk};

// The byte that the next shift will put on DO, whatever is shifted in; or why there is none to tell.
pub fn peek(g: Geometry, state: State, cache: &[u8]) -> Result<u8, Refusal>
    ensures { result ≡ peek_of g state cache.now }
{
    if !g.sound() {
        return Err(Refusal::BadPart);
    }
    refusals::check(g, state, g.rows() * g.page(), cache.len(), g.rows())?;
    Ok(reply::byte_out(g, state.regs, state.bus, cache))
}

// How many units an operation has on a part; 0 on a part that is not sound. A number, as the C function `sleet_operation_length` has it.
pub fn operation_length(g: Geometry, job: Job) -> usize
    ensures { result ≡ operation_length g job }
{
    if !g.sound() {
        return 0;
    }
    array::length_of(g, job)
}

// How many units the operation in progress has left: 0 while idle, and for a part or a state that is not sound. A number, as the C function
// `sleet_units_left` has it.
pub fn units_left(g: Geometry, state: State) -> usize
    ensures { result ≡ units_left g state }
{
    if !g.sound() {
        return 0;
    }
    if !state.sound(g) {
        return 0;
    }
    match state.work {
        Work::Idle => 0,
        Work::Busy(job, done) => array::length_of(g, job) - done,
    }
}

// Array work of any number of units: a work record that knows no limit.
pub fn work(
    g: Geometry,
    state: State,
    n: usize,
    cells: &mut [u8],
    cache: &mut [u8],
    counts: &mut [u8],
) -> Answer
    ensures { seen result cells.new cache.new counts.new []
        ≡ shown (work_of g (unitwise g) n (machine state cells.old cache.old counts.old)) [] }
{
    if let Err(r) = refusals::check(g, state, cells.len(), cache.len(), counts.len()) {
        return Walk::start(state).so_far(r);
    }
    let state = state.work(g, n, cells, cache);
    Answer {
        refusal: Refusal::Done,
        state,
        records: 1,
        used: 3,
        written: 0,
    }
}

// The memory of a device that was never used: cells and cache register FFh, page counts 0; or a refusal, and not a byte changed.
pub fn blank(
    g: Geometry,
    cells: &mut [u8],
    cache: &mut [u8],
    counts: &mut [u8],
) -> Result<(), Refusal>
    ensures { blank_end result cells.new cache.new counts.new
        ≡ blank_of g cells.old cache.old counts.old }
{
    refusals::check(g, State::power_up(), cells.len(), cache.len(), counts.len())?;
    cells.fill(0xFF);
    cache.fill(0xFF);
    counts.fill(0);
    Ok(())
}

// The model: a log run on a device, every input answered. Document 01, "Numbers of refusal".
// Buffers are lent one by one: `walk` says why.
#![tactic(auto)]

ghost use Rattle.std.specs.Prelude.{◌≡◌, length};
ghost use Rattle.part.specs.Part.{Sound};
ghost use Rattle.buslog.specs.Log.{bytes_of};
ghost use Rattle.buslog.specs.Read.{parse};
ghost use Rattle.device.specs.Machine.{machine};
ghost use Rattle.device.specs.Work.{unitwise};
ghost use Rattle.kept.specs.Kept.{SoundMachine};
ghost use Rattle.model.specs.Runs.{ran_of, run_of, seen, shown};

use buslog::Record;
use device::State;
use part::Geometry;
use refusals::Refusal;
use walk::{Answer, Walk};

// The records of a log, one after another: the state goes in whole and comes back whole with each.
// No `for`: where the next record stands is known only when this one has been read.
fn go(
    g: Geometry,
    state: State,
    log: &[u8],
    cells: &mut [u8],
    cache: &mut [u8],
    counts: &mut [u8],
    out: &mut [u8],
) -> Answer
    requires { (Sound g) × (SoundMachine g (machine state cells.old cache.old counts.old)) }
    ensures { seen result cells.new cache.new counts.new out.new
        ≡ shown (ran_of g (unitwise g) (length out.old) (parse log.now) (machine state cells.old cache.old counts.old)) out.old }
{
    let mut w = Walk::start(state);
    loop {
        match walk::onward(g, w, log, cells, cache, counts, out) {
            Ok(next) => w = next,
            Err(r) => return w.so_far(r),
        }
    }
}

// A log run on a part, from a state, over lent memory: every content of them is answered.
pub fn run(
    g: Geometry,
    state: State,
    log: &[u8],
    cells: &mut [u8],
    cache: &mut [u8],
    counts: &mut [u8],
    out: &mut [u8],
) -> Answer
    ensures { seen result cells.new cache.new counts.new out.new
        ≡ shown (run_of g (unitwise g) (length out.old) log.now (machine state cells.old cache.old counts.old)) out.old }
{
    if let Err(r) = refusals::check(g, state, cells.len(), cache.len(), counts.len()) {
        return Walk::start(state).so_far(r);
    }
    go(g, state, log, cells, cache, counts, out)
}

// One record done, for a simulator that drives the model event by event: the same as a run of the record's bytes.
pub fn step(
    g: Geometry,
    state: State,
    e: Record,
    cells: &mut [u8],
    cache: &mut [u8],
    counts: &mut [u8],
    out: &mut [u8],
) -> Answer
    ensures { seen result cells.new cache.new counts.new out.new
        ≡ shown (run_of g (unitwise g) (length out.old) (bytes_of e) (machine state cells.old cache.old counts.old)) out.old }
{
    if let Err(r) = refusals::check(g, state, cells.len(), cache.len(), counts.len()) {
        return Walk::start(state).so_far(r);
    }
    if !buslog::level_sound(e) {
        return Walk::start(state).so_far(Refusal::BadLevel);
    }
    let takes = walk::room_of(e);
    if out.len() < takes {
        return Walk::start(state).so_far(Refusal::NoRoom);
    }
    let state = walk::turn(g, state, e, 0, cells, cache, counts, out);
    Answer {
        refusal: Refusal::Done,
        state,
        records: 1,
        used: buslog::length_of(e),
        written: takes,
    }
}

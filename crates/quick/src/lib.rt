// The quick run: the contract of `model::run`, with the shifts that follow one another in a transfer done in one loop. The faces call it.
// Buffers are lent one by one: `walk` says why.
#![tactic(auto)]

ghost use Rattle.std.specs.Prelude.{◌≡◌, length};
ghost use Rattle.part.specs.Part.{Sound};
ghost use Rattle.buslog.specs.Read.{parse};
ghost use Rattle.device.specs.Machine.{machine};
ghost use Rattle.device.specs.Work.{unitwise};
ghost use Rattle.kept.specs.Kept.{SoundMachine};
ghost use Rattle.walk.specs.Turns.{answered};
ghost use Rattle.model.specs.Runs.{ran_of, run_of, seen, shown};
ghost use Rattle.quick.specs.Along.{walk_at};

use device::State;
use part::Geometry;
use refusals::Refusal;
use walk::{Answer, Walk};

// What was done so far, and why no more is.
fn so_far(r: Refusal, state: State, at: usize, records: usize, written: usize) -> Answer
    ensures { result ≡ answered r (walk_at state at records written) }
{
    let w = Walk {
        state,
        at,
        records,
        written,
    };
    w.so_far(r)
}

// The records of a log, one after another, and behind each the stream that follows it. Where the run stands is kept in plain numbers here,
// and `onward` is written out: both for speed (docs/DECISIONS.md, 41).
// No `for`: where the next record stands is known only when this one has been read.
fn go(
    g: Geometry,
    state: State,
    log: &[u8],
    cells: &mut [u8],
    cache: &mut [u8],
    counts: &mut [u8],
    out: &mut [u8],
) -> Answer
    requires { (Sound g) × (SoundMachine g (machine state cells.old cache.old counts.old)) }
    ensures { seen result cells.new cache.new counts.new out.new
        ≡ shown (ran_of g (unitwise g) (length out.old) (parse log.now) (machine state cells.old cache.old counts.old)) out.old }
{
    let mut s = state;
    let mut at = 0;
    let mut records = 0;
    let mut written = 0;
    loop {
        match buslog::next_at(log, at) {
            Err(why) => return so_far(Refusal::from(why), s, at, records, written),
            Ok((e, place)) => {
                let room = walk::room_of(e);
                if out.len() - written < room {
                    return so_far(Refusal::NoRoom, s, at, records, written);
                }
                s = walk::turn(g, s, e, written, cells, cache, counts, out);
                at = place;
                records += 1;
                written += room;
                if !stream::streams(s.bus) {
                    continue;
                }
                let b = stream::shifts(g, s, log, at, cache, out, written);
                s = b.state;
                at += 2 * b.count;
                records += b.count;
                written += b.count;
            }
        }
    }
}

// A log run on a part, from a state, over lent memory: every content of them is answered, as `model::run` answers it.
pub fn run(
    g: Geometry,
    state: State,
    log: &[u8],
    cells: &mut [u8],
    cache: &mut [u8],
    counts: &mut [u8],
    out: &mut [u8],
) -> Answer
    ensures { seen result cells.new cache.new counts.new out.new
        ≡ shown (run_of g (unitwise g) (length out.old) log.now (machine state cells.old cache.old counts.old)) out.old }
{
    if let Err(r) = refusals::check(g, state, cells.len(), cache.len(), counts.len()) {
        return Walk::start(state).so_far(r);
    }
    go(g, state, log, cells, cache, counts, out)
}

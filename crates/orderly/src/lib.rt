// A log run and judged: the suppositions of demand 3, asked of each record as it comes, of the start and of the end.
// Buffers are lent one by one: `walk` says why.
#![tactic(auto)]

ghost use Rattle.std.specs.Prelude.{◌&&◌, ◌≡◌};
ghost use Rattle.part.specs.Part.{Sound};
ghost use Rattle.device.specs.Machine.{machine};
ghost use Rattle.kept.specs.Kept.{SoundMachine};
ghost use Rattle.whole.specs.Demand.{given};
ghost use Rattle.orderly.specs.Judge.{judged, judgement_of, closed, welcome};

use buslog::{Record, Why};
use device::State;
use part::Geometry;
use walk::{Answer, Walk};

// A log judged: the answer of its run, and whether the suppositions of demand 3 were met.
#[derive(Clone, Copy)]
pub struct Judged {
    pub answer: Answer,
    pub orderly: bool,
}

// An answer judged: the end must be idle as well.
fn closed(answer: Answer, ok: bool) -> Judged
    ensures { result ≡ closed answer ok }
{
    let rests = suppositions::idle(answer.state);
    Judged {
        answer,
        orderly: ok && rests,
    }
}

// Whether demand 3 lets what stands next in the log come in this state; where no record stands, there is nothing to ask.
fn welcome(s: State, next: Result<(Record, usize), Why>) -> bool
    ensures { result ≡ welcome s next }
{
    match next {
        Ok((e, _)) => suppositions::allowed(s, e),
        Err(_) => true,
    }
}

// Whether a log that was orderly so far is so with what stands next.
fn stays(ok: bool, s: State, next: Result<(Record, usize), Why>) -> bool
    ensures { result ≡ ok && welcome s next }
{
    ok && welcome(s, next)
}

// The records of a log, one after another, each judged as it comes.
// No `for`: where the next record stands is known only when this one has been read.
fn go(
    g: Geometry,
    state: State,
    log: &[u8],
    cells: &mut [u8],
    cache: &mut [u8],
    counts: &mut [u8],
    out: &mut [u8],
) -> Judged
    requires { (Sound g) × (SoundMachine g (machine state cells.old cache.old counts.old)) }
    ensures { judged result cells.new cache.new counts.new out.new
        ≡ judgement_of (given g state log.now cells.old cache.old counts.old out.old) }
{
    let mut w = Walk::start(state);
    let mut ok = suppositions::starts(state);
    loop {
        let so = stays(ok, w.state, buslog::next_at(log, w.at));
        match walk::onward(g, w, log, cells, cache, counts, out) {
            Ok(next) => {
                w = next;
                ok = so;
            }
            Err(r) => return closed(w.so_far(r), ok),
        }
    }
}

// A log run on a part, from a state, over lent memory, and judged: every content of them is answered.
pub fn judge(
    g: Geometry,
    state: State,
    log: &[u8],
    cells: &mut [u8],
    cache: &mut [u8],
    counts: &mut [u8],
    out: &mut [u8],
) -> Judged
    ensures { judged result cells.new cache.new counts.new out.new
        ≡ judgement_of (given g state log.now cells.old cache.old counts.old out.old) }
{
    if let Err(r) = refusals::check(g, state, cells.len(), cache.len(), counts.len()) {
        return closed(Walk::start(state).so_far(r), suppositions::starts(state));
    }
    go(g, state, log, cells, cache, counts, out)
}

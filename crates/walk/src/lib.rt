// A run, record by record: where it stands, and one turn of it. Document 01, "Numbers of refusal", 6 to 9 at each record.
// Buffers are lent one by one, and not as one struct: a struct of `&mut`s would have each contract say as well that each is still the
// same reference, a clause more for each, and goals were left open where the struct is made.
// That the machine is sound is asked for by `requires`, and is no type: it speaks of the lent memory, which no type of the state holds.
#![tactic(auto)]

ghost use Rattle.std.specs.Prelude.{◌≡◌, ◌+◌, ◌≤◌, length};
ghost use Rattle.part.specs.Part.{Sound};
ghost use Rattle.buslog.specs.Read.{next_of};
ghost use Rattle.buslog.specs.Write.{over};
ghost use Rattle.device.specs.Machine.{machine};
ghost use Rattle.device.specs.Work.{unitwise};
ghost use Rattle.device.specs.Step.{step, pins_of};
ghost use Rattle.kept.specs.Kept.{SoundMachine};
ghost use Rattle.walk.specs.Turns.{takes, puts, start_of, answered, Stands, turned, state_after, turn_of};

use buslog::Record;
use device::State;
use part::Geometry;
use refusals::Refusal;
use registers::Pins;

// Where a run stands: the state, the place in the log, the records done, the output bytes written.
#[derive(Clone, Copy)]
pub struct Walk {
    pub state: State,
    pub at: usize,
    pub records: usize,
    pub written: usize,
}

// The answer to a run: the refusal, the state, and how far it went. (No Result: how far it went holds with a refusal too.)
#[derive(Clone, Copy)]
pub struct Answer {
    pub refusal: Refusal,
    pub state: State,
    pub records: usize,
    pub used: usize,
    pub written: usize,
}

impl Walk {
    // A run before its first record.
    pub fn start(state: State) -> Walk
        ensures { result ≡ start_of state }
    {
        Walk {
            state,
            at: 0,
            records: 0,
            written: 0,
        }
    }

    // What was done so far, and why no more is.
    pub fn so_far(self, r: Refusal) -> Answer
        ensures { result ≡ answered r self }
    {
        Answer {
            refusal: r,
            state: self.state,
            records: self.records,
            used: self.at,
            written: self.written,
        }
    }
}

// The output room that a record takes.
pub fn room_of(e: Record) -> usize
    ensures { result ≡ takes e }
{
    match e {
        Record::Shift(_) => 1,
        _ => 0,
    }
}

// The pins at a level.
fn pins_of(v: u8) -> Pins
    ensures { result ≡ pins_of v }
{
    Pins { wp: v == 1 }
}

// One record done, its output at a place of the lent output.
pub fn turn(
    g: Geometry,
    s: State,
    e: Record,
    at: usize,
    cells: &mut [u8],
    cache: &mut [u8],
    counts: &mut [u8],
    out: &mut [u8],
) -> State
    requires { (Sound g) × (SoundMachine g (machine s cells.old cache.old counts.old)) × (at + takes e ≤ length out.old) }
    ensures { (machine result cells.new cache.new counts.new ≡ step g (unitwise g) (machine s cells.old cache.old counts.old) e)
        × (out.new ≡ over out.old at (puts g (machine s cells.old cache.old counts.old) e)) }
{
    match e {
        Record::Select => s.select(),
        Record::Shift(b) => {
            let h = s.shift(g, b, cache);
            out[at] = h.out;
            h.state
        }
        Record::Deselect => s.deselect(g, counts),
        Record::Units(n) => s.work(g, usize::from(n), cells, cache),
        Record::Level(v) => s.level(pins_of(v)),
        Record::Power => s.power(g, cache),
    }
}

// One turn of a run: the record at its place is done, if there is one and its output has room; else the line of the table that ends the
// run, and nothing is done.
pub fn onward(
    g: Geometry,
    w: Walk,
    log: &[u8],
    cells: &mut [u8],
    cache: &mut [u8],
    counts: &mut [u8],
    out: &mut [u8],
) -> Result<Walk, Refusal>
    requires { (Sound g) × (SoundMachine g (machine w.state cells.old cache.old counts.old)) × (Stands w log.now out.old) }
    ensures { turned result (machine (state_after w result) cells.new cache.new counts.new) out.new
        ≡ turn_of g (unitwise g) w (next_of log.now w.at) (machine w.state cells.old cache.old counts.old) out.old }
{
    let (e, place) = buslog::next_at(log, w.at)?;
    let room = room_of(e);
    if out.len() - w.written < room {
        return Err(Refusal::NoRoom);
    }
    let state = turn(g, w.state, e, w.written, cells, cache, counts, out);
    Ok(Walk {
        state,
        at: place,
        records: w.records + 1,
        written: w.written + room,
    })
}

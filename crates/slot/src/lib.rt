// The card slot: a card log run on a card, every input answered. Document 02, item 5.
// Buffers are lent one by one, and not as one struct: a struct of `&mut`s would have each contract say as well that each is still the
// same reference, a clause more for each.
#![tactic(auto)]

ghost use Rattle.std.specs.Prelude.{◌≡◌, ◌+◌, ◌≤◌, length};
ghost use Rattle.buslog.specs.Write.{over};
ghost use Rattle.cardlog.specs.Log.{bytes_of};
ghost use Rattle.cardlog.specs.Read.{next_of, parse};
ghost use Rattle.cardlog.specs.declared.Record.TheVariants.{Sent};
ghost use Rattle.card.specs.Card.{card, step, takes, puts};
ghost use Rattle.slot.specs.Turns.{number_of, refusal_of, start_of, answered, Fits, Stands, turned, stage_then, turn_of};
ghost use Rattle.slot.specs.Runs.{ran_of, run_of, seen, shown};

use card::Stage;
use cardlog::{Record, Why};

// The answers of a run: document 02's numbers 0, 17, 18, 6, 7 and 9. `Done` is one of them, and no value beside them, since that table has
// a number for it, 0, of which the theorems on the answers speak (`Exactly` in card_answers).
#[derive(Clone, Copy, Debug, PartialEq, Eq)]
pub enum Refusal {
    Done,
    BadCells,
    BadBits,
    BadKind,
    ShortBody,
    NoRoom,
}

// Where a run stands: the stage, the place in the log, the records done, the output bytes written.
#[derive(Clone, Copy, Debug, PartialEq, Eq)]
pub struct Walk {
    pub stage: Stage,
    pub at: usize,
    pub records: usize,
    pub written: usize,
}

// The answer to a run: the refusal, the stage, and how far it went. (No Result: how far it went holds with a refusal too.)
#[derive(Clone, Copy, Debug, PartialEq, Eq)]
pub struct Answer {
    pub refusal: Refusal,
    pub stage: Stage,
    pub records: usize,
    pub used: usize,
    pub written: usize,
}

// The number of a refusal, which C is told.
pub fn number(r: Refusal) -> u8
    ensures { result ≡ number_of r }
{
    match r {
        Refusal::Done => 0,
        Refusal::BadCells => 17,
        Refusal::BadBits => 18,
        Refusal::BadKind => 6,
        Refusal::ShortBody => 7,
        Refusal::NoRoom => 9,
    }
}

impl From<Why> for Refusal {
    ghost from_gives = { λ w r. r ≡ refusal_of w };

    // The refusal for a reason to stop.
    fn from(why: Why) -> Refusal {
        match why {
            Why::End => Refusal::Done,
            Why::BadKind => Refusal::BadKind,
            Why::ShortBody => Refusal::ShortBody,
        }
    }
}

impl Walk {
    // A run before its first record.
    fn start(stage: Stage) -> Walk
        ensures { result ≡ start_of stage }
    {
        Walk {
            stage,
            at: 0,
            records: 0,
            written: 0,
        }
    }

    // What was done so far, and why no more is.
    fn so_far(self, refusal: Refusal) -> Answer
        ensures { result ≡ answered refusal self }
    {
        Answer {
            refusal,
            stage: self.stage,
            records: self.records,
            used: self.at,
            written: self.written,
        }
    }
}

// The output room that a record takes.
fn room_of(e: Record) -> usize
    ensures { result ≡ takes e }
{
    match e {
        Record::Sent(first, second, _) => card::answer_length(card::sent(first, second)),
        Record::Power => 0,
    }
}

// One record done, its answer at a place of the lent output.
#[tactic(auto, using(buslog::proofs::RoundTrip::over_none), unfolding(card::specs::Card::step))]
fn turn(
    stage: Stage,
    e: Record,
    at: usize,
    cells: &mut [u8],
    bits: &mut [u8],
    out: &mut [u8],
) -> Stage
    requires { (Fits (card stage cells.old bits.old)) × (at + takes e ≤ length out.old) }
    ensures { (card result cells.new bits.new ≡ step (card stage cells.old bits.old) e)
        × (out.new ≡ over out.old at (puts (card stage cells.old bits.old) e)) }
{
    match e {
        Record::Sent(first, second, third) => {
            let a = card::address_of(first, second);
            let k = card::sent(first, second);
            card::answer(stage, k, a, &*cells, &*bits, out, at);
            card::perform(stage, k, a, third, cells, bits)
        }
        Record::Power => Stage::Fresh,
    }
}

// One turn of a run: the record at its place is done, if there is one and its answer has room; else nothing is, and the refusal is why.
#[tactic(auto, using(crate::proofs::Turns::turn_full))]
fn onward(
    w: Walk,
    log: &[u8],
    cells: &mut [u8],
    bits: &mut [u8],
    out: &mut [u8],
) -> Result<Walk, Refusal>
    requires { (Fits (card w.stage cells.old bits.old)) × (Stands w log.now out.old) }
    ensures { turned result (card (stage_then w result) cells.new bits.new) out.new
        ≡ turn_of w (next_of log.now w.at) (card w.stage cells.old bits.old) out.old }
{
    let (e, at) = cardlog::next_at(log, w.at)?;
    let room = room_of(e);
    if out.len() - w.written < room {
        return Err(Refusal::NoRoom);
    }
    let stage = turn(w.stage, e, w.written, cells, bits, out);
    Ok(Walk {
        stage,
        at,
        records: w.records + 1,
        written: w.written + room,
    })
}

// The records of a log, one after another: the stage goes in and comes back with each.
// No `for`: where the next record stands is known only when this one has been read.
fn go(stage: Stage, log: &[u8], cells: &mut [u8], bits: &mut [u8], out: &mut [u8]) -> Answer
    requires { Fits (card stage cells.old bits.old) }
    ensures { seen result cells.new bits.new out.new
        ≡ shown (ran_of (length out.old) (parse log.now) (card stage cells.old bits.old)) out.old }
{
    let mut w = Walk::start(stage);
    loop {
        match onward(w, log, cells, bits, out) {
            Ok(next) => w = next,
            Err(refusal) => return w.so_far(refusal),
        }
    }
}

// A card log run on a card, from a stage, over lent cells and protect bits: every content of them is answered.
#[tactic(auto, unfolding(crate::specs::Runs::run_of, crate::specs::Runs::bytes_out, crate::specs::Turns::check_of, card::specs::Card::run, cardlog::specs::Log::written))]
pub fn run(stage: Stage, log: &[u8], cells: &mut [u8], bits: &mut [u8], out: &mut [u8]) -> Answer
    ensures { seen result cells.new bits.new out.new
        ≡ shown (run_of (length out.old) log.now (card stage cells.old bits.old)) out.old }
{
    if cells.len() != 1024 {
        return Walk::start(stage).so_far(Refusal::BadCells);
    }
    if bits.len() != 128 {
        return Walk::start(stage).so_far(Refusal::BadBits);
    }
    go(stage, log, cells, bits, out)
}

// One command, for a simulator that drives the card command by command: the same as a run of the record's bytes.
pub fn command(
    stage: Stage,
    first: u8,
    second: u8,
    third: u8,
    cells: &mut [u8],
    bits: &mut [u8],
    out: &mut [u8],
) -> Answer
    ensures { seen result cells.new bits.new out.new
        ≡ shown (run_of (length out.old) (bytes_of (Sent first second third)) (card stage cells.old bits.old)) out.old }
{
    // The record's bytes, as the contract has it.
    let log = [0x20, first, second, third];
    run(stage, &log, cells, bits, out)
}

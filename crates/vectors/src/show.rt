// The line of a vector: what the run answered and what the lent memory then holds.
use crate::setup::Lent;
use array::{Job, Work};
use device::State;
use std::io;
use std::io::Write;
use walk::Answer;

// The bytes of a slice in hex, behind a label.
pub(crate) fn bytes(to: &mut impl Write, label: &str, bytes: &[u8]) -> io::Result<()> {
    write!(to, "{label}")?;
    for byte in bytes {
        write!(to, "{byte:02x}")?;
    }
    Ok(())
}

// The bytes that differ from what they were filled with: how many, the first and the last place, and the sum, which starts
// at 0 and with each of them, in order, becomes 31 times itself and 256 times the place and the byte, modulo 2^32.
#[derive(Clone, Copy)]
struct Tally {
    count: u32,
    first: usize,
    last: usize,
    sum: u32,
}

impl Tally {
    // One byte more that differs, at its place.
    fn with(self, place: usize, byte: u8) -> Tally {
        let mixed = (self.sum as usize) * 31 + place % 65536 * 256 + usize::from(byte);
        Tally {
            count: self.count.wrapping_add(1),
            first: if self.count == 0 { place } else { self.first },
            last: place,
            sum: (mixed % 4294967296) as u32,
        }
    }
}

// What changed in memory that was lent.
fn changed(memory: &[u8], lent: Lent) -> Tally {
    let mut tally = Tally {
        count: 0,
        first: 0,
        last: 0,
        sum: 0,
    };
    let mut was = lent.start;
    for (place, byte) in memory.iter().enumerate() {
        if *byte != was {
            tally = tally.with(place, *byte);
        }
        was = was.wrapping_add(lent.step);
    }
    tally
}

// The label, how many bytes changed and, where any did, the first and the last place and the sum.
pub(crate) fn changes(
    to: &mut impl Write,
    label: &str,
    memory: &[u8],
    lent: Lent,
) -> io::Result<()> {
    let Tally {
        count,
        first,
        last,
        sum,
    } = changed(memory, lent);
    write!(to, "{label}{count}")?;
    if count == 0 {
        return Ok(());
    }
    write!(to, " {first}..{last} {sum:08x}")
}

// The page counts that are not 0, with their rows.
pub(crate) fn counts(to: &mut impl Write, counts: &[u8]) -> io::Result<()> {
    write!(to, " counts")?;
    for (row, count) in counts.iter().enumerate() {
        if *count != 0 {
            write!(to, " {row}:{count}")?;
        }
    }
    Ok(())
}

// An operation in progress with its row and the units done.
fn work(to: &mut impl Write, work: Work) -> io::Result<()> {
    let (label, row, units) = match work {
        Work::Idle => return write!(to, " idle"),
        Work::Busy(Job::Read(row), units) => ("reads", row.0, units),
        Work::Busy(Job::Program(row), units) => ("programs", row.0, units),
        Work::Busy(Job::Erase(row), units) => ("erases", row.0, units),
        Work::Busy(Job::Restart, units) => ("resets", 0, units),
    };
    write!(to, " {label} {row} {units}")
}

// The registers, WP#, the transfer and the operation in progress.
fn state(to: &mut impl Write, state: State) -> io::Result<()> {
    let regs = state.regs;
    let transfer = state.bus.transfer;
    let level = if state.bus.pins.wp { "high" } else { "low" };
    let chip = if transfer.selected {
        "selected"
    } else {
        "released"
    };
    write!(
        to,
        " regs {:02x} {:02x} {:02x} {:02x}",
        regs.a0, regs.b0, regs.c0, regs.d0
    )?;
    write!(
        to,
        " {level} {chip} {} {}",
        transfer.count, transfer.column.0
    )?;
    work(to, state.work)
}

// What a run answered: the refusal's number, records done, log bytes used and output bytes written, and the state.
pub(crate) fn answer(to: &mut impl Write, answer: Answer) -> io::Result<()> {
    let number = refusals::number_of(answer.refusal);
    write!(
        to,
        ": {number} records {} used {} written {}",
        answer.records, answer.used, answer.written
    )?;
    state(to, answer.state)
}

// A table of calls on the proved card slot: each line of the input is a case, and a line is printed for it. The expected lines are printed
// by the independent model; none is copied from what this program printed. The head of the input says how a line is written.
#![tactic(auto)]

use card::Stage;
use console::Output;
use digits::Awaited;
use slot::Answer;
use std::io;
use std::io::Write;

// The most bytes of input that are read.
const INPUT: usize = 32768;

// The bytes of a log, of cells, of protect bits and of output that there are.
const LOG: usize = 128;

const CELLS: usize = 1040;

const BITS: usize = 136;

const OUT: usize = 128;

// The part of a line that is being read.
#[derive(Clone, Copy, Debug, PartialEq, Eq)]
enum Part {
    Name,
    Comment,
    Steps,
}

// The buffers that are lent.
#[derive(Clone, Copy, Debug, PartialEq, Eq)]
enum Buffer {
    Cells,
    Bits,
    Out,
}

// The steps that have digits, but for a log.
#[derive(Clone, Copy, Debug, PartialEq, Eq)]
enum Step {
    Stage,
    Command,
    Lend(Buffer),
    Show(Buffer),
    Set(Buffer),
}

// What is being read: nothing, the digits of a step, or those of a log, with how many have come, and a first that waits for its second.
#[derive(Clone, Copy)]
enum Reading {
    Nothing,
    Digits(Awaited<Step>),
    Log(usize, Option<u8>),
}

// How many bytes are lent of the cells, of the protect bits and of the output.
#[derive(Clone, Copy)]
struct Lengths {
    cells: usize,
    bits: usize,
    out: usize,
}

// Where the reading stands: the buffers, the part of the line, what is being read, and what the steps go by: the stage, and the lengths.
#[derive(Clone, Copy)]
struct Table {
    log: [u8; LOG],
    cells: [u8; CELLS],
    bits: [u8; BITS],
    out: [u8; OUT],
    part: Part,
    reading: Reading,
    stage: Stage,
    lent: Lengths,
}

// All of the card, and half of the output.
const LENT: Lengths = Lengths {
    cells: 1024,
    bits: 128,
    out: 64,
};

// The bytes of a slice in hex. (Each program has its own: no contract says what a writer was given, so `digits` has no such function.)
fn bytes(to: &mut impl Write, bytes: &[u8]) -> io::Result<()> {
    for byte in bytes {
        write!(to, "{byte:02x}")?;
    }
    Ok(())
}

// A place and a byte: the byte is set, where there is one.
fn put(memory: &mut [u8], n: u32) {
    if let Some(byte) = memory.get_mut((n / 256 % 65536) as usize) {
        *byte = (n % 256) as u8;
    }
}

// The stage of a number, as the lines of the table write it: any number above 2 is the last stage.
fn stage_of(n: u32) -> Stage {
    match n {
        0 => Stage::Fresh,
        1 => Stage::Counted,
        2 => Stage::Half,
        _ => Stage::Open,
    }
}

// The number of a stage, the same way.
fn stage_number(stage: Stage) -> u8 {
    match stage {
        Stage::Fresh => 0,
        Stage::Counted => 1,
        Stage::Half => 2,
        Stage::Open => 3,
    }
}

impl Table {
    // A fresh card, its lengths, and a part of a line.
    fn begin(&mut self, part: Part) {
        self.part = part;
        self.reading = Reading::Nothing;
        self.stage = Stage::Fresh;
        self.lent = LENT;
    }

    // The card of each line: all FFh but the code, 12h 34h.
    fn blank(&mut self) {
        self.cells = [0xFF; CELLS];
        self.cells[1022] = 0x12;
        self.cells[1023] = 0x34;
        self.bits = [0xFF; BITS];
        self.out = [0xA5; OUT];
    }

    // An answer, and the bytes written; the card goes on from its stage.
    fn say(&mut self, to: &mut impl Write, label: &str, answer: Answer) -> io::Result<()> {
        self.stage = answer.stage;
        write!(
            to,
            "{label}{:02x},{:02x},{:02x},{:02x},{:02x}=",
            slot::number(answer.refusal),
            answer.records,
            answer.used,
            answer.written,
            stage_number(answer.stage)
        )?;
        bytes(to, &self.out[..answer.written.min(OUT)])
    }

    // `r` and bytes: a log is run.
    fn run(&mut self, to: &mut impl Write, length: usize) -> io::Result<()> {
        let stage = self.stage;
        let lent = self.lent;
        let log = &self.log[..];
        let cells = &mut self.cells[..];
        let bits = &mut self.bits[..];
        let out = &mut self.out[..];
        let answer = slot::run(
            stage,
            &log[..length.min(LOG)],
            &mut cells[..lent.cells.min(CELLS)],
            &mut bits[..lent.bits.min(BITS)],
            &mut out[..lent.out.min(OUT)],
        );
        self.say(to, " r", answer)
    }

    // `c` and three bytes: one command is done.
    fn command(&mut self, to: &mut impl Write, n: u32) -> io::Result<()> {
        let stage = self.stage;
        let lent = self.lent;
        let cells = &mut self.cells[..];
        let bits = &mut self.bits[..];
        let out = &mut self.out[..];
        let answer = slot::command(
            stage,
            (n / 65536 % 256) as u8,
            (n / 256 % 256) as u8,
            (n % 256) as u8,
            &mut cells[..lent.cells.min(CELLS)],
            &mut bits[..lent.bits.min(BITS)],
            &mut out[..lent.out.min(OUT)],
        );
        self.say(to, " c", answer)
    }

    // A buffer, to be looked at, and to be changed.
    fn buffer(&self, buffer: Buffer) -> &[u8] {
        match buffer {
            Buffer::Cells => &self.cells,
            Buffer::Bits => &self.bits,
            Buffer::Out => &self.out,
        }
    }

    // A place and a byte of a buffer: the byte is set.
    fn set(&mut self, buffer: Buffer, n: u32) {
        match buffer {
            Buffer::Cells => put(&mut self.cells, n),
            Buffer::Bits => put(&mut self.bits, n),
            Buffer::Out => put(&mut self.out, n),
        }
    }

    // A place and a length: the bytes of a stretch.
    fn show(&self, to: &mut impl Write, label: &str, buffer: Buffer, n: u32) -> io::Result<()> {
        let memory = self.buffer(buffer);
        let from = ((n / 65536) as usize).min(memory.len());
        let upto = from + ((n % 65536) as usize).min(memory.len() - from);
        write!(to, "{label}")?;
        bytes(to, &memory[from..upto])
    }

    // `k`: the checks of the three buffers.
    fn check(&self, to: &mut impl Write) -> io::Result<()> {
        let cells = crc::check_of(&self.cells);
        let bits = crc::check_of(&self.bits);
        let out = crc::check_of(&self.out);
        write!(to, " k{cells:04x},{bits:04x},{out:04x}")
    }

    // Other bytes are lent of a buffer.
    fn lend(&mut self, buffer: Buffer, n: usize) {
        match buffer {
            Buffer::Cells => self.lent.cells = n,
            Buffer::Bits => self.lent.bits = n,
            Buffer::Out => self.lent.out = n,
        }
    }

    // All digits of a step are there.
    fn act(&mut self, to: &mut impl Write, step: Step, n: u32) -> io::Result<()> {
        self.reading = Reading::Nothing;
        match step {
            Step::Stage => self.stage = stage_of(n),
            Step::Command => self.command(to, n)?,
            Step::Lend(buffer) => self.lend(buffer, n as usize),
            Step::Show(buffer) => {
                let label = if buffer == Buffer::Bits { " @" } else { " =" };
                self.show(to, label, buffer, n)?;
            }
            Step::Set(buffer) => self.set(buffer, n),
        }
        Ok(())
    }

    // A digit, where one is awaited. Of a log every second one is the end of a byte.
    fn take(&mut self, to: &mut impl Write, digit: u8) -> io::Result<()> {
        match self.reading {
            Reading::Nothing => Ok(()),
            Reading::Digits(awaited) => {
                let then = awaited.with(digit);
                if then.left == 0 {
                    return self.act(to, then.call, then.number);
                }
                self.reading = Reading::Digits(then);
                Ok(())
            }
            Reading::Log(count, None) => {
                self.reading = Reading::Log(count % 1024 + 1, Some(digit));
                Ok(())
            }
            Reading::Log(count, Some(high)) => {
                if let Some(byte) = self.log.get_mut(count / 2) {
                    *byte = high % 16 * 16 + digit % 16;
                }
                self.reading = Reading::Log(count % 1024 + 1, None);
                Ok(())
            }
        }
    }

    // A letter that is no digit begins a step; one that begins none is passed over.
    fn begin_step(&mut self, to: &mut impl Write, letter: u8) -> io::Result<()> {
        self.reading = match letter {
            b'\n' => {
                writeln!(to)?;
                self.begin(Part::Name);
                Reading::Nothing
            }
            b'k' => {
                self.check(to)?;
                Reading::Nothing
            }
            b'=' => Reading::Digits(Awaited::new(Step::Show(Buffer::Cells), 8)),
            b'@' => Reading::Digits(Awaited::new(Step::Show(Buffer::Bits), 8)),
            b'!' => Reading::Digits(Awaited::new(Step::Set(Buffer::Cells), 6)),
            b'~' => Reading::Digits(Awaited::new(Step::Set(Buffer::Bits), 6)),
            b'c' => Reading::Digits(Awaited::new(Step::Command, 6)),
            b'l' => Reading::Digits(Awaited::new(Step::Lend(Buffer::Cells), 4)),
            b'b' => Reading::Digits(Awaited::new(Step::Lend(Buffer::Bits), 4)),
            b'o' => Reading::Digits(Awaited::new(Step::Lend(Buffer::Out), 4)),
            b's' => Reading::Digits(Awaited::new(Step::Stage, 1)),
            b'r' => Reading::Log(0, None),
            _ => return Ok(()),
        };
        Ok(())
    }

    // A letter of the steps. Where a log was read, a letter that is no digit ends it, and it is run; a space is passed over.
    fn step(&mut self, to: &mut impl Write, letter: u8) -> io::Result<()> {
        if letter == b' ' {
            return Ok(());
        }
        if let Some(digit) = digits::digit(letter) {
            return self.take(to, digit);
        }
        if let Reading::Log(count, _) = self.reading {
            self.reading = Reading::Nothing;
            self.run(to, count / 2)?;
        }
        self.begin_step(to, letter)
    }

    // A letter of a name: it is printed; a bar ends the name.
    fn name(&mut self, to: &mut impl Write, letter: u8) -> io::Result<()> {
        match letter {
            b'#' => self.begin(Part::Comment),
            b'\n' => {}
            b'|' => {
                write!(to, ":")?;
                self.blank();
                self.begin(Part::Steps);
            }
            _ => to.write_all(&[letter])?,
        }
        Ok(())
    }

    // A letter of the input.
    fn letter(&mut self, to: &mut impl Write, letter: u8) -> io::Result<()> {
        match self.part {
            Part::Name => self.name(to, letter),
            Part::Steps => self.step(to, letter),
            Part::Comment => {
                if letter == b'\n' {
                    self.begin(Part::Name);
                }
                Ok(())
            }
        }
    }
}

// The input is on the stack: a program that needs no heap cannot run out of it. A read that fails ends the input, `to` passes over a write
// that fails, and no status says so.
fn main(rt: HostRuntime) {
    let mut input = [0; INPUT];
    let (Ok(length) | Err(length)) = console::read_full(&mut rt.reader(), &mut input);
    let mut to = Output::new(io::writer(&rt));
    let mut table = Table {
        log: [0; LOG],
        cells: [0; CELLS],
        bits: [0; BITS],
        out: [0; OUT],
        part: Part::Name,
        reading: Reading::Nothing,
        stage: Stage::Fresh,
        lent: LENT,
    };
    for letter in &input[..length] {
        let _told = table.letter(&mut to, *letter).is_ok();
    }
    let _told = to.flush().is_ok();
}

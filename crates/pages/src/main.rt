// A table of calls on the proved maker and reader of parameter pages: each line of the input is a case, and a line is printed for it. The
// expected lines are printed by the independent model; none is copied from what this program printed. The head of the input says how a line
// is written.
#![tactic(auto)]

use console::Output;
use copies::{Found, ReadError};
use digits::Awaited;
use part::{Fm25s005bi3, Geometry};
use std::io;
use std::io::Write;

// The most bytes of input that are read.
const INPUT: usize = 16384;

// The bytes of memory.
const MEMORY: usize = 1024;

// The part of a line that is being read.
#[derive(Clone, Copy, Debug, PartialEq, Eq)]
enum Part {
    Name,
    Comment,
    Steps,
}

// The numbers of a part.
#[derive(Clone, Copy, Debug, PartialEq, Eq)]
enum Size {
    Main,
    Spare,
    Pages,
    Blocks,
}

// The steps that have digits.
#[derive(Clone, Copy, Debug, PartialEq, Eq)]
enum Step {
    Lend,
    Size(Size),
    Make,
    Check,
    Show,
    Set,
}

// Where the reading stands: the memory, the part of the line, the step whose digits are being read, and what the steps go by: the part, and
// how many bytes are lent.
#[derive(Clone, Copy)]
struct Table {
    memory: [u8; MEMORY],
    part: Part,
    awaited: Option<Awaited<Step>>,
    geometry: Geometry,
    lent: usize,
}

// The bytes of a slice in hex. (Each program has its own: no contract says what a writer was given, so `digits` has no such function.)
fn bytes(to: &mut impl Write, bytes: &[u8]) -> io::Result<()> {
    for byte in bytes {
        write!(to, "{byte:02x}")?;
    }
    Ok(())
}

// A stretch of memory, as much of it as there is.
fn stretch(memory: &[u8], place: usize, length: usize) -> &[u8] {
    let from = place.min(memory.len());
    let upto = from + length.min(memory.len() - from);
    &memory[from..upto]
}

impl Table {
    // FM25S005BI3, all of the memory lent, and a part of a line.
    fn begin(&mut self, part: Part) {
        self.part = part;
        self.awaited = None;
        self.geometry = Fm25s005bi3::geometry();
        self.lent = MEMORY;
    }

    // `m` and a place: a page is made, told by its number.
    fn make(&mut self, to: &mut impl Write, place: usize) -> io::Result<()> {
        let upto = self.lent.min(MEMORY);
        let from = place.min(upto);
        let made = sheet::make(self.geometry, &mut self.memory[from..upto]);
        write!(to, " m{}", sheet::made_number(made))
    }

    // `r`: the copies are read, told by the copy and its four numbers, or by the refusal.
    fn read(&self, to: &mut impl Write) -> io::Result<()> {
        match copies::read(&self.memory[..self.lent.min(MEMORY)]) {
            Ok(Found { copy, sizes }) => write!(
                to,
                " r0 {copy} {:08x} {:04x} {:08x} {:08x}",
                sizes.main, sizes.spare, sizes.pages, sizes.blocks
            ),
            Err(ReadError::NoCopy) => write!(to, " r10"),
            Err(ReadError::TooShort) => write!(to, " r11"),
        }
    }

    // The part with another number.
    fn resize(&mut self, size: Size, n: u32) {
        match size {
            Size::Main => self.geometry.main = n,
            Size::Spare => self.geometry.spare = n,
            Size::Pages => self.geometry.pages = n,
            Size::Blocks => self.geometry.blocks = n,
        }
    }

    // All digits of a step are there. Two numbers of four digits stand in one.
    fn act(&mut self, to: &mut impl Write, step: Step, n: u32) -> io::Result<()> {
        let first = (n / 65536) as usize;
        let second = (n % 65536) as usize;
        self.awaited = None;
        match step {
            Step::Lend => self.lent = second,
            Step::Size(size) => self.resize(size, n),
            Step::Make => self.make(to, second)?,
            // `c`, a place and a length: the check of a stretch.
            Step::Check => write!(
                to,
                " c{:04x}",
                crc::check_of(stretch(&self.memory, first, second))
            )?,
            // `=`, a place and a length: the bytes of a stretch.
            Step::Show => {
                write!(to, " =")?;
                bytes(to, stretch(&self.memory, first, second))?;
            }
            // `!`, a place and a byte: the byte is set.
            Step::Set => {
                if let Some(byte) = self.memory.get_mut((n / 256 % 65536) as usize) {
                    *byte = (n % 256) as u8;
                }
            }
        }
        Ok(())
    }

    // A digit, where one is awaited.
    fn take(&mut self, to: &mut impl Write, digit: u8) -> io::Result<()> {
        let Some(awaited) = self.awaited else {
            return Ok(());
        };
        let then = awaited.with(digit);
        if then.left == 0 {
            return self.act(to, then.call, then.number);
        }
        self.awaited = Some(then);
        Ok(())
    }

    // A letter of a name: it is printed; a bar ends the name.
    fn name(&mut self, to: &mut impl Write, letter: u8) -> io::Result<()> {
        match letter {
            b'#' => self.begin(Part::Comment),
            b'\n' => {}
            b'|' => {
                write!(to, ":")?;
                self.memory = [0xA5; MEMORY];
                self.begin(Part::Steps);
            }
            _ => to.write_all(&[letter])?,
        }
        Ok(())
    }

    // A letter of the steps; one that begins none and is no digit is passed over.
    fn step(&mut self, to: &mut impl Write, letter: u8) -> io::Result<()> {
        self.awaited = match letter {
            b'\n' => {
                writeln!(to)?;
                self.begin(Part::Name);
                None
            }
            b'r' => {
                self.read(to)?;
                None
            }
            b'd' => Some(Awaited::new(Step::Size(Size::Main), 8)),
            b's' => Some(Awaited::new(Step::Size(Size::Spare), 8)),
            b'k' => Some(Awaited::new(Step::Size(Size::Pages), 8)),
            b'n' => Some(Awaited::new(Step::Size(Size::Blocks), 8)),
            b'c' => Some(Awaited::new(Step::Check, 8)),
            b'=' => Some(Awaited::new(Step::Show, 8)),
            b'!' => Some(Awaited::new(Step::Set, 6)),
            b'l' => Some(Awaited::new(Step::Lend, 4)),
            b'm' => Some(Awaited::new(Step::Make, 4)),
            _ => {
                return match digits::digit(letter) {
                    Some(digit) => self.take(to, digit),
                    None => Ok(()),
                };
            }
        };
        Ok(())
    }

    // A letter of the input.
    fn letter(&mut self, to: &mut impl Write, letter: u8) -> io::Result<()> {
        match self.part {
            Part::Name => self.name(to, letter),
            Part::Steps => self.step(to, letter),
            Part::Comment => {
                if letter == b'\n' {
                    self.begin(Part::Name);
                }
                Ok(())
            }
        }
    }
}

// The input is on the stack: a program that needs no heap cannot run out of it. A read that fails ends the input, `to` passes over a write
// that fails, and no status says so.
fn main(rt: HostRuntime) {
    let mut input = [0; INPUT];
    let (Ok(length) | Err(length)) = console::read_full(&mut rt.reader(), &mut input);
    let mut to = Output::new(io::writer(&rt));
    let mut table = Table {
        memory: [0; MEMORY],
        part: Part::Name,
        awaited: None,
        geometry: Fm25s005bi3::geometry(),
        lent: MEMORY,
    };
    for letter in &input[..length] {
        let _told = table.letter(&mut to, *letter).is_ok();
    }
    let _told = to.flush().is_ok();
}

// A table of calls on the proved keeper: each line of the input is a case, and a line is printed for it. The expected lines were worked
// out by hand; none is copied from what this program printed. The head of the input says how a line is written.
#![tactic(auto)]

use console::Output;
use digits::Awaited;
use keeper::{Added, Grant, Granted, Keeper, Queue};
use std::io;
use std::io::Write;

// The most bytes of input that are read.
const INPUT: usize = 16384;

// The part of a line that is being read.
#[derive(Clone, Copy, Debug, PartialEq, Eq)]
enum Part {
    Name,
    Comment,
    Calls,
}

// The calls that have digits.
#[derive(Clone, Copy, Debug, PartialEq, Eq)]
enum Call {
    Add,
    Set,
}

// Where the reading stands: the keeper, the part of the line, and the call whose digits are being read.
#[derive(Clone, Copy)]
struct Table {
    keeper: Keeper,
    part: Part,
    awaited: Option<Awaited<Call>>,
}

// Every byte of a queue.
fn show_queue(to: &mut impl Write, queue: Queue) -> io::Result<()> {
    write!(to, " {} {} ", queue.head, queue.length)?;
    for tag in queue.tags {
        write!(to, "{tag:02x}")?;
    }
    Ok(())
}

// A field of a queue is set: 0 to 7 a tag, 8 the place of the front, above it the length.
fn set_field(queue: &mut Queue, field: usize, byte: u8) {
    match queue.tags.get_mut(field) {
        Some(tag) => *tag = byte,
        None if field == 8 => queue.head = byte,
        None => queue.length = byte,
    }
}

impl Table {
    // A new keeper, and a part of a line.
    fn fresh(part: Part) -> Table {
        Table {
            keeper: Keeper::new(),
            part,
            awaited: None,
        }
    }

    // `+`, core and tag: an adding, told by its number.
    fn add(&mut self, to: &mut impl Write, core: u8, tag: u8) -> io::Result<()> {
        let Added { keeper, answer } = self.keeper.add(core, tag);
        self.keeper = keeper;
        write!(to, " +{}", keeper::number_in(answer))
    }

    // `*`: a grant, told by core and tag, or by its number.
    fn grant(&mut self, to: &mut impl Write) -> io::Result<()> {
        let Granted { keeper, answer } = self.keeper.grant();
        self.keeper = keeper;
        match answer {
            Ok(Grant { core, tag }) => write!(to, " *{core}:{tag:02x}"),
            Err(why) => write!(to, " *{}", keeper::number_of(why)),
        }
    }

    // `=`: every byte of the keeper.
    fn show(&self, to: &mut impl Write) -> io::Result<()> {
        write!(to, " ={}", self.keeper.last)?;
        for queue in self.keeper.queues {
            show_queue(to, queue)?;
        }
        Ok(())
    }

    // `!`, a core, a field and a byte: that field is set; above core 3 the last core is.
    fn set(&mut self, core: usize, field: usize, byte: u8) {
        match self.keeper.queues.get_mut(core) {
            Some(queue) => set_field(queue, field, byte),
            None => self.keeper.last = byte,
        }
    }

    // All digits of a call are there.
    fn act(&mut self, to: &mut impl Write, call: Call, n: u32) -> io::Result<()> {
        let byte = (n % 256) as u8;
        let middle = (n / 256 % 16) as u8;
        self.awaited = None;
        match call {
            Call::Add => self.add(to, middle, byte),
            Call::Set => {
                self.set((n / 4096 % 16) as usize, usize::from(middle), byte);
                Ok(())
            }
        }
    }

    // A digit, where one is awaited.
    fn take(&mut self, to: &mut impl Write, digit: u8) -> io::Result<()> {
        let Some(awaited) = self.awaited else {
            return Ok(());
        };
        let then = awaited.with(digit);
        if then.left == 0 {
            return self.act(to, then.call, then.number);
        }
        self.awaited = Some(then);
        Ok(())
    }

    // A letter of a name: it is printed; a bar ends the name.
    fn name(&mut self, to: &mut impl Write, letter: u8) -> io::Result<()> {
        match letter {
            b'#' => *self = Table::fresh(Part::Comment),
            b'\n' => {}
            b'|' => {
                write!(to, ":")?;
                *self = Table::fresh(Part::Calls);
            }
            _ => to.write_all(&[letter])?,
        }
        Ok(())
    }

    // A letter of the calls; one that begins none and is no digit is passed over.
    fn call(&mut self, to: &mut impl Write, letter: u8) -> io::Result<()> {
        match letter {
            b'\n' => {
                writeln!(to)?;
                *self = Table::fresh(Part::Name);
            }
            b'+' => self.awaited = Some(Awaited::new(Call::Add, 3)),
            b'!' => self.awaited = Some(Awaited::new(Call::Set, 4)),
            b'*' => {
                self.awaited = None;
                self.grant(to)?;
            }
            b'=' => self.show(to)?,
            _ => {
                if let Some(digit) = digits::digit(letter) {
                    self.take(to, digit)?;
                }
            }
        }
        Ok(())
    }

    // A letter of the input.
    fn letter(&mut self, to: &mut impl Write, letter: u8) -> io::Result<()> {
        match self.part {
            Part::Name => self.name(to, letter),
            Part::Calls => self.call(to, letter),
            Part::Comment => {
                if letter == b'\n' {
                    *self = Table::fresh(Part::Name);
                }
                Ok(())
            }
        }
    }
}

// The input is on the stack: a program that needs no heap cannot run out of it. A read that fails ends the input, `to` passes over a write
// that fails, and no status says so.
fn main(rt: HostRuntime) {
    let mut input = [0; INPUT];
    let (Ok(length) | Err(length)) = console::read_full(&mut rt.reader(), &mut input);
    let mut to = Output::new(io::writer(&rt));
    let mut table = Table::fresh(Part::Name);
    for letter in &input[..length] {
        let _told = table.letter(&mut to, *letter).is_ok();
    }
    let _told = to.flush().is_ok();
}

// Many logs run on the proved model: each line of the input is a vector, and a line is printed for it. The expected lines were worked
// out from document 01 by an independent model; none is copied from what this program printed.
#![tactic(auto)]

use console::Output;
use std::io;
use std::io::Write;

mod script;
mod setup;
mod show;

use setup::{Lent, Setup};

// The most bytes of input that are read.
const INPUT: usize = 131072;

// Memory as it is before a run.
fn filled(lent: Lent) -> [u8; 65536] {
    let mut memory = [0u8; 65536];
    let mut next = lent.start;
    for byte in memory.iter_mut() {
        *byte = next;
        next = next.wrapping_add(lent.step);
    }
    memory
}

// Lends a log fresh memory of the setup's lengths, runs it, and prints what came of it.
fn run(to: &mut impl Write, setup: &Setup, log: &[u8]) -> io::Result<()> {
    let mut cells = filled(setup.cells);
    let mut cache = filled(setup.cache);
    let mut counts = filled(setup.counts);
    let mut out = filled(setup.out);
    let cells = &mut cells[..setup.cells.length.min(65536)];
    let cache = &mut cache[..setup.cache.length.min(65536)];
    let counts = &mut counts[..setup.counts.length.min(65536)];
    let out = &mut out[..setup.out.length.min(65536)];
    let answer = model::run(setup.geometry, setup.state, log, cells, cache, counts, out);
    show::answer(to, answer)?;
    let (written, rest) = out.split_at(answer.written.min(out.len()));
    show::bytes(to, " out ", written)?;
    show::changes(to, " rest ", rest, setup.out)?;
    show::bytes(to, " cache ", cache)?;
    show::changes(to, " cells ", cells, setup.cells)?;
    show::counts(to, counts)?;
    writeln!(to)
}

// A line of the input: the name, the numbers of the setup and the script, with a bar between two. One that begins with # is a comment.
fn line(to: &mut impl Write, text: &[u8]) -> io::Result<()> {
    if text.first() == Some(&b'#') {
        return Ok(());
    }
    let mut parts = text.splitn(3, |b| *b == b'|');
    let (Some(name), Some(numbers), Some(letters)) = (parts.next(), parts.next(), parts.next())
    else {
        return Ok(());
    };
    to.write_all(name)?;
    let mut log = [0u8; script::ROOM];
    let n = script::write(letters, &mut log);
    run(to, &Setup::read(numbers), &log[..n.min(script::ROOM)])
}

// The input is on the stack: a program that needs no heap cannot run out of it. A read that fails ends the input, `to` passes over a write
// that fails, and no status says so.
fn main(rt: HostRuntime) {
    let mut input = [0; INPUT];
    let (Ok(length) | Err(length)) = console::read_full(&mut rt.reader(), &mut input);
    let mut to = Output::new(io::writer(&rt));
    for text in input[..length].split(|b| *b == b'\n') {
        let _told = line(&mut to, text).is_ok();
    }
    let _told = to.flush().is_ok();
}

// The replay program: a log on standard input, run on the bench part, one line per record. Document 01, "The replay program".
#![tactic(auto)]

ghost use Rattle.std.specs.Prelude.{◌≤◌, length};

use buslog::Record;
use console::Output;
use device::State;
use part::Bench;
use refusals::Refusal;
use std::io;
use std::io::Write;

// The most bytes of a log.
const LOG: usize = 4096;

// The bench part: its state, and its memory.
#[derive(Clone, Copy)]
struct Device {
    state: State,
    cells: [u8; 640],
    cache: [u8; 20],
    counts: [u8; 32],
}

impl Device {
    // A log run, and why it ends.
    fn run(&mut self, log: &[u8], out: &mut [u8]) -> Refusal {
        let state = self.state;
        let cells = &mut self.cells[..];
        let cache = &mut self.cache[..];
        let counts = &mut self.counts[..];
        let answer = model::run(Bench::geometry(), state, log, cells, cache, counts, out);
        self.state = answer.state;
        answer.refusal
    }
}

// The line of a record. It holds at most 14 bytes: five digits, and nine behind them.
fn line(to: &mut impl Write, number: u16, record: Record, byte: u8, status: u8) -> io::Result<()> {
    let mut text = [0u8; 16];
    if let Some(n) = lines::record_line(number, record, byte, status, &mut text) {
        to.write_all(&text[..n])?;
    }
    Ok(())
}

// The last line, of at most 14 bytes too.
fn end(to: &mut impl Write, refusal: u8, records: u16) -> io::Result<()> {
    let mut text = [0u8; 16];
    if let Some(n) = lines::end_line(refusal, records, &mut text) {
        to.write_all(&text[..n])?;
    }
    Ok(())
}

// The log, met record by record by the reader.
// No `for`: where the next record stands is known only when this one has been read.
fn replay(to: &mut impl Write, device: &mut Device, log: &[u8]) -> io::Result<()>
    requires { length log.now ≤ 4096 }
{
    let mut at = 0;
    let mut number = 0;
    'records: loop {
        let met = reader::meet(log, at);
        let mut out = [0xFFu8; 1];
        match met.next {
            Err(_) => {
                let refusal = device.run(&log[at..], &mut out);
                return end(to, refusals::number_of(refusal), number);
            }
            Ok((record, _)) => {
                device.run(&log[at..met.place], &mut out);
                line(to, number, record, out[0], device.state.regs.c0)?;
                at = met.place;
                number += 1;
            }
        }
    }
}

// The input is on the stack: a program that needs no heap cannot run out of it. A read that fails ends the input, `to` passes over a write
// that fails, and no status says so.
fn main(rt: HostRuntime) {
    let mut input = [0; LOG];
    let (Ok(length) | Err(length)) = console::read_full(&mut rt.reader(), &mut input);
    let mut device = Device {
        state: State::power_up(),
        cells: [0xFF; 640],
        cache: [0xFF; 20],
        counts: [0; 32],
    };
    let mut to = Output::new(io::writer(&rt));
    let _told = replay(&mut to, &mut device, &input[..length]).is_ok() && to.flush().is_ok();
}

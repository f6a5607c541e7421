// What the programs share: they read their input into memory of a fixed size, and print line by line. Neither needs a heap. A read that
// fails ends the input, and a write that fails is passed over, so that a program always does all that its input asks, and ends with
// status 0.
#![tactic(auto)]

ghost use Rattle.std.specs.Prelude.{◌≡◌, ◌≤◌, ◌<◌, length, replicate, take, IfOk, IfErr};
ghost use Rattle.std.specs.Io.KnownBytes.{Consumes, IsAtEnd};

use std::io;
use std::io::{Read, Write};

// The most bytes that wait for the end of their line.
const ROOM: usize = 512;

// Fills the room from a reader, and says how many bytes came: all that there is room for, or all that the reader had; as an error those
// that had come when a read failed.
pub fn read_full<R: Read>(from: &mut R, room: &mut [u8]) -> Result<usize, usize>
    ensures filled { IfOk result (λ n. (n ≤ length room.new) × Consumes (R.remaining from.old) (R.remaining from.new) (take n room.new) × (n < length room.new → IsAtEnd (R.remaining from.new))) }
    ensures failed { IfErr result (λ n. (n < length room.new) × Consumes (R.remaining from.old) (R.remaining from.new) (take n room.new)) }
{
    let mut count = 0;
    for _ in 0..room.len() {
        if count == room.len() {
            return Ok(count);
        }
        match from.read(&mut room[count..]) {
            Ok(0) => return Ok(count),
            Ok(n) => count += n,
            Err(_) => return Err(count),
        }
    }
    Ok(count)
}

// Bytes go out: all at once, and once that fails one by one. A byte that cannot go is passed over.
fn send_all<W: Write>(to: &mut W, bytes: &[u8]) {
    let mut sent = 0;
    let mut most = bytes.len();
    for _ in 0..=bytes.len() {
        let rest = &bytes[sent.min(bytes.len())..];
        let part = &rest[..most.min(rest.len())];
        if part.is_empty() {
            return;
        }
        match to.write(part) {
            Ok(n) if 0 < n => sent += n,
            _ if 1 < most => most = 1,
            _ => sent += 1,
        }
    }
}

// An output that goes out line by line.
#[derive(Drop)]
pub struct Output<W> {
    to: W,
    waiting: [u8; ROOM],
    count: usize,
}

impl<W: Write + Drop> Output<W> {
    // Nothing waits.
    pub fn new(to: W) -> Output<W>
        ensures { result ≡ record { to = to; waiting = replicate 512 0; count = 0 } }
    {
        Output {
            to,
            waiting: [0; ROOM],
            count: 0,
        }
    }

    // What waits goes out.
    fn send(&mut self) {
        send_all(&mut self.to, &self.waiting[..self.count.min(ROOM)]);
        self.count = 0;
    }

    // One byte more waits, until its line is whole or there is no more room.
    fn put(&mut self, byte: u8) {
        if let Some(place) = self.waiting.get_mut(self.count) {
            *place = byte;
            self.count += 1;
        }
        if byte == b'\n' || self.count == ROOM {
            self.send();
        }
    }
}

impl<W: Write + Drop> Write for Output<W> {
    fn write(&mut self, buf: &[u8]) -> io::Result<usize> {
        for byte in buf {
            self.put(*byte);
        }
        Ok(buf.len())
    }

    fn flush(&mut self) -> io::Result<()> {
        self.send();
        Ok(())
    }
}

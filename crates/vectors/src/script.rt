// The writing of a log in a vector. A pair of hex digits is a byte of the log as it stands, but between `[` and `]` a byte
// that is shifted: `[06]` is 01 02 06 03, a transfer whole. Within a transfer `(` and `)` hold bytes of the log as they
// stand again: `[0F C0 (04 01 00) 00]` has a work record of one unit between two shifts. All else is passed over.

// The most bytes of a log.
pub(crate) const ROOM: usize = 2048;

// The log so far, a first digit that waits for its second, and whether a pair is a shift.
#[derive(Drop)]
struct Pen<'a> {
    log: &'a mut [u8],
    written: usize,
    high: Option<u8>,
    shifts: bool,
}

impl Pen<'_> {
    // A byte at the end of the log; none where the room is full.
    fn put(&mut self, byte: u8) {
        if let Some(place) = self.log.get_mut(self.written) {
            *place = byte;
            self.written += 1;
            self.high = None;
        }
    }

    // A digit: the first of a pair waits, the second makes the byte.
    fn digit(&mut self, digit: u8) {
        let Some(high) = self.high else {
            self.high = Some(digit);
            return;
        };
        if self.shifts {
            self.put(0x02);
        }
        self.put(high % 16 * 16 + digit % 16);
    }

    // One letter of the script.
    fn letter(&mut self, letter: u8) {
        match letter {
            b'[' => {
                self.put(0x01);
                self.shifts = true;
            }
            b']' => {
                self.put(0x03);
                self.shifts = false;
            }
            b'(' => self.shifts = false,
            b')' => self.shifts = true,
            _ => {
                if let Some(d) = digits::digit(letter) {
                    self.digit(d);
                }
            }
        }
    }
}

// Writes the log of a script, and returns its length.
pub(crate) fn write(script: &[u8], log: &mut [u8]) -> usize {
    let mut pen = Pen {
        log,
        written: 0,
        high: None,
        shifts: false,
    };
    for letter in script {
        pen.letter(*letter);
    }
    pen.written
}

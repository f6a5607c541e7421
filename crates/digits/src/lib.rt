// Hex digits as the tables of calls write them, and a number that is read digit by digit. The programs that read a table share it.
#![tactic(auto)]

ghost use Rattle.std.specs.Prelude.{◌≡◌, ◌-◌};
ghost use Rattle.digits.specs.Digits.{digit_of, with_digit};

// The value of a hex digit, a capital; another letter has none.
pub fn digit(letter: u8) -> Option<u8>
    ensures { result ≡ digit_of letter }
{
    match letter {
        b'0'..=b'9' => Some(letter - b'0'),
        b'A'..=b'F' => Some(letter - b'A' + 10),
        _ => None,
    }
}

// A number with one digit more at its end; of nine digits the first is lost.
pub fn with_digit(number: u32, digit: u8) -> u32
    ensures { result ≡ with_digit number digit }
{
    number % 0x1000_0000 * 16 + u32::from(digit % 16)
}

// A call whose digits are being read: how many are to come, and the number so far.
#[derive(Clone, Copy, Debug, PartialEq, Eq)]
pub struct Awaited<C> {
    pub call: C,
    pub left: usize,
    pub number: u32,
}

impl<C> Awaited<C> {
    // A call before its first digit.
    pub fn new(call: C, left: usize) -> Awaited<C>
        ensures { result ≡ record { call = call; left = left; number = 0 } }
    {
        Awaited {
            call,
            left,
            number: 0,
        }
    }

    // The call with one digit more.
    pub fn with(self, digit: u8) -> Awaited<C>
        ensures { result ≡ record { call = self.call; left = self.left - 1; number = with_digit self.number digit } }
    {
        Awaited {
            call: self.call,
            left: self.left.saturating_sub(1),
            number: with_digit(self.number, digit),
        }
    }
}

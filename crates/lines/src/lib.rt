// The lines of the replay program, each written at the front of lent memory. Document 01, "The replay program".
#![tactic(auto)]

ghost use Rattle.std.specs.Prelude.{[], ◌∷◌, ◌++◌, ◌≡◌, ◌-◌, ◌<◌, length};
ghost use Rattle.lines.specs.Lines.{digits, places, hex_digit, hex, letter_of, do_of, do_text, fields_of, line_of, word, end_of, laid, laid_of};

use buslog::Record;

// The letter of a record's kind.
fn letter(e: Record) -> u8
    ensures { result ≡ letter_of e }
{
    match e {
        Record::Select => b'S',
        Record::Shift(_) => b'B',
        Record::Deselect => b'D',
        Record::Units(_) => b'W',
        Record::Level(_) => b'L',
        Record::Power => b'P',
    }
}

// A hex digit, a capital.
#[tactic(auto, unfolding(crate::specs::Lines::hex_digit))]
fn hex_digit(d: u8) -> u8
    requires { d < 16 }
    ensures { result ≡ hex_digit d }
{
    if d < 10 { b'0' + d } else { 0x37 + d }
}

// A byte in two hex digits.
#[tactic(auto, unfolding(crate::specs::Lines::hex))]
fn hex_pair(b: u8) -> (u8, u8)
    ensures { result.0 ∷ result.1 ∷ [] ≡ hex b }
{
    (hex_digit(b / 16), hex_digit(b % 16))
}

// The byte on DO, which only a shift has.
fn do_pair(e: Record, d: u8) -> (u8, u8)
    ensures { result.0 ∷ result.1 ∷ [] ≡ do_text (do_of e d) }
{
    match e {
        Record::Shift(_) => hex_pair(d),
        _ => (b'-', b'-'),
    }
}

// How many digits a number has.
#[tactic(auto, unfolding(crate::specs::Lines::places))]
fn places_of(n: u16) -> usize
    ensures { result ≡ places n }
{
    match n {
        0..=9 => 1,
        10..=99 => 2,
        100..=999 => 3,
        1000..=9999 => 4,
        _ => 5,
    }
}

// The digits of a number, as many as the stretch has room for, and a character behind them.
fn store_number(n: u16, last: u8, out: &mut [u8])
    requires { 0 < length out.old }
    ensures { out.new ≡ digits (length out.old - 1) n ++ last ∷ [] }
{
    let k = out.len() - 1;
    let mut rest = n;
    out[k] = last;
    for i in (0..k).rev() {
        out[i] = b'0' + (rest % 10) as u8;
        rest /= 10;
    }
}

// What stands behind the number, in a stretch that is just as long.
fn store_fields(e: Record, d: u8, status: u8, out: &mut [u8])
    requires { length out.old ≡ 8 }
    ensures { out.new ≡ fields_of e (do_of e d) status }
{
    let t = do_pair(e, d);
    let s = hex_pair(status);
    out.copy_from_slice(&[letter(e), b' ', t.0, t.1, b' ', s.0, s.1, b'\n']);
}

// The line of a record and its length, or not a byte where the room is too short.
pub fn record_line(number: u16, e: Record, d: u8, status: u8, out: &mut [u8]) -> Option<usize>
    ensures { laid result out.new ≡ laid_of (line_of number e (do_of e d) status) out.old }
{
    let k = places_of(number) + 1;
    let n = k + 8;
    if out.len() < n {
        return None;
    }
    store_number(number, b' ', &mut out[0..k]);
    store_fields(e, d, status, &mut out[k..n]);
    Some(n)
}

// `end` and a space, in a stretch that is just as long.
fn store_word(out: &mut [u8])
    requires { length out.old ≡ 4 }
    ensures { out.new ≡ word }
{
    out.copy_from_slice(b"end ");
}

// The last line and its length, or not a byte where the room is too short.
pub fn end_line(refusal: u8, records: u16, out: &mut [u8]) -> Option<usize>
    ensures { laid result out.new ≡ laid_of (end_of refusal records) out.old }
{
    let r = u16::from(refusal);
    let k = 4 + places_of(r) + 1;
    let n = k + places_of(records) + 1;
    if out.len() < n {
        return None;
    }
    store_word(&mut out[0..4]);
    store_number(r, b' ', &mut out[4..k]);
    store_number(records, b'\n', &mut out[k..n]);
    Some(n)
}

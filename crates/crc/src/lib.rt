// The ONFI 1.0 check of a stretch of bytes, eight bits at a time by a table of 256 entries. Document 02, item 1.
// `RightTable` is asked for by `requires`: there is one table, a constant, and a type around it would be one name more.
#![tactic(auto)]

ghost use Rattle.std.specs.Prelude.{◌≡◌};
ghost use Rattle.crc.specs.Crc.{RightTable, byte_fed, crc_of};

mod table;

use table::TABLE;

// Eight bits of the check go out at the top, and eight 0 bits come in.
#[tactic(auto, using(crate::proofs::Linear::by_entry))]
fn moved(table: &[u16; 256], c: u16) -> u16
    requires { RightTable table.now }
    ensures { result ≡ byte_fed c 0 }
{
    let n = usize::from(c / 256);
    (c % 256 * 256) ^ table[n]
}

// One byte more. It is added to the upper eight bits, and they go out.
#[tactic(auto, using(crate::proofs::Linear::data_added))]
fn one_more(table: &[u16; 256], c: u16, b: u8) -> u16
    requires { RightTable table.now }
    ensures { result ≡ byte_fed c b }
{
    moved(table, c ^ (256 * u16::from(b)))
}

// Two bytes more. They are added to all 16 bits at once, which then go out.
#[tactic(auto, using(crate::proofs::Linear::both_added))]
fn two_more(table: &[u16; 256], c: u16, b: u8, d: u8) -> u16
    requires { RightTable table.now }
    ensures { result ≡ byte_fed (byte_fed c b) d }
{
    let both = 256 * u16::from(b) + u16::from(d);
    moved(table, moved(table, c ^ both))
}

// The check of a stretch of bytes, two by two.
fn along(table: &[u16; 256], bytes: &[u8]) -> u16
    requires { RightTable table.now }
    ensures { result ≡ crc_of bytes.now }
{
    let (pairs, last) = bytes.as_chunks::<2>();
    let mut c: u16 = 0x4F4E;
    for pair in pairs {
        c = two_more(table, c, pair[0], pair[1]);
    }
    match last.first() {
        Some(b) => one_more(table, c, *b),
        None => c,
    }
}

// The check of a stretch of bytes. (The table is put on the stack once, and not again for each byte.)
pub fn check_of(bytes: &[u8]) -> u16
    ensures { result ≡ crc_of bytes.now }
{
    let table = TABLE;
    along(&table, bytes)
}

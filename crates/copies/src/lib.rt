// The three copies of the parameter page, and their reader. Document 02, item 1; the datasheet's section 10.
// A copy is a stretch of the lent memory, 256 bytes by `requires`: an array of 256 would be a copy on the stack.
#![tactic(auto)]

ghost use Rattle.std.specs.Prelude.{◌≡◌, ◌≤◌, ◌<◌, ◌^◌, length};
ghost use Rattle.sheet.specs.Numbers.{number_in};
ghost use Rattle.copies.specs.Copies.{copy_at, signed, checked, holds, sizes_in, read_of};

// The four numbers of a page: D, S, K and N.
#[derive(Clone, Copy, Debug, PartialEq, Eq)]
pub struct Sizes {
    pub main: u32,
    pub spare: u16,
    pub pages: u32,
    pub blocks: u32,
}

// The copy that is read: which one, and its numbers.
#[derive(Clone, Copy, Debug, PartialEq, Eq)]
pub struct Found {
    pub copy: u8,
    pub sizes: Sizes,
}

// Why no copy is read.
#[derive(Clone, Copy, Debug, PartialEq, Eq)]
pub enum ReadError {
    NoCopy,
    TooShort,
}

// The number in a stretch of at most four bytes, low byte first.
fn number(stretch: &[u8]) -> u32
    requires { length stretch.now ≤ 4 }
    ensures value { result ≡ number_in stretch.now }
    ensures small { result < 256 ^ length stretch.now }
{
    let mut n: u32 = 0;
    for i in (0..stretch.len()).rev() {
        n = 256 * n + u32::from(stretch[i]);
    }
    n
}

// Whether a copy has the signature.
#[tactic(auto, using(crate::proofs::Holding::signed_start))]
fn signed(page: &[u8]) -> bool
    requires { length page.now ≡ 256 }
    ensures { result ≡ signed page.now }
{
    page.starts_with(b"ONFI")
}

// Whether a copy has the check of its bytes 0 to 253.
#[tactic(auto, unfolding(crate::specs::Copies::checked))]
fn checked(page: &[u8]) -> bool
    requires { length page.now ≡ 256 }
    ensures { result ≡ checked page.now }
{
    let check = crc::check_of(&page[0..254]);
    number(&page[254..256]) == u32::from(check)
}

// Whether a copy holds.
fn holds(page: &[u8]) -> bool
    requires { length page.now ≡ 256 }
    ensures { result ≡ holds page.now }
{
    signed(page) && checked(page)
}

// The four numbers of a copy, as they stand.
fn sizes_in(page: &[u8]) -> Sizes
    requires { length page.now ≡ 256 }
    ensures { result ≡ sizes_in page.now }
{
    Sizes {
        main: number(&page[80..84]),
        spare: number(&page[84..86]) as u16,
        pages: number(&page[92..96]),
        blocks: number(&page[96..100]),
    }
}

// One of the three copies.
fn copy_at(memory: &[u8], copy: u8) -> &[u8]
    requires { (768 ≤ length memory.now) × (copy < 3) }
    ensures { (result.now ≡ copy_at copy memory.now) × (length result.now ≡ 256) }
{
    let at = 256 * usize::from(copy);
    &memory[at..at + 256]
}

// The first of the three copies that holds.
#[tactic(auto, unfolding(crate::specs::Copies::read_of))]
pub fn read(memory: &[u8]) -> Result<Found, ReadError>
    ensures { result ≡ read_of memory.now }
{
    if memory.len() < 768 {
        return Err(ReadError::TooShort);
    }
    for copy in 0..3 {
        let page = copy_at(memory, copy);
        if holds(page) {
            return Ok(Found {
                copy,
                sizes: sizes_in(page),
            });
        }
    }
    Err(ReadError::NoCopy)
}

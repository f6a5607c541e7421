// The parameter page in C: the functions of include/sleetanvil.h, "the parameter page". Plain numbers outside; every content is answered.
#![tactic(auto)]

ghost use Rattle.std.specs.Prelude.{◌≡◌};
ghost use Rattle.part_numbers.specs.Numbers.{part_of};
ghost use Rattle.crc.specs.Crc.{crc_of};
ghost use Rattle.sheet.specs.Page.{make_of};
ghost use Rattle.copies.specs.Copies.{figures, read_of};
ghost use Rattle.page_face.specs.Face.{face_made, numbered, face_sizes};

use copies::{Found, ReadError};
use part_numbers::CGeometry;

// The four numbers of a page, the copy that they are from, and the refusal. (In C the first field is `data`.)
#[repr(C)]
#[derive(Clone, Copy, Debug, PartialEq, Eq)]
pub struct CSizes {
    pub main: u32,
    pub pages: u32,
    pub blocks: u32,
    pub spare: u16,
    pub copy: u8,
    pub refusal: u8,
}

// The numbers of an answer that is refused, as C is told it.
fn refused(refusal: u8) -> CSizes
    ensures { result ≡ record { main = 0; pages = 0; blocks = 0; spare = 0; copy = 0; refusal = refusal } }
{
    CSizes {
        main: 0,
        pages: 0,
        blocks: 0,
        spare: 0,
        copy: 0,
        refusal,
    }
}

// The numbers of an answer.
fn sizes_of(read: Result<Found, ReadError>) -> CSizes
    ensures { result ≡ face_sizes (figures read) }
{
    match read {
        Ok(Found { copy, sizes }) => CSizes {
            main: sizes.main,
            pages: sizes.pages,
            blocks: sizes.blocks,
            spare: sizes.spare,
            copy,
            refusal: 0,
        },
        Err(ReadError::NoCopy) => refused(10),
        Err(ReadError::TooShort) => refused(11),
    }
}

// A part's page at the front of lent memory.
pub fn sleet_page_make(part: CGeometry, memory: &mut [u8]) -> u8
    ensures { face_made result memory.new ≡ numbered (make_of (part_of part) memory.old) }
{
    sheet::made_number(sheet::make(part_numbers::part_of(part), memory))
}

// The first of the three copies that holds.
pub fn sleet_page_read(memory: &[u8]) -> CSizes
    ensures { result ≡ face_sizes (figures (read_of memory.now)) }
{
    sizes_of(copies::read(memory))
}

// The check of a stretch of bytes.
pub fn sleet_page_check(bytes: &[u8]) -> u16
    ensures { result ≡ crc_of bytes.now }
{
    crc::check_of(bytes)
}

// The parameter page of a part, and its maker. Document 02, item 1; the datasheet's section 10.
#![tactic(auto)]

ghost use Rattle.std.specs.Prelude.{◌≡◌, length};
ghost use Rattle.sheet.specs.Sheet.{sheet_of, unnumbered};
ghost use Rattle.sheet.specs.Page.{page_of, made_number, made_end, make_of};

use part::Geometry;

// Why no page is made.
#[derive(Clone, Copy, Debug, PartialEq, Eq)]
pub enum MakeError {
    BadPart,
    NoRoom,
}

// The number of refusal of what the maker answers, which C is told.
pub fn made_number(made: Result<(), MakeError>) -> u8
    ensures { result ≡ made_number made }
{
    match made {
        Ok(()) => 0,
        Err(MakeError::BadPart) => 1,
        Err(MakeError::NoRoom) => 11,
    }
}

// 003's table, a line here for each line there (and three for the last), with 0 for the part's own numbers.
fn lay_table(sheet: &mut [u8])
    requires { length sheet.old ≡ 254 }
    ensures { sheet.new ≡ unnumbered }
{
    texts::copy(
        b"ONFI\
        \0\0\
        \0\0\
        \x06\0\
        \0\0\0\0\0\0\0\0\0\0\0\0\0\0\0\0\0\0\0\0\0\0\
        FUDANMICRO  \
        FM25S005BI3         \
        \xA1\
        \0\0\
        \0\0\0\0\0\0\0\0\0\0\0\0\0\
        \0\0\0\0\
        \0\0\
        \0\0\0\0\0\0\
        \0\0\0\0\
        \0\0\0\0\
        \x01\
        \0\
        \x01\
        \x0A\0\
        \x05\x04\
        \x01\
        \0\0\
        \x04\
        \0\
        \0\
        \0\
        \0\
        \0\0\0\0\0\0\0\0\0\0\0\0\0\
        \x08\
        \0\0\0\0\
        \x84\x03\
        \x10\x27\
        \x69\0\
        \0\0\0\0\0\0\0\0\0\0\0\0\0\0\0\0\0\0\0\0\0\0\0\0\0\
        \0\0\
        \0\0\0\0\0\0\0\0\0\0\0\0\0\0\0\0\0\0\0\0\0\0\0\0\0\0\0\0\0\0\0\0\
        \0\0\0\0\0\0\0\0\0\0\0\0\0\0\0\0\0\0\0\0\0\0\0\0\0\0\0\0\0\0\0\0\
        \0\0\0\0\0\0\0\0\0\0\0\0\0\0\0\0\0\0\0\0\0\0\0\0",
        sheet,
    );
}

// Bytes 0 to 253: the table, and the part's D, S, K and N in their places.
fn lay_sheet(g: Geometry, sheet: &mut [u8])
    requires { length sheet.old ≡ 254 }
    ensures { sheet.new ≡ sheet_of g }
{
    lay_table(sheet);
    let spare = g.spare.to_le_bytes();
    sheet[80..84].copy_from_slice(&g.main.to_le_bytes());
    sheet[84..86].copy_from_slice(&spare[..2]);
    sheet[92..96].copy_from_slice(&g.pages.to_le_bytes());
    sheet[96..100].copy_from_slice(&g.blocks.to_le_bytes());
}

// The whole page: those bytes, and their check.
fn lay_page(g: Geometry, page: &mut [u8])
    requires { length page.old ≡ 256 }
    ensures { page.new ≡ page_of g }
{
    lay_sheet(g, &mut page[0..254]);
    let check = crc::check_of(&page[0..254]);
    page[254..256].copy_from_slice(&check.to_le_bytes());
}

// A part's page at the front of lent memory; the bytes behind it stay. Refused, no byte is changed.
#[tactic(auto, unfolding(crate::specs::Page::make_of))]
pub fn make(g: Geometry, memory: &mut [u8]) -> Result<(), MakeError>
    ensures { made_end result memory.new ≡ make_of g memory.old }
{
    if !g.sound() {
        return Err(MakeError::BadPart);
    }
    if memory.len() < 256 {
        return Err(MakeError::NoRoom);
    }
    lay_page(g, &mut memory[0..256]);
    Ok(())
}

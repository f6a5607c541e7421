// The exports of `page_face`: each calls its function there, under the same clauses.
ghost use Rattle.std.specs.Prelude.{◌≡◌};
ghost use Rattle.part_numbers.specs.Numbers.{part_of};
ghost use Rattle.crc.specs.Crc.{crc_of};
ghost use Rattle.sheet.specs.Page.{make_of};
ghost use Rattle.copies.specs.Copies.{figures, read_of};
ghost use Rattle.page_face.specs.Face.{face_made, numbered, face_sizes};

use page_face::CSizes;
use part_numbers::CGeometry;

// A part's page at the front of lent memory.
#[unsafe(no_mangle)]
pub extern "C" fn sleet_page_make(part: CGeometry, memory: &mut [u8]) -> u8
    ensures { face_made result memory.new ≡ numbered (make_of (part_of part) memory.old) }
{
    page_face::sleet_page_make(part, memory)
}

// The first of the three copies that holds.
#[unsafe(no_mangle)]
pub extern "C" fn sleet_page_read(memory: &[u8]) -> CSizes
    ensures { result ≡ face_sizes (figures (read_of memory.now)) }
{
    page_face::sleet_page_read(memory)
}

// The check of a stretch of bytes.
#[unsafe(no_mangle)]
pub extern "C" fn sleet_page_check(bytes: &[u8]) -> u16
    ensures { result ≡ crc_of bytes.now }
{
    page_face::sleet_page_check(bytes)
}

// The exports of `card_face`: each calls its function there, under the same clauses.
ghost use Rattle.std.specs.Prelude.{◌≡◌};
ghost use Rattle.cardlog.specs.Log.{bytes_of};
ghost use Rattle.cardlog.specs.declared.Record.TheVariants.{Sent};
ghost use Rattle.card.specs.declared.Stage.TheVariants.{Fresh};
ghost use Rattle.card_face.specs.Face.{face_card, face_seen, face_run};

use card_face::{CCard, CCardAnswer};

// A card to which power has just come.
#[unsafe(no_mangle)]
pub extern "C" fn sleet_card_power_up() -> CCard
    ensures { result ≡ face_card Fresh }
{
    card_face::sleet_card_power_up()
}

// A card log run on a card.
#[unsafe(no_mangle)]
pub extern "C" fn sleet_card_run(
    card: CCard,
    log: &[u8],
    cells: &mut [u8],
    bits: &mut [u8],
    out: &mut [u8],
) -> CCardAnswer
    ensures { face_seen result cells.new bits.new out.new
        ≡ face_run card log.now cells.old bits.old out.old }
{
    card_face::sleet_card_run(card, log, cells, bits, out)
}

// One command: the same as a run of the record's bytes.
#[unsafe(no_mangle)]
pub extern "C" fn sleet_card_command(
    card: CCard,
    first: u8,
    second: u8,
    third: u8,
    cells: &mut [u8],
    bits: &mut [u8],
    out: &mut [u8],
) -> CCardAnswer
    ensures { face_seen result cells.new bits.new out.new
        ≡ face_run card (bytes_of (Sent first second third)) cells.old bits.old out.old }
{
    card_face::sleet_card_command(card, first, second, third, cells, bits, out)
}

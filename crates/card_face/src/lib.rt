// The card slot in C: the functions of include/sleetanvil.h, "the card slot". Plain numbers outside; every content is answered.
#![tactic(auto)]

ghost use Rattle.std.specs.Prelude.{◌≡◌, leb, if◌then◌else◌};
ghost use Rattle.cardlog.specs.Log.{bytes_of};
ghost use Rattle.cardlog.specs.declared.Record.TheVariants.{Sent};
ghost use Rattle.card.specs.declared.Stage.TheVariants.{Fresh};
ghost use Rattle.card_face.specs.Face.{stage_number, stage_of, face_card, face_answer, refused_as, face_refused, face_seen, face_run};

use card::Stage;
use slot::Answer;

// A card: its stage, 0 to 3.
#[repr(C)]
#[derive(Clone, Copy, Debug, PartialEq, Eq)]
pub struct CCard {
    pub stage: u8,
}

// The answer to a run.
#[repr(C)]
#[derive(Clone, Copy, Debug, PartialEq, Eq)]
pub struct CCardAnswer {
    pub records: usize,
    pub used: usize,
    pub written: usize,
    pub card: CCard,
    pub refusal: u8,
}

impl From<Stage> for CCard {
    ghost from_gives = { λ s k. k ≡ face_card s };

    // The card at a stage, in its number.
    fn from(s: Stage) -> CCard {
        let stage = match s {
            Stage::Fresh => 0,
            Stage::Counted => 1,
            Stage::Half => 2,
            Stage::Open => 3,
        };
        CCard { stage }
    }
}

impl From<Answer> for CCardAnswer {
    ghost from_gives = { λ a k. k ≡ face_answer a };

    // An answer in numbers.
    fn from(a: Answer) -> CCardAnswer {
        CCardAnswer {
            records: a.records,
            used: a.used,
            written: a.written,
            card: CCard::from(a.stage),
            refusal: slot::number(a.refusal),
        }
    }
}

// The stage of a number, of 0 to 3; none of a greater one.
#[tactic(auto, unfolding(crate::specs::Face::stage_of))]
fn stage_of(n: u8) -> Option<Stage>
    ensures { result ≡ (if leb n 3 then Some (stage_of n) else None) }
{
    match n {
        0 => Some(Stage::Fresh),
        1 => Some(Stage::Counted),
        2 => Some(Stage::Half),
        3 => Some(Stage::Open),
        _ => None,
    }
}

// The refusal of a number that is no stage, as C is told it: 17 and 18 come before it. (A stage is wanted to ask `slot`, and there is none.)
#[tactic(auto, unfolding(crate::specs::Face::refused_as))]
fn refused(cells: usize, bits: usize) -> u8
    ensures { result ≡ refused_as cells bits }
{
    if cells != 1024 {
        return 17;
    }
    if bits != 128 {
        return 18;
    }
    5
}

// The answer where nothing was done.
fn nothing(card: CCard, refusal: u8) -> CCardAnswer
    ensures { result ≡ face_refused card refusal }
{
    CCardAnswer {
        records: 0,
        used: 0,
        written: 0,
        card,
        refusal,
    }
}

// A card to which power has just come.
pub fn sleet_card_power_up() -> CCard
    ensures { result ≡ face_card Fresh }
{
    CCard::from(Stage::Fresh)
}

// A card log run on a card.
#[tactic(auto, unfolding(crate::specs::Face::face_run))]
pub fn sleet_card_run(
    card: CCard,
    log: &[u8],
    cells: &mut [u8],
    bits: &mut [u8],
    out: &mut [u8],
) -> CCardAnswer
    ensures { face_seen result cells.new bits.new out.new
        ≡ face_run card log.now cells.old bits.old out.old }
{
    match stage_of(card.stage) {
        Some(stage) => CCardAnswer::from(slot::run(stage, log, cells, bits, out)),
        None => nothing(card, refused(cells.len(), bits.len())),
    }
}

// One command: the same as a run of the record's bytes.
#[tactic(auto, unfolding(crate::specs::Face::face_run))]
pub fn sleet_card_command(
    card: CCard,
    first: u8,
    second: u8,
    third: u8,
    cells: &mut [u8],
    bits: &mut [u8],
    out: &mut [u8],
) -> CCardAnswer
    ensures { face_seen result cells.new bits.new out.new
        ≡ face_run card (bytes_of (Sent first second third)) cells.old bits.old out.old }
{
    match stage_of(card.stage) {
        Some(stage) => {
            CCardAnswer::from(slot::command(stage, first, second, third, cells, bits, out))
        }
        None => nothing(card, refused(cells.len(), bits.len())),
    }
}

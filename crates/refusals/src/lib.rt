// The numbers of refusal, and the checks that are made once, before any record. Document 01, "Numbers of refusal".
#![tactic(auto)]

ghost use Rattle.std.specs.Prelude.{◌≡◌};
ghost use Rattle.refusals.specs.Refusals.{refusal_of, check_of, number_of};

use buslog::Why;
use device::State;
use part::Geometry;

// The refusals, 0 to 9. `Done` is among them: it is line 0 of document 01's table, and the theorem `Exactly` speaks of all ten lines.
#[derive(Clone, Copy, Debug, PartialEq, Eq)]
pub enum Refusal {
    Done,
    BadPart,
    BadCells,
    BadCache,
    BadCounts,
    BadState,
    BadKind,
    ShortBody,
    BadLevel,
    NoRoom,
}

// The paper's number of a refusal, which C is told.
pub fn number_of(r: Refusal) -> u8
    ensures { result ≡ number_of r }
{
    match r {
        Refusal::Done => 0,
        Refusal::BadPart => 1,
        Refusal::BadCells => 2,
        Refusal::BadCache => 3,
        Refusal::BadCounts => 4,
        Refusal::BadState => 5,
        Refusal::BadKind => 6,
        Refusal::ShortBody => 7,
        Refusal::BadLevel => 8,
        Refusal::NoRoom => 9,
    }
}

impl From<Why> for Refusal {
    ghost from_gives = { λ w r. r ≡ refusal_of w };

    // The refusal for a reason why the reading of a log ends.
    fn from(w: Why) -> Refusal {
        match w {
            Why::End => Refusal::Done,
            Why::BadKind => Refusal::BadKind,
            Why::ShortBody => Refusal::ShortBody,
            Why::BadLevel => Refusal::BadLevel,
        }
    }
}

// The checks 1 to 5, in their order, of a part, a state and the lengths of the lent memory.
pub fn check(
    g: Geometry,
    s: State,
    cells: usize,
    cache: usize,
    counts: usize,
) -> Result<(), Refusal>
    ensures { result ≡ check_of g s cells cache counts }
{
    if !g.sound() {
        return Err(Refusal::BadPart);
    }
    if cells != g.rows() * g.page() {
        return Err(Refusal::BadCells);
    }
    if cache != g.page() {
        return Err(Refusal::BadCache);
    }
    if counts != g.rows() {
        return Err(Refusal::BadCounts);
    }
    if !s.sound(g) {
        return Err(Refusal::BadState);
    }
    Ok(())
}

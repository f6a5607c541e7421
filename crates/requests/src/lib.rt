// A request to program a page or to erase a block: what becomes of it, and the page counts. Document 01, "Instructions", 10h and D8h.
#![tactic(auto)]

ghost use Rattle.std.specs.Prelude.{◌≡◌, ℕ, ◌<◌};
ghost use Rattle.requests.specs.Requests.{used_of, program_fate, erase_fate, counted, uncounted, counts_after};

use part::{Geometry, Row};

// What bars a request to program or to erase: its row is outside the array, its block is protected, or its page has been programmed
// too often.
#[derive(Clone, Copy, Debug, PartialEq, Eq)]
pub enum Bar {
    ByRow,
    ByProtection,
    ByCount,
}

// What becomes of an erase: its row may be outside the array, its block protected.
#[tactic(auto, unfolding(crate::specs::Requests::erase_fate))]
pub fn erase_fate(g: Geometry, a0: u8, row: Row) -> Result<(), Bar>
    ensures { result ≡ erase_fate g a0 row }
{
    if g.rows() <= usize::from(row.0) {
        return Err(Bar::ByRow);
    }
    if part::protected(g, a0, g.block(row)) {
        return Err(Bar::ByProtection);
    }
    Ok(())
}

// How often a page has been programmed since its block was erased; 0 where it has no count.
pub fn used(row: Row, counts: &[u8]) -> u8
    ensures { result ≡ used_of row counts.now }
{
    counts.get(usize::from(row.0)).copied().unwrap_or(0)
}

// What becomes of a program: the same is asked, and then the count.
#[tactic(auto, using(crate::proofs::Fates::program_fate_lem))]
pub fn program_fate(g: Geometry, a0: u8, row: Row, counts: &[u8]) -> Result<(), Bar>
    ensures { result ≡ program_fate g a0 row counts.now }
{
    erase_fate(g, a0, row)?;
    if 4 <= used(row, counts) {
        return Err(Bar::ByCount);
    }
    Ok(())
}

// A page's count rises by 1.
fn count_up(row: Row, counts: &mut [u8])
    requires { used_of row counts.old < 4 }
    ensures { counts.new ≡ counted row counts.old }
{
    let at = usize::from(row.0);
    if at < counts.len() {
        counts[at] += 1;
    }
}

// The counts of a block become 0, as far as there are counts.
fn uncount(g: Geometry, row: Row, counts: &mut [u8])
    ensures { counts.new ≡ uncounted g row counts.old }
{
    let k = g.pages as usize;
    let b = g.block(row) * k;
    let n = counts.len();
    counts[b.min(n)..(b + k).min(n)].fill(0);
}

// A program asked for: where it begins, the page's count rises.
#[tactic(auto, using(crate::proofs::Fates::program_room))]
pub fn ask_program(g: Geometry, a0: u8, row: Row, counts: &mut [u8]) -> Result<(), Bar>
    ensures { (result ≡ program_fate g a0 row counts.old) × (counts.new ≡ counts_after result (counted row) counts.old) }
{
    program_fate(g, a0, row, &*counts)?;
    count_up(row, counts);
    Ok(())
}

// An erase asked for: where it begins, the counts of the block become 0.
pub fn ask_erase(g: Geometry, a0: u8, row: Row, counts: &mut [u8]) -> Result<(), Bar>
    ensures { (result ≡ erase_fate g a0 row) × (counts.new ≡ counts_after result (uncounted g row) counts.old) }
{
    erase_fate(g, a0, row)?;
    uncount(g, row, counts);
    Ok(())
}

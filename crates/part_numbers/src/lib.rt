// A part in the numbers of C: its struct of include/sleetanvil.h, what the numbers stand for, and the lengths that it asks for.
#![tactic(auto)]

ghost use Rattle.std.specs.Prelude.{◌≡◌};
ghost use Rattle.part.specs.Part.{no_part};
ghost use Rattle.part_numbers.specs.Numbers.{stepping_at, stepping_number, part_of, face_part, cells_length, cache_length, counts_length};

use part::{Geometry, Stepping};

// The part. (In C its first field is `data`: a name that the proofs' language keeps for itself.)
#[repr(C)]
#[derive(Clone, Copy)]
pub struct CGeometry {
    pub main: u32,
    pub spare: u32,
    pub pages: u32,
    pub blocks: u32,
    pub id0: u8,
    pub id1: u8,
    pub stepping: u8,
}

// The stepping of a number, if it has one.
fn stepping_at(k: u8) -> Option<Stepping>
    ensures { result ≡ stepping_at k }
{
    match k {
        0 => Some(Stepping::First),
        1 => Some(Stepping::Second),
        _ => None,
    }
}

// The number of a stepping, in C's struct.
fn stepping_number(stepping: Stepping) -> u8
    ensures { result ≡ stepping_number stepping }
{
    match stepping {
        Stepping::First => 0,
        Stepping::Second => 1,
    }
}

// A part of nothing, which is not sound, so that every function refuses it in its own way (`NoSuchStepping`).
fn no_part() -> Geometry
    ensures { result ≡ no_part }
{
    Geometry {
        main: 0,
        spare: 0,
        pages: 0,
        blocks: 0,
        id0: 0,
        id1: 0,
        stepping: Stepping::First,
    }
}

// The geometry of some numbers; that of no part where there is no such stepping.
pub fn part_of(g: CGeometry) -> Geometry
    ensures { result ≡ part_of g }
{
    match stepping_at(g.stepping) {
        Some(stepping) => Geometry {
            main: g.main,
            spare: g.spare,
            pages: g.pages,
            blocks: g.blocks,
            id0: g.id0,
            id1: g.id1,
            stepping,
        },
        None => no_part(),
    }
}

// The numbers of a geometry.
pub fn face_part(g: Geometry) -> CGeometry
    ensures { result ≡ face_part g }
{
    CGeometry {
        main: g.main,
        spare: g.spare,
        pages: g.pages,
        blocks: g.blocks,
        id0: g.id0,
        id1: g.id1,
        stepping: stepping_number(g.stepping),
    }
}

// The length that cells must have; 0 for an unsound part, as in C. (The three lengths stay apart: each is one choice, and a helper that
// takes a closure for the length is no shorter.)
pub fn cells_length(part: CGeometry) -> usize
    ensures { result ≡ cells_length (part_of part) }
{
    let g = part_of(part);
    if g.sound() { g.rows() * g.page() } else { 0 }
}

// The length that the cache register must have.
pub fn cache_length(part: CGeometry) -> usize
    ensures { result ≡ cache_length (part_of part) }
{
    let g = part_of(part);
    if g.sound() { g.page() } else { 0 }
}

// The length that page counts must have.
pub fn counts_length(part: CGeometry) -> usize
    ensures { result ≡ counts_length (part_of part) }
{
    let g = part_of(part);
    if g.sound() { g.rows() } else { 0 }
}

// The part: its geometry and when that is sound, the row and the column address, and which blocks are protected.
// Document 01, "The article" and "Protection".
#![tactic(auto)]

ghost use Rattle.std.specs.Prelude.{◌≡◌, ◌^◌, ◌<◌, ℕ};
ghost use Rattle.part.specs.Part.{page, rows, sound_part, place, block, first_of, fm25s005bi3, bench};
ghost use Rattle.part.specs.Protection.{bp, guarded, picked, complemented, protects};

// The stepping of a part. The second has CMP, the complement bit, in A0h.
#[derive(Clone, Copy, Debug, PartialEq, Eq)]
pub enum Stepping {
    First,
    Second,
}

// D, S, K, N, the two identity bytes and the stepping. Every number of 32 bits can be handed in, so each unsound geometry can be said;
// D + S and K times N, the sums and products that the soundness rule asks about, never leave 64 bits.
#[derive(Clone, Copy, Debug, PartialEq, Eq)]
pub struct Geometry {
    pub main: u32,
    pub spare: u32,
    pub pages: u32,
    pub blocks: u32,
    pub id0: u8,
    pub id1: u8,
    pub stepping: Stepping,
}

// A row address: which page of the array.
#[derive(Clone, Copy, Debug, PartialEq, Eq)]
pub struct Row(pub u16);

// A column address: which byte of a page.
#[derive(Clone, Copy, Debug, PartialEq, Eq)]
pub struct Column(pub u16);

impl Geometry {
    // P, the bytes of a page.
    pub fn page(self) -> usize
        ensures { result ≡ page self }
    {
        self.main as usize + self.spare as usize
    }

    // The rows of the array, K times N.
    pub fn rows(self) -> usize
        ensures { result ≡ rows self }
    {
        self.pages as usize * self.blocks as usize
    }

    // D at least 1, P at most 4,096, K from 1 to 256, N at least 1, K times N at most 65,536.
    #[tactic(auto, unfolding(crate::specs::Part::sound_part))]
    pub fn sound(self) -> bool
        ensures { result ≡ sound_part self }
    {
        1 <= self.main
            && self.page() <= 4096
            && 1 <= self.pages
            && self.pages <= 256
            && 1 <= self.blocks
            && self.rows() <= 65536
    }

    // The block of a row. A part without pages, which is not sound, has the one number 0.
    pub fn block(self, row: Row) -> usize
        ensures { result ≡ block self row }
    {
        if self.pages == 0 {
            return 0;
        }
        usize::from(row.0) / self.pages as usize
    }
}

// The place of a cell: the one function that takes a row and a column.
pub fn place(g: Geometry, row: Row, column: Column) -> usize
    ensures { result ≡ place g row column }
{
    usize::from(row.0) * g.page() + usize::from(column.0)
}

// The BP number of register A0h.
fn bp(a0: u8) -> u8
    ensures { result ≡ bp a0 }
{
    a0 / 8 % 8
}

// How many blocks BP speaks of, b being its number: for b = 0 none, otherwise N / 2^(7-b), rounded down.
fn guarded(g: Geometry, a0: u8) -> usize
    ensures { result ≡ guarded g (bp a0) }
{
    let b = bp(a0);
    if b == 0 {
        return 0;
    }
    g.blocks as usize / two_to(7 - b)
}

// Two to the power k.
fn two_to(k: u8) -> usize
    requires { k < 64 }
    ensures { result ≡ 2 ^ k }
{
    1 << k
}

// Whether a block is one of those that BP and INV pick: the highest numbered, or with INV the lowest.
fn picked(g: Geometry, a0: u8, block: usize) -> bool
    ensures { result ≡ picked g a0 block }
{
    let count = guarded(g, a0);
    if a0 / 4 % 2 == 1 {
        return block < count;
    }
    g.blocks as usize - count <= block
}

// Whether the others are protected in their place: on the second stepping, with CMP 1 and b from 1 to 6.
fn complemented(stepping: Stepping, a0: u8) -> bool
    ensures { result ≡ complemented stepping a0 }
{
    match stepping {
        Stepping::First => false,
        Stepping::Second => {
            let b = bp(a0);
            a0 / 2 % 2 == 1 && 1 <= b && b <= 6
        }
    }
}

// Whether register A0h protects a block.
#[tactic(auto, unfolding(crate::specs::Protection::protects))]
pub fn protected(g: Geometry, a0: u8, block: usize) -> bool
    ensures { result ≡ protects g a0 block }
{
    block < g.blocks as usize && picked(g, a0, block) != complemented(g.stepping, a0)
}

// The fixed numbers of a named part: for clauses the ghosts, and for code the constants, which the check shows equal.
pub trait NamedPart {
    ghost D: { ℕ };

    ghost S: { ℕ };

    ghost K: { ℕ };

    ghost N: { ℕ };

    ghost ID0: { ℕ };

    ghost ID1: { ℕ };

    const D: u32;

    const S: u32;

    const K: u32;

    const N: u32;

    const ID0: u8;

    const ID1: u8;
}

// The geometry made of a part's fixed numbers, of the first stepping.
fn geometry_of<C: NamedPart>() -> Geometry
    ensures { result ≡ first_of C.D C.S C.K C.N C.ID0 C.ID1 }
{
    Geometry {
        main: C::D,
        spare: C::S,
        pages: C::K,
        blocks: C::N,
        id0: C::ID0,
        id1: C::ID1,
        stepping: Stepping::First,
    }
}

// The part of the datasheet.
#[derive(Clone, Copy, Debug, PartialEq, Eq)]
pub struct Fm25s005bi3 {}

impl NamedPart for Fm25s005bi3 {
    ghost D = { fm25s005bi3.main };

    ghost S = { fm25s005bi3.spare };

    ghost K = { fm25s005bi3.pages };

    ghost N = { fm25s005bi3.blocks };

    ghost ID0 = { fm25s005bi3.id0 };

    ghost ID1 = { fm25s005bi3.id1 };

    const D: u32 = 2048;

    const S: u32 = 128;

    const K: u32 = 64;

    const N: u32 = 512;

    const ID0: u8 = 0xA1;

    const ID1: u8 = 0xD5;
}

impl Fm25s005bi3 {
    // The geometry of this part.
    pub fn geometry() -> Geometry
        ensures { result ≡ fm25s005bi3 }
    {
        geometry_of::<Fm25s005bi3>()
    }
}

// The small part of the replay program.
#[derive(Clone, Copy, Debug, PartialEq, Eq)]
pub struct Bench {}

impl NamedPart for Bench {
    ghost D = { bench.main };

    ghost S = { bench.spare };

    ghost K = { bench.pages };

    ghost N = { bench.blocks };

    ghost ID0 = { bench.id0 };

    ghost ID1 = { bench.id1 };

    const D: u32 = 16;

    const S: u32 = 4;

    const K: u32 = 4;

    const N: u32 = 8;

    const ID0: u8 = 0x5A;

    const ID1: u8 = 0x01;
}

impl Bench {
    // The geometry of this part.
    pub fn geometry() -> Geometry
        ensures { result ≡ bench }
    {
        geometry_of::<Bench>()
    }
}

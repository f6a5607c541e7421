// The ECC of a page: its sectors, their marked bits, what is mended and what ECCS says. Document 02, item 3.
#![tactic(auto)]

ghost use Rattle.std.specs.Prelude.{◌≡◌, ◌≤◌, ◌<◌, length, get_or};
ghost use Rattle.part.specs.Part.{page, Sound};
ghost use Rattle.ecc.specs.Ecc.{sectored, sectors, sector_at, marked, worst, eccs, sector_turned, mended_sector, mended};

use part::Geometry;

// Whether a page has sectors of 512 data bytes and 16 spare ones.
fn sectored(g: Geometry) -> bool
    ensures { result ≡ sectored g }
{
    g.main % 512 == 0 && g.spare == g.main / 16
}

// How many sectors a page has.
fn sectors(g: Geometry) -> usize
    ensures { result ≡ sectors g }
{
    if sectored(g) {
        g.main as usize / 512
    } else {
        1
    }
}

// A sector's two stretches of a page: its data bytes from `main` up to `past`, its spare ones from `spare` up to `end`.
#[derive(Clone, Copy, Debug, PartialEq, Eq)]
struct Sector {
    main: usize,
    past: usize,
    spare: usize,
    end: usize,
}

// Sector j of a page.
fn sector_at(g: Geometry, j: usize) -> Sector
    requires { (Sound g) × (j < sectors g) }
    ensures { result ≡ sector_at g j }
{
    if sectored(g) {
        let main = 512 * j;
        let spare = g.main as usize + 32 * j;
        return Sector {
            main,
            past: main + 512,
            spare,
            end: spare + 16,
        };
    }
    let page = g.page();
    Sector {
        main: 0,
        past: page,
        spare: page,
        end: page,
    }
}

// The marked bits of sector j.
fn marked(g: Geometry, j: usize, marks: &[u8]) -> u32
    requires { (Sound g) × (j < sectors g) × (length marks.now ≡ page g) }
    ensures { result ≡ marked g (λ c. get_or marks.now c 0) j }
{
    let s = sector_at(g, j);
    let main = stretches::ones_in(marks, s.main, s.past);
    let spare = stretches::ones_in(marks, s.spare, s.end);
    main + spare
}

// The marked bits of sector j turned back.
fn turn_sector(g: Geometry, j: usize, marks: &[u8], cache: &mut [u8])
    requires { (Sound g) × (j < sectors g) × (length marks.now ≡ page g) × (length cache.old ≡ page g) }
    ensures { cache.new ≡ sector_turned g (λ c. get_or marks.now c 0) j cache.old }
{
    let s = sector_at(g, j);
    stretches::turn_back(marks, cache, s.main, s.past);
    stretches::turn_back(marks, cache, s.spare, s.end);
}

// Sector j mended if it has at most 8 marked bits; how many it has.
fn mend_sector(g: Geometry, j: usize, marks: &[u8], cache: &mut [u8]) -> u32
    requires { (Sound g) × (j < sectors g) × (length marks.now ≡ page g) × (length cache.old ≡ page g) }
    ensures { (result ≡ marked g (λ c. get_or marks.now c 0) j) × (cache.new ≡ mended_sector g (λ c. get_or marks.now c 0) j cache.old) }
{
    let n = marked(g, j, marks);
    if n <= 8 {
        turn_sector(g, j, marks, cache);
    }
    n
}

// ECCS for so many marked bits in the worst sector.
#[tactic(auto, unfolding(crate::specs::Ecc::eccs))]
fn eccs(n: u32) -> u8
    ensures { result ≡ eccs n }
{
    match n {
        0 => 0,
        1..=3 => 1,
        4..=6 => 3,
        7..=8 => 5,
        _ => 2,
    }
}

// The sectors one after another: each that has at most 8 marked bits is mended. What ECCS then says.
fn mend_all(g: Geometry, marks: &[u8], cache: &mut [u8]) -> u8
    requires { (Sound g) × (length marks.now ≡ page g) × (length cache.old ≡ page g) }
    ensures { (result ≡ eccs (worst g (λ c. get_or marks.now c 0))) × (cache.new ≡ mended g (λ c. get_or marks.now c 0) cache.old) }
{
    let count = sectors(g);
    let mut most = 0;
    for j in 0..count {
        most = most.max(mend_sector(g, j, marks, cache));
    }
    eccs(most)
}

// A page mended, and what ECCS then says. Where no bit is marked there is nothing to do.
pub fn mend(g: Geometry, marks: &[u8], cache: &mut [u8]) -> u8
    requires { (Sound g) × (length marks.now ≡ page g) × (length cache.old ≡ page g) }
    ensures { (result ≡ eccs (worst g (λ c. get_or marks.now c 0))) × (cache.new ≡ mended g (λ c. get_or marks.now c 0) cache.old) }
{
    if stretches::all_zero(marks) {
        0
    } else {
        mend_all(g, marks, cache)
    }
}

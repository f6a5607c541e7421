// Stretches of bytes: the units of a read, a program and an erase on them, one loop each, and marked bits counted and turned back.
// Each loop stands by itself, and none is handed a closure or is `copy_from_slice`: its contract says in bytes what each unit does, and the
// must-fail edits turn single units (`unit_repeated`, `read_other_byte`).
#![tactic(auto)]

ghost use Rattle.std.specs.Prelude.{◌≡◌, ◌-◌, ◌*◌, ◌≤◌, ◌<◌, eqb, length, get_or, set};
ghost use Rattle.std.specs.Int.Bits.{bit_and, bit_xor};
ghost use Rattle.stretches.specs.Steps.{steps, ones_from, sum_from};

// Units `from` up to `to` of a read of a page: each cache byte takes its cell.
pub fn read_units(page: &[u8], cache: &mut [u8], from: usize, to: usize)
    requires { (from ≤ to) × (to ≤ length page.now) × (to ≤ length cache.old) }
    ensures { cache.new ≡ steps (λ i l. set l i (get_or page.now i 0)) from (to - from) cache.old }
{
    for i in from..to {
        cache[i] = page[i];
    }
}

// The same of a page that has marks: each cache byte takes its cell XOR its mark.
pub fn flipped_units(page: &[u8], marks: &[u8], cache: &mut [u8], from: usize, to: usize)
    requires { (from ≤ to) × (to ≤ length page.now) × (to ≤ length marks.now) × (to ≤ length cache.old) }
    ensures { cache.new ≡ steps (λ i l. set l i (bit_xor (get_or page.now i 0) (get_or marks.now i 0))) from (to - from) cache.old }
{
    for i in from..to {
        cache[i] = page[i] ^ marks[i];
    }
}

// The marked bits of the bytes `from` up to `to` turned back.
pub fn turn_back(marks: &[u8], cache: &mut [u8], from: usize, to: usize)
    requires { (from ≤ to) × (to ≤ length marks.now) × (to ≤ length cache.old) }
    ensures { cache.new ≡ steps (λ i l. set l i (bit_xor (get_or l i 0) (get_or marks.now i 0))) from (to - from) cache.old }
{
    for i in from..to {
        cache[i] ^= marks[i];
    }
}

// Unit i of a program: one byte of the page becomes itself AND the cache byte. (The page's own stretch of the cells is lent on to this
// leaf, as document 01 has it.)
fn program_unit(page: &mut [u8], cache: &[u8], i: usize)
    requires { (i < length page.old) × (i < length cache.now) }
    ensures { page.new ≡ set page.old i (bit_and (get_or page.old i 0) (get_or cache.now i 0)) }
{
    page[i] &= cache[i];
}

// Units `from` up to `to` of a program of a page.
pub fn program_units(page: &mut [u8], cache: &[u8], from: usize, to: usize)
    requires { (from ≤ to) × (to ≤ length page.old) × (to ≤ length cache.now) }
    ensures { page.new ≡ steps (λ i l. set l i (bit_and (get_or l i 0) (get_or cache.now i 0))) from (to - from) page.old }
{
    for i in from..to {
        program_unit(page, cache, i);
    }
}

// Units `from` up to `to` of an erase of a block; and of a read of a row outside the array, on the cache.
pub fn erase_units(block: &mut [u8], from: usize, to: usize)
    requires { (from ≤ to) × (to ≤ length block.old) }
    ensures { block.new ≡ steps (λ i l. set l i 0xFF) from (to - from) block.old }
{
    block[from..to].fill(0xFF);
}

// How many bits are set in the bytes `from` up to `to`.
pub fn ones_in(bytes: &[u8], from: usize, to: usize) -> u32
    requires { (from ≤ to) × (to ≤ length bytes.now) × (to ≤ 4096) }
    ensures { (result ≡ ones_from (λ i. get_or bytes.now i 0) from (to - from)) × (result ≤ 8 * to) }
{
    let mut sum = 0;
    for i in from..to {
        sum += bytes[i].count_ones();
    }
    sum
}

// Whether each byte is 0. (`all` leaves at the first byte that is not, and so goes byte by byte; this takes many at a time.)
pub fn all_zero(bytes: &[u8]) -> bool
    ensures { result ≡ eqb (sum_from (λ i. get_or bytes.now i 0) 0 (length bytes.now)) 0 }
{
    let mut seen = 0;
    for b in bytes {
        seen |= *b;
    }
    seen == 0
}

// Columns of a page: the next one, that of an address, and the byte of the cache register at one. Document 01, "Instructions".
#![tactic(auto)]

ghost use Rattle.std.specs.Prelude.{◌≡◌, set};
ghost use Rattle.columns.specs.Columns.{next, next_read, column_of, cache_byte};

use part::Column;

// The next column, which stays at 4,096.
pub fn next_column(c: Column) -> Column
    ensures { result ≡ next c }
{
    if c.0 < 4096 {
        Column(c.0 + 1)
    } else {
        Column(4096)
    }
}

// The next column of a read, on a page of so many bytes: the first follows the last, and one past the page stays past it.
pub fn next_read(page: usize, c: Column) -> Column
    ensures { result ≡ next_read page c }
{
    if usize::from(c.0) + 1 == page {
        return Column(0);
    }
    next_column(c)
}

// The cache byte at a column, FFh past the page's end.
pub fn byte_at(cache: &[u8], c: Column) -> u8
    ensures { result ≡ cache_byte cache.now c }
{
    cache.get(usize::from(c.0)).copied().unwrap_or(0xFF)
}

// A byte stored at a column of the cache register; one past the page's end is dropped.
pub fn store_at(cache: &mut [u8], c: Column, b: u8)
    ensures { cache.new ≡ set cache.old c.0 b }
{
    let at = usize::from(c.0);
    if at < cache.len() {
        cache[at] = b;
    }
}

// A column address, the top four bits of its high byte ignored.
pub fn column_of(high: u8, low: u8) -> Column
    ensures { result ≡ column_of high low }
{
    Column(u16::from(high % 16) * 256 + u16::from(low))
}

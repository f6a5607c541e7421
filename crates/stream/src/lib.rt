// A stream of shifts: once the fifth byte of a transfer has come, only the next column moves on, and data is read or loaded. Document 01,
// "Instructions".
// A kind in the log is compared with 2, a shift's, as it stands: asking the decoder for each record is what these loops spare. What they ask
// for is said of the lent log and output, and is no type.
#![tactic(auto)]

ghost use Rattle.std.specs.Prelude.{true, ◌≡◌, ◌/◌, ◌≤◌, ◌<◌, min, length};
ghost use Rattle.columns.specs.Columns.{next_read};
ghost use Rattle.transfer.specs.Transfer.{is};
ghost use Rattle.device.specs.Machine.{Machine, on_cache};
ghost use Rattle.stream.specs.Streams.{Past, InPage, in_page, loading, streams, at_column, Shifted, Follows, Streamed};

use codes::Instruction;
use device::State;
use part::{Column, Geometry};
use transfer::{Bus, Transfer};

// What a stream of shifts came to: the state, and how many there were.
#[derive(Clone, Copy)]
pub struct Stream {
    pub state: State,
    pub count: usize,
}

// Whether a bus is in a stream: the fifth byte of its transfer has come, and it reads or loads the cache register.
pub fn streams(x: Bus) -> bool
    ensures { result ≡ streams x }
{
    x.heard()
        && x.transfer.count == 5
        && matches!(
            x.transfer.instruction,
            Instruction::ReadCache | Instruction::Load | Instruction::LoadRandom
        )
}

// The most shifts that the bytes left of the log and the room left for output allow.
fn most(bytes: usize, room: usize) -> usize
    ensures { result ≡ min (bytes / 2) room }
{
    (bytes / 2).min(room)
}

// The state with another next column.
pub fn at_column(c: Column, s: State) -> State
    ensures { result ≡ at_column c s }
{
    let x = s.bus;
    let t = x.transfer;
    State {
        bus: Bus {
            transfer: Transfer { column: c, ..t },
            ..x
        },
        ..s
    }
}

// Whether a column is in the page, the cache register as long as the page, and the page no longer than a sound part's.
fn in_page(g: Geometry, cache: &[u8], c: Column) -> bool
    ensures { result ≡ in_page g cache.now c }
{
    let p = g.page();
    cache.len() == p && p <= 4096 && usize::from(c.0) < p
}

// The next column of a read in the page.
fn next_in_page(page: usize, c: Column) -> Column
    requires { (c.0 < page) × (page ≤ 4096) }
    ensures { result ≡ next_read page c }
{
    if usize::from(c.0) + 1 == page {
        return Column(0);
    }
    Column(c.0 + 1)
}

// The shifts of a cache read in the page, from a place on: they go round it.
fn reads_round(
    g: Geometry,
    s: State,
    log: &[u8],
    at: usize,
    cache: &[u8],
    out: &mut [u8],
    written: usize,
) -> Stream
    requires { (Past s.bus) × (is s.bus.transfer 0x03 ≡ true) × (at ≤ length log.now) × (written ≤ length out.old) × (InPage g cache.now s.bus.transfer.column) }
    ensures { (((m : Machine) → Shifted g log.now at written (on_cache s cache.now m) out.old result.count (on_cache result.state cache.now m) out.new)) × (Follows log.now at written out.old result.count → ⊥) }
{
    let n = most(log.len() - at, out.len() - written);
    let mut c = s.bus.transfer.column;
    for k in 0..n {
        if log[at + 2 * k] != 2 {
            return Stream {
                state: at_column(c, s),
                count: k,
            };
        }
        out[written + k] = cache[usize::from(c.0)];
        c = next_in_page(cache.len(), c);
    }
    Stream {
        state: at_column(c, s),
        count: n,
    }
}

// Kept beside `reads_round`: one loop for both was measured slower by 8 in 100 (docs/BENCHMARK.md).
// The same from any column, with any cache register.
fn reads_on(
    g: Geometry,
    s: State,
    log: &[u8],
    at: usize,
    cache: &[u8],
    out: &mut [u8],
    written: usize,
) -> Stream
    requires { (Past s.bus) × (is s.bus.transfer 0x03 ≡ true) × (at ≤ length log.now) × (written ≤ length out.old) }
    ensures { (((m : Machine) → Shifted g log.now at written (on_cache s cache.now m) out.old result.count (on_cache result.state cache.now m) out.new)) × (Follows log.now at written out.old result.count → ⊥) }
{
    let n = most(log.len() - at, out.len() - written);
    let page = g.page();
    let mut c = s.bus.transfer.column;
    for i in 0..n {
        if log[at + 2 * i] != 2 {
            return Stream {
                state: at_column(c, s),
                count: i,
            };
        }
        out[written + i] = columns::byte_at(cache, c);
        c = columns::next_read(page, c);
    }
    Stream {
        state: at_column(c, s),
        count: n,
    }
}

// The shifts of a cache read, from a place on.
fn reads(
    g: Geometry,
    s: State,
    log: &[u8],
    at: usize,
    cache: &[u8],
    out: &mut [u8],
    written: usize,
) -> Stream
    requires { (Past s.bus) × (is s.bus.transfer 0x03 ≡ true) × (at ≤ length log.now) × (written ≤ length out.old) }
    ensures { (((m : Machine) → Shifted g log.now at written (on_cache s cache.now m) out.old result.count (on_cache result.state cache.now m) out.new)) × (Follows log.now at written out.old result.count → ⊥) }
{
    if in_page(g, cache, s.bus.transfer.column) {
        return reads_round(g, s, log, at, cache, out, written);
    }
    reads_on(g, s, log, at, cache, out, written)
}

// The shifts of a load, from a place on.
fn loads(
    g: Geometry,
    s: State,
    log: &[u8],
    at: usize,
    cache: &mut [u8],
    out: &mut [u8],
    written: usize,
) -> Stream
    requires { (Past s.bus) × (loading s.bus.transfer ≡ true) × (at ≤ length log.now) × (written ≤ length out.old) }
    ensures { (((m : Machine) → Shifted g log.now at written (on_cache s cache.old m) out.old result.count (on_cache result.state cache.new m) out.new)) × (Follows log.now at written out.old result.count → ⊥) }
{
    let n = most(log.len() - at, out.len() - written);
    let mut c = s.bus.transfer.column;
    for i in 0..n {
        let place = at + 2 * i;
        if log[place] != 2 {
            return Stream {
                state: at_column(c, s),
                count: i,
            };
        }
        columns::store_at(cache, c, log[place + 1]);
        out[written + i] = 0xFF;
        c = columns::next_column(c);
    }
    Stream {
        state: at_column(c, s),
        count: n,
    }
}

// The shifts from a place of the log on, their output from a place of the output on: all that follow one another where the bus is in a
// stream, and else none.
pub fn shifts(
    g: Geometry,
    s: State,
    log: &[u8],
    at: usize,
    cache: &mut [u8],
    out: &mut [u8],
    written: usize,
) -> Stream
    ensures { Streamed g s log.now at written cache.old out.old result cache.new out.new }
{
    if !streams(s.bus) || log.len() < at || out.len() < written {
        return Stream { state: s, count: 0 };
    }
    match s.bus.transfer.instruction {
        Instruction::ReadCache => reads(g, s, log, at, &*cache, out, written),
        _ => loads(g, s, log, at, cache, out, written),
    }
}

// Bytes exchanged on the bus, with no log in between: a whole transfer, or a piece of one. Each is the run of its records.
// Document 01, "Logs" and "Instructions".
// Buffers are lent one by one: `walk` says why.
#![tactic(auto)]

ghost use Rattle.std.specs.Prelude.{true, ◌≡◌, ◌≤◌, length};
ghost use Rattle.buslog.specs.Log.{written};
ghost use Rattle.transfer.specs.Transfer.{is};
ghost use Rattle.device.specs.Machine.{machine};
ghost use Rattle.device.specs.Work.{unitwise};
ghost use Rattle.model.specs.Runs.{run_of, seen, shown};
ghost use Rattle.stream.specs.Streams.{Past, loading, streams};
ghost use Rattle.exchange.specs.Exchange.{shifts_of, transfer_of, unlogged, Exchanged};

use buslog::Record;
use codes::Instruction;
use device::State;
use part::Geometry;
use refusals::Refusal;
use walk::{Answer, Walk};

// The bytes of a cache read, all behind the fifth byte of its transfer. (This loop and the next are not those of `stream`, which read their
// bytes out of a log, where each has a kind before it and the first that is no shift ends them.)
fn reads(g: Geometry, s: State, di: &[u8], cache: &[u8], out: &mut [u8]) -> State
    requires { (Past s.bus) × (is s.bus.transfer 0x03 ≡ true) × (length di.now ≤ length out.old) }
    ensures { Exchanged g s cache.now di.now out.old result cache.now out.new }
{
    let page = g.page();
    let mut c = s.bus.transfer.column;
    for i in 0..di.len() {
        out[i] = columns::byte_at(cache, c);
        c = columns::next_read(page, c);
    }
    stream::at_column(c, s)
}

// The bytes of a load, all behind the fifth byte of its transfer.
fn loads(g: Geometry, s: State, di: &[u8], cache: &mut [u8], out: &mut [u8]) -> State
    requires { (Past s.bus) × (loading s.bus.transfer ≡ true) × (length di.now ≤ length out.old) }
    ensures { Exchanged g s cache.old di.now out.old result cache.new out.new }
{
    let mut c = s.bus.transfer.column;
    for (i, b) in di.iter().enumerate() {
        columns::store_at(cache, c, *b);
        out[i] = 0xFF;
        c = columns::next_column(c);
    }
    stream::at_column(c, s)
}

// The bytes of a stream.
fn streamed(g: Geometry, s: State, di: &[u8], cache: &mut [u8], out: &mut [u8]) -> State
    requires { (streams s.bus ≡ true) × (length di.now ≤ length out.old) }
    ensures { Exchanged g s cache.old di.now out.old result cache.new out.new }
{
    match s.bus.transfer.instruction {
        Instruction::ReadCache => reads(g, s, di, &*cache, out),
        _ => loads(g, s, di, cache, out),
    }
}

// Bytes in on DI and out on DO: none is heard while chip select is high; else one after another, and once they are a stream all that are
// left. Only the bus and the cache register change, and the rest of the state stays aside.
fn exchanged(g: Geometry, s: State, di: &[u8], cache: &mut [u8], out: &mut [u8]) -> State
    requires { length di.now ≤ length out.old }
    ensures { Exchanged g s cache.old di.now out.old result cache.new out.new }
{
    let r = s.regs;
    let busy = registers::oip(r.c0);
    let mut x = s.bus;
    for i in 0..di.len() {
        if !x.heard() {
            out[i] = 0xFFu8;
            continue;
        }
        if stream::streams(x) {
            return streamed(g, State { bus: x, ..s }, &di[i..], cache, &mut out[i..]);
        }
        let b = di[i];
        out[i] = reply::byte_out(g, r, x, &*cache);
        x.caches(g, b, cache);
        x = x.shifted_in(g, busy, b);
    }
    State { bus: x, ..s }
}

// A piece of a transfer: bytes in and out, with chip select as it is. The output's room says how many; 9 where it is too little.
pub fn shifts(
    g: Geometry,
    state: State,
    di: &[u8],
    cells: &mut [u8],
    cache: &mut [u8],
    counts: &mut [u8],
    out: &mut [u8],
) -> Answer
    ensures { seen result cells.new cache.new counts.new out.new
        ≡ unlogged (shown (run_of g (unitwise g) (length out.old) (written (shifts_of di.now)) (machine state cells.old cache.old counts.old)) out.old) }
{
    if let Err(r) = refusals::check(g, state, cells.len(), cache.len(), counts.len()) {
        return Walk::start(state).so_far(r);
    }
    let n = di.len().min(out.len());
    let s = exchanged(g, state, &di[0..n], cache, out);
    if n < di.len() {
        return Answer {
            refusal: Refusal::NoRoom,
            state: s,
            records: n,
            used: 0,
            written: n,
        };
    }
    Answer {
        refusal: Refusal::Done,
        state: s,
        records: n,
        used: 0,
        written: n,
    }
}

// A whole transfer: chip select falls, bytes in and out, chip select rises. Where the output's room is too little it stops before the
// first byte that has none, with 9 and the chip selected.
pub fn transfer(
    g: Geometry,
    state: State,
    di: &[u8],
    cells: &mut [u8],
    cache: &mut [u8],
    counts: &mut [u8],
    out: &mut [u8],
) -> Answer
    ensures { seen result cells.new cache.new counts.new out.new
        ≡ unlogged (shown (run_of g (unitwise g) (length out.old) (written (transfer_of di.now)) (machine state cells.old cache.old counts.old)) out.old) }
{
    if let Err(r) = refusals::check(g, state, cells.len(), cache.len(), counts.len()) {
        return Walk::start(state).so_far(r);
    }
    let n = di.len().min(out.len());
    let on = state.select();
    let s = exchanged(g, on, &di[0..n], cache, out);
    if n < di.len() {
        return Answer {
            refusal: Refusal::NoRoom,
            state: s,
            records: n + 1,
            used: 0,
            written: n,
        };
    }
    let t = walk::turn(g, s, Record::Deselect, n, cells, cache, counts, out);
    Answer {
        refusal: Refusal::Done,
        state: t,
        records: n + 2,
        used: 0,
        written: n,
    }
}

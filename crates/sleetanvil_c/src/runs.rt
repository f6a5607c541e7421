// The exports of `sleetanvil`: each calls its function there, under the same clauses.
ghost use Rattle.std.specs.Prelude.{◌≡◌};
ghost use Rattle.buslog.specs.Log.{bytes_of};
ghost use Rattle.buslog.specs.declared.Record.TheVariants.{Select, Shift, Deselect, Level, Power};
ghost use Rattle.exchange.specs.Exchange.{shifts_of, transfer_of};
ghost use Rattle.sleetanvil.specs.Runs.{face_seen, face_ran, quiet, quiet_of, exchanged_of, worked_of, face_judged, judged_of};

use face::{CAnswer, CJudged, CState};
use part_numbers::CGeometry;

// A log run.
#[unsafe(no_mangle)]
pub extern "C" fn sleet_run(
    part: CGeometry,
    state: CState,
    log: &[u8],
    cells: &mut [u8],
    cache: &mut [u8],
    counts: &mut [u8],
    out: &mut [u8],
) -> CAnswer
    ensures { face_seen result cells.new cache.new counts.new out.new
        ≡ face_ran part state log.now cells.old cache.old counts.old out.old }
{
    sleetanvil::sleet_run(part, state, log, cells, cache, counts, out)
}

// A log run, and whether the suppositions of demand 3 were met.
#[unsafe(no_mangle)]
pub extern "C" fn sleet_judge(
    part: CGeometry,
    state: CState,
    log: &[u8],
    cells: &mut [u8],
    cache: &mut [u8],
    counts: &mut [u8],
    out: &mut [u8],
) -> CJudged
    ensures { face_judged result cells.new cache.new counts.new out.new
        ≡ judged_of part state log.now cells.old cache.old counts.old out.old }
{
    sleetanvil::sleet_judge(part, state, log, cells, cache, counts, out)
}

// A whole transfer: chip select falls, bytes in and out, chip select rises.
#[unsafe(no_mangle)]
pub extern "C" fn sleet_transfer(
    part: CGeometry,
    state: CState,
    di: &[u8],
    cells: &mut [u8],
    cache: &mut [u8],
    counts: &mut [u8],
    out: &mut [u8],
) -> CAnswer
    ensures { face_seen result cells.new cache.new counts.new out.new
        ≡ exchanged_of part state (transfer_of di.now) cells.old cache.old counts.old out.old }
{
    sleetanvil::sleet_transfer(part, state, di, cells, cache, counts, out)
}

// A piece of a transfer: bytes in and out, chip select as it is.
#[unsafe(no_mangle)]
pub extern "C" fn sleet_shifts(
    part: CGeometry,
    state: CState,
    di: &[u8],
    cells: &mut [u8],
    cache: &mut [u8],
    counts: &mut [u8],
    out: &mut [u8],
) -> CAnswer
    ensures { face_seen result cells.new cache.new counts.new out.new
        ≡ exchanged_of part state (shifts_of di.now) cells.old cache.old counts.old out.old }
{
    sleetanvil::sleet_shifts(part, state, di, cells, cache, counts, out)
}

// Chip select falls.
#[unsafe(no_mangle)]
pub extern "C" fn sleet_select(
    part: CGeometry,
    state: CState,
    cells: &mut [u8],
    cache: &mut [u8],
    counts: &mut [u8],
) -> CAnswer
    ensures { quiet result cells.new cache.new counts.new
        ≡ quiet_of part state (bytes_of Select) cells.old cache.old counts.old }
{
    sleetanvil::sleet_select(part, state, cells, cache, counts)
}

// One byte shifted in, and one out.
#[unsafe(no_mangle)]
pub extern "C" fn sleet_shift(
    part: CGeometry,
    state: CState,
    byte: u8,
    cells: &mut [u8],
    cache: &mut [u8],
    counts: &mut [u8],
    out: &mut [u8],
) -> CAnswer
    ensures { face_seen result cells.new cache.new counts.new out.new
        ≡ face_ran part state (bytes_of (Shift byte)) cells.old cache.old counts.old out.old }
{
    sleetanvil::sleet_shift(part, state, byte, cells, cache, counts, out)
}

// Chip select rises.
#[unsafe(no_mangle)]
pub extern "C" fn sleet_deselect(
    part: CGeometry,
    state: CState,
    cells: &mut [u8],
    cache: &mut [u8],
    counts: &mut [u8],
) -> CAnswer
    ensures { quiet result cells.new cache.new counts.new
        ≡ quiet_of part state (bytes_of Deselect) cells.old cache.old counts.old }
{
    sleetanvil::sleet_deselect(part, state, cells, cache, counts)
}

// Array work of any number of units.
#[unsafe(no_mangle)]
pub extern "C" fn sleet_work(
    part: CGeometry,
    state: CState,
    units: usize,
    cells: &mut [u8],
    cache: &mut [u8],
    counts: &mut [u8],
) -> CAnswer
    ensures { quiet result cells.new cache.new counts.new
        ≡ worked_of part state units cells.old cache.old counts.old }
{
    sleetanvil::sleet_work(part, state, units, cells, cache, counts)
}

// WP# at a level.
#[unsafe(no_mangle)]
pub extern "C" fn sleet_level(
    part: CGeometry,
    state: CState,
    level: u8,
    cells: &mut [u8],
    cache: &mut [u8],
    counts: &mut [u8],
) -> CAnswer
    ensures { quiet result cells.new cache.new counts.new
        ≡ quiet_of part state (bytes_of (Level level)) cells.old cache.old counts.old }
{
    sleetanvil::sleet_level(part, state, level, cells, cache, counts)
}

// Power lost and back.
#[unsafe(no_mangle)]
pub extern "C" fn sleet_power(
    part: CGeometry,
    state: CState,
    cells: &mut [u8],
    cache: &mut [u8],
    counts: &mut [u8],
) -> CAnswer
    ensures { quiet result cells.new cache.new counts.new
        ≡ quiet_of part state (bytes_of Power) cells.old cache.old counts.old }
{
    sleetanvil::sleet_power(part, state, cells, cache, counts)
}

// The exports of `beside_face`: each calls its function there, under the same clauses.
ghost use Rattle.std.specs.Prelude.{◌≡◌};
ghost use Rattle.part.specs.Part.{sound_part, fm25s005bi3, bench};
ghost use Rattle.device.specs.Step.{power_up};
ghost use Rattle.part_numbers.specs.Numbers.{part_of, face_part, cells_length, cache_length, counts_length};
ghost use Rattle.face.specs.Face.{state_of, face_of, sound_told};
ghost use Rattle.record_numbers.specs.Records.{found_of, face_put, written_of};
ghost use Rattle.texts.specs.Text.{text_of, face_laid, text_laid};
ghost use Rattle.beside_face.specs.Beside.{version, peeked_of, length_at, left_told, face_blank, blanked_of};

use face::{CPeek, CState};
use part_numbers::CGeometry;
use record_numbers::{CFound, CRecord, CWrote};

// The version of the header that this library goes with.
#[unsafe(no_mangle)]
pub extern "C" fn sleet_version() -> u32
    ensures { result ≡ version }
{
    beside_face::sleet_version()
}

// The part of the datasheet.
#[unsafe(no_mangle)]
pub extern "C" fn sleet_fm25s005bi3() -> CGeometry
    ensures { result ≡ face_part fm25s005bi3 }
{
    beside_face::sleet_fm25s005bi3()
}

// The bench part.
#[unsafe(no_mangle)]
pub extern "C" fn sleet_bench() -> CGeometry
    ensures { result ≡ face_part bench }
{
    beside_face::sleet_bench()
}

// Whether a geometry is sound.
#[unsafe(no_mangle)]
pub extern "C" fn sleet_geometry_sound(part: CGeometry) -> bool
    ensures { result ≡ sound_part (part_of part) }
{
    beside_face::sleet_geometry_sound(part)
}

// The length that cells must have.
#[unsafe(no_mangle)]
pub extern "C" fn sleet_cells_length(part: CGeometry) -> usize
    ensures { result ≡ cells_length (part_of part) }
{
    beside_face::sleet_cells_length(part)
}

// The length that the cache register must have.
#[unsafe(no_mangle)]
pub extern "C" fn sleet_cache_length(part: CGeometry) -> usize
    ensures { result ≡ cache_length (part_of part) }
{
    beside_face::sleet_cache_length(part)
}

// The length that page counts must have.
#[unsafe(no_mangle)]
pub extern "C" fn sleet_counts_length(part: CGeometry) -> usize
    ensures { result ≡ counts_length (part_of part) }
{
    beside_face::sleet_counts_length(part)
}

// The power-up state.
#[unsafe(no_mangle)]
pub extern "C" fn sleet_power_up() -> CState
    ensures { result ≡ face_of power_up }
{
    beside_face::sleet_power_up()
}

// Whether a state is sound on a part.
#[unsafe(no_mangle)]
pub extern "C" fn sleet_state_sound(part: CGeometry, state: CState) -> bool
    ensures { result ≡ sound_told (part_of part) (state_of state) }
{
    beside_face::sleet_state_sound(part, state)
}

// How many units an operation has on a part.
#[unsafe(no_mangle)]
pub extern "C" fn sleet_operation_length(part: CGeometry, job: u8) -> usize
    ensures { result ≡ length_at (part_of part) job }
{
    beside_face::sleet_operation_length(part, job)
}

// How many units the operation in progress has left.
#[unsafe(no_mangle)]
pub extern "C" fn sleet_units_left(part: CGeometry, state: CState) -> usize
    ensures { result ≡ left_told (part_of part) (state_of state) }
{
    beside_face::sleet_units_left(part, state)
}

// The byte that the next shift will put out.
#[unsafe(no_mangle)]
pub extern "C" fn sleet_peek(part: CGeometry, state: CState, cache: &[u8]) -> CPeek
    ensures { result ≡ peeked_of part state cache.now }
{
    beside_face::sleet_peek(part, state, cache)
}

// The memory of a device that was never used.
#[unsafe(no_mangle)]
pub extern "C" fn sleet_blank(
    part: CGeometry,
    cells: &mut [u8],
    cache: &mut [u8],
    counts: &mut [u8],
) -> u8
    ensures { face_blank result cells.new cache.new counts.new
        ≡ blanked_of part cells.old cache.old counts.old }
{
    beside_face::sleet_blank(part, cells, cache, counts)
}

// The record at a place of a log.
#[unsafe(no_mangle)]
pub extern "C" fn sleet_next(log: &[u8], place: usize) -> CFound
    ensures { result ≡ found_of log.now place }
{
    beside_face::sleet_next(log, place)
}

// One record written at a place of a log.
#[unsafe(no_mangle)]
pub extern "C" fn sleet_write(entry: CRecord, log: &mut [u8], place: usize) -> CWrote
    ensures { face_put result log.new ≡ written_of entry log.old place }
{
    beside_face::sleet_write(entry, log, place)
}

// What a number of refusal means.
#[unsafe(no_mangle)]
pub extern "C" fn sleet_text(refusal: u8, out: &mut [u8]) -> usize
    ensures { face_laid result out.new ≡ text_laid (text_of refusal) out.old }
{
    beside_face::sleet_text(refusal, out)
}

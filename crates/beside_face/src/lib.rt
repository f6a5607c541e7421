// The C functions beside a run: parts, lengths, soundness, the units of an operation, the next byte, blank memory, records and texts. Plain
// numbers outside; every content is answered.
#![tactic(auto)]

ghost use Rattle.std.specs.Prelude.{◌≡◌};
ghost use Rattle.part.specs.Part.{sound_part, fm25s005bi3, bench};
ghost use Rattle.device.specs.Step.{power_up};
ghost use Rattle.part_numbers.specs.Numbers.{part_of, face_part, cells_length, cache_length, counts_length};
ghost use Rattle.face.specs.Face.{state_of, face_of, sound_told};
ghost use Rattle.record_numbers.specs.Records.{found_of, face_put, written_of};
ghost use Rattle.texts.specs.Text.{text_of, face_laid, text_laid};
ghost use Rattle.beside_face.specs.Beside.{version, peeked_of, face_peek, length_at, left_told, face_blank, blanked_of};

use array::Job;
use device::State;
use face::{CPeek, CState};
use part::{Bench, Fm25s005bi3, Row};
use part_numbers::CGeometry;
use record_numbers::{CFound, CRecord, CWrote};
use refusals::Refusal;

// The version of the header that this library goes with.
pub fn sleet_version() -> u32
    ensures { result ≡ version }
{
    3
}

// The part of the datasheet.
pub fn sleet_fm25s005bi3() -> CGeometry
    ensures { result ≡ face_part fm25s005bi3 }
{
    part_numbers::face_part(Fm25s005bi3::geometry())
}

// The bench part.
pub fn sleet_bench() -> CGeometry
    ensures { result ≡ face_part bench }
{
    part_numbers::face_part(Bench::geometry())
}

// Whether a geometry is sound.
pub fn sleet_geometry_sound(part: CGeometry) -> bool
    ensures { result ≡ sound_part (part_of part) }
{
    part_numbers::part_of(part).sound()
}

// The length that cells must have.
pub fn sleet_cells_length(part: CGeometry) -> usize
    ensures { result ≡ cells_length (part_of part) }
{
    part_numbers::cells_length(part)
}

// The length that the cache register must have.
pub fn sleet_cache_length(part: CGeometry) -> usize
    ensures { result ≡ cache_length (part_of part) }
{
    part_numbers::cache_length(part)
}

// The length that page counts must have.
pub fn sleet_counts_length(part: CGeometry) -> usize
    ensures { result ≡ counts_length (part_of part) }
{
    part_numbers::counts_length(part)
}

// The power-up state.
pub fn sleet_power_up() -> CState
    ensures { result ≡ face_of power_up }
{
    face::face_of(State::power_up())
}

// Whether a state is sound on a part.
pub fn sleet_state_sound(part: CGeometry, state: CState) -> bool
    ensures { result ≡ sound_told (part_of part) (state_of state) }
{
    face::state_sound(part, state)
}

// How many units an operation has on a part.
pub fn sleet_operation_length(part: CGeometry, job: u8) -> usize
    ensures { result ≡ length_at (part_of part) job }
{
    let g = part_numbers::part_of(part);
    match job {
        1 => beside::operation_length(g, Job::Read(Row(0))),
        2 => beside::operation_length(g, Job::Program(Row(0))),
        3 => beside::operation_length(g, Job::Erase(Row(0))),
        4 => beside::operation_length(g, Job::Restart),
        _ => 0,
    }
}

// How many units the operation in progress has left.
pub fn sleet_units_left(part: CGeometry, state: CState) -> usize
    ensures { result ≡ left_told (part_of part) (state_of state) }
{
    let g = part_numbers::part_of(part);
    match face::state_of(state) {
        Some(s) => beside::units_left(g, s),
        None => 0,
    }
}

// The next byte in numbers; FFh where it is refused.
fn peek_of(p: Result<u8, Refusal>) -> CPeek
    ensures { result ≡ face_peek p }
{
    match p {
        Ok(byte) => CPeek { refusal: 0, byte },
        Err(r) => CPeek {
            refusal: refusals::number_of(r),
            byte: 0xFF,
        },
    }
}

// The byte that the next shift will put out.
pub fn sleet_peek(part: CGeometry, state: CState, cache: &[u8]) -> CPeek
    ensures { result ≡ peeked_of part state cache.now }
{
    let x = face::state_of(state);
    let g = part_numbers::part_of(part);
    peek_of(beside::peek(g, face::stand_in(x), cache))
}

// The memory of a device that was never used.
pub fn sleet_blank(part: CGeometry, cells: &mut [u8], cache: &mut [u8], counts: &mut [u8]) -> u8
    ensures { face_blank result cells.new cache.new counts.new
        ≡ blanked_of part cells.old cache.old counts.old }
{
    let g = part_numbers::part_of(part);
    match beside::blank(g, cells, cache, counts) {
        Ok(()) => 0,
        Err(r) => refusals::number_of(r),
    }
}

// The record at a place of a log.
pub fn sleet_next(log: &[u8], place: usize) -> CFound
    ensures { result ≡ found_of log.now place }
{
    record_numbers::found_at(log, place)
}

// One record written at a place of a log.
pub fn sleet_write(entry: CRecord, log: &mut [u8], place: usize) -> CWrote
    ensures { face_put result log.new ≡ written_of entry log.old place }
{
    record_numbers::write_entry(entry, log, place)
}

// What a number of refusal means.
pub fn sleet_text(refusal: u8, out: &mut [u8]) -> usize
    ensures { face_laid result out.new ≡ text_laid (text_of refusal) out.old }
{
    texts::lay_text(refusal, out)
}

// The parts of a sound state, each over what it speaks of. Document 01, "Numbers of refusal".
#![tactic(auto)]

ghost use Rattle.std.specs.Prelude.{◌≡◌, ltb};
ghost use Rattle.array.specs.Jobs.{length_of};
ghost use Rattle.soundness.specs.Soundness.{registers_sound, transfer_sound, work_sound, in_array, calm};

use array::{Job, Work};
use codes::Instruction;
use part::Geometry;
use registers::Registers;
use transfer::Transfer;

// Whether the registers' bits are within their masks, and bits 7 to 4 of C0h are 0.
pub fn registers_sound(g: Geometry, regs: Registers) -> bool
    ensures { result ≡ registers_sound g regs }
{
    regs.a0 & registers::a0_mask(g) == regs.a0
        && regs.b0 & 0x11 == regs.b0
        && regs.d0 & 0x60 == regs.d0
        && regs.c0 / 16 == 0
}

// Whether a transfer's count is at most 5, and its next column at most 4,096.
pub fn transfer_sound(t: Transfer) -> bool
    ensures { result ≡ transfer_sound t }
{
    t.count <= 5 && t.column.0 <= 4096
}

// Whether OIP is 1 exactly when an operation is in progress, and that is sound.
pub fn work_sound(g: Geometry, c: u8, w: Work) -> bool
    ensures { result ≡ work_sound g c w }
{
    match w {
        Work::Idle => !registers::oip(c),
        Work::Busy(job, done) => registers::oip(c) && unit_left(g, job, done) && in_array(g, job),
    }
}

// Whether an operation has a unit left. The length of an erase is not multiplied out, since that of an unsound part may not fit.
fn unit_left(g: Geometry, job: Job, done: usize) -> bool
    ensures { result ≡ ltb done (length_of g job) }
{
    let p = g.page();
    match job {
        Job::Read(_) => done < p,
        Job::Program(_) => done < p,
        Job::Erase(_) => p != 0 && done / p < g.pages as usize,
        Job::Restart => done < array::RESTART_UNITS,
    }
}

// Whether an operation's row is in the array, where it has to be.
fn in_array(g: Geometry, job: Job) -> bool
    ensures { result ≡ in_array g job }
{
    match job {
        Job::Read(_) => true,
        Job::Program(row) => usize::from(row.0) < g.rows(),
        Job::Erase(row) => usize::from(row.0) < g.rows(),
        Job::Restart => true,
    }
}

// Whether the transfer is one that a busy array lets be.
pub fn calm(c: u8, t: Transfer) -> bool
    ensures { result ≡ calm c t }
{
    !registers::oip(c)
        || !t.selected
        || t.count == 0
        || matches!(
            t.instruction,
            Instruction::GetFeature
                | Instruction::ReadId
                | Instruction::Reset
                | Instruction::Ignored
        )
}

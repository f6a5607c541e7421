// The suppositions of demand 3 as tests: whether a log may start in a state, whether a record may come in it, whether the array is idle.
#![tactic(auto)]

ghost use Rattle.std.specs.Prelude.{◌&&◌, ◌||◌, ◌≡◌};
ghost use Rattle.whole.specs.Orderly.{idle, first, unknown, resetting, allowed, first_read, up_registers, up_transfer, power_up?, starts};

use array::{Job, Work};
use buslog::Record;
use codes::Instruction;
use device::State;
use part::Row;
use registers::Registers;
use transfer::{Bus, Transfer};

// Whether the array is idle.
pub fn idle(s: State) -> bool
    ensures { result ≡ idle s }
{
    matches!(s.work, Work::Idle)
}

// Whether a byte heard now is an instruction's first.
fn first(x: Bus) -> bool
    ensures { result ≡ first x }
{
    x.heard() && x.transfer.count == 0
}

// Whether no instruction has this byte.
fn unknown(b: u8) -> bool
    ensures { result ≡ unknown b }
{
    codes::instruction_of(b) == Instruction::Ignored
}

// Whether chip select, rising now, lets a reset take effect.
fn resetting(t: Transfer) -> bool
    ensures { result ≡ resetting t }
{
    t.selected && t.instruction == Instruction::Reset && t.full()
}

// Whether demand 3 lets a record come in this state.
pub fn allowed(s: State, e: Record) -> bool
    ensures { result ≡ allowed s e }
{
    let rests = idle(s);
    match e {
        Record::Shift(b) => rests || !first(s.bus) || codes::let_in(b) || unknown(b),
        Record::Deselect => rests || !resetting(s.bus.transfer),
        Record::Power => rests,
        Record::Select | Record::Units(_) | Record::Level(_) => true,
    }
}

// Whether the read of row 0 has just begun.
fn first_read(w: Work) -> bool
    ensures { result ≡ first_read w }
{
    matches!(w, Work::Busy(Job::Read(Row(0)), 0))
}

// Whether the registers have their power-up values.
fn up_registers(r: Registers) -> bool
    ensures { result ≡ up_registers r }
{
    r == Registers {
        a0: 0x38,
        b0: 0x10,
        c0: 0x01,
        d0: 0x40,
    }
}

// Whether the transfer is as power-up leaves it.
fn up_transfer(t: Transfer) -> bool
    ensures { result ≡ up_transfer t }
{
    t == Transfer::fresh(false)
}

// Whether the state is the power-up state, WP# at either level.
fn at_power_up(s: State) -> bool
    ensures { result ≡ power_up? s }
{
    up_registers(s.regs) && up_transfer(s.bus.transfer) && first_read(s.work)
}

// Whether a log may start in this state: at power-up, or idle.
pub fn starts(s: State) -> bool
    ensures { result ≡ starts s }
{
    at_power_up(s) || idle(s)
}

// A device state in the numbers of C: the structs of include/sleetanvil.h around it, and what its numbers stand for.
#![tactic(auto)]

ghost use Rattle.std.specs.Prelude.{◌≡◌};
ghost use Rattle.part_numbers.specs.Numbers.{part_of};
ghost use Rattle.face.specs.Face.{instruction_at, work_at, state_as, state_of, faced, faced_job, face_of, sound_told, no_state, stand_in, handed_back};

use array::{Job, Work};
use codes::Instruction;
use device::State;
use part::{Column, Row};
use part_numbers::CGeometry;
use registers::{Pins, Registers};
use transfer::{Bus, Transfer};

// The device state.
#[repr(C)]
#[derive(Clone, Copy)]
pub struct CState {
    pub a0: u8,
    pub b0: u8,
    pub c0: u8,
    pub d0: u8,
    pub wp: u8,
    pub selected: u8,
    pub count: u8,
    pub first: u8,
    pub second: u8,
    pub third: u8,
    pub job: u8,
    pub instruction: u16,
    pub column: u16,
    pub row: u16,
    pub units: usize,
}

// The answer to a run.
#[repr(C)]
#[derive(Clone, Copy)]
pub struct CAnswer {
    pub state: CState,
    pub records: usize,
    pub used: usize,
    pub written: usize,
    pub refusal: u8,
}

// The answer to a run that was judged.
#[repr(C)]
#[derive(Clone, Copy)]
pub struct CJudged {
    pub answer: CAnswer,
    pub orderly: bool,
}

// The byte that the next shift will put out.
#[repr(C)]
#[derive(Clone, Copy)]
pub struct CPeek {
    pub refusal: u8,
    pub byte: u8,
}

// The instruction of a code, if it has one.
fn instruction_at(code: u16) -> Option<Instruction>
    ensures { result ≡ instruction_at code }
{
    match code {
        256 => Some(Instruction::Ignored),
        0x06 => Some(Instruction::WriteEnable),
        0x04 => Some(Instruction::WriteDisable),
        0x0F => Some(Instruction::GetFeature),
        0x1F => Some(Instruction::SetFeature),
        0x9F => Some(Instruction::ReadId),
        0x13 => Some(Instruction::PageRead),
        0x03 => Some(Instruction::ReadCache),
        0x02 => Some(Instruction::Load),
        0x84 => Some(Instruction::LoadRandom),
        0x10 => Some(Instruction::Execute),
        0xD8 => Some(Instruction::BlockErase),
        0xFF => Some(Instruction::Reset),
        _ => None,
    }
}

// The operation of a job, a row and units, if they have one.
fn work_at(job: u8, row: u16, units: usize) -> Option<Work>
    ensures { result ≡ work_at job row units }
{
    match job {
        0 if row == 0 && units == 0 => Some(Work::Idle),
        1 => Some(Work::Busy(Job::Read(Row(row)), units)),
        2 => Some(Work::Busy(Job::Program(Row(row)), units)),
        3 => Some(Work::Busy(Job::Erase(Row(row)), units)),
        4 if row == 0 => Some(Work::Busy(Job::Restart, units)),
        _ => None,
    }
}

// The state of some numbers, with an instruction and an operation.
fn state_as(c: CState, i: Instruction, w: Work) -> State
    ensures { result ≡ state_as c i w }
{
    State {
        regs: Registers {
            a0: c.a0,
            b0: c.b0,
            c0: c.c0,
            d0: c.d0,
        },
        bus: Bus {
            pins: Pins { wp: c.wp == 1 },
            transfer: Transfer {
                selected: c.selected == 1,
                count: c.count,
                instruction: i,
                first: c.first,
                second: c.second,
                third: c.third,
                column: Column(c.column),
            },
        },
        work: w,
    }
}

// The state that numbers stand for, if there is one.
#[tactic(auto, unfolding(crate::specs::Face::state_of))]
pub fn state_of(c: CState) -> Option<State>
    ensures { result ≡ state_of c }
{
    let i = instruction_at(c.instruction)?;
    let w = work_at(c.job, c.row, c.units)?;
    if 1 < c.wp || 1 < c.selected {
        return None;
    }
    Some(state_as(c, i, w))
}

// The numbers of a state whose operation has these.
fn faced(s: State, job: u8, row: u16, units: usize) -> CState
    ensures { result ≡ faced s job row units }
{
    let t = s.bus.transfer;
    CState {
        a0: s.regs.a0,
        b0: s.regs.b0,
        c0: s.regs.c0,
        d0: s.regs.d0,
        wp: u8::from(s.bus.pins.wp),
        selected: u8::from(t.selected),
        count: t.count,
        first: t.first,
        second: t.second,
        third: t.third,
        job,
        instruction: codes::byte_of(t.instruction),
        column: t.column.0,
        row,
        units,
    }
}

// The same of a state with a job.
fn faced_job(s: State, job: Job, units: usize) -> CState
    ensures { result ≡ faced_job s job units }
{
    match job {
        Job::Read(row) => faced(s, 1, row.0, units),
        Job::Program(row) => faced(s, 2, row.0, units),
        Job::Erase(row) => faced(s, 3, row.0, units),
        Job::Restart => faced(s, 4, 0, units),
    }
}

// The numbers of a state.
#[tactic(auto, unfolding(crate::specs::Face::face_of))]
pub fn face_of(s: State) -> CState
    ensures { result ≡ face_of s }
{
    match s.work {
        Work::Idle => faced(s, 0, 0, 0),
        Work::Busy(job, units) => faced_job(s, job, units),
    }
}

// Whether the state that numbers stand for is sound on a part.
pub fn state_sound(part: CGeometry, state: CState) -> bool
    ensures { result ≡ sound_told (part_of part) (state_of state) }
{
    let g = part_numbers::part_of(part);
    match state_of(state) {
        Some(s) => s.sound(g),
        None => false,
    }
}

// A state that is sound on no part, so that every function refuses it in its own way (`NeverSound`).
fn no_state() -> State
    ensures { result ≡ no_state }
{
    State {
        regs: Registers {
            a0: 0,
            b0: 0,
            c0: 0xF0,
            d0: 0,
        },
        bus: Bus {
            pins: Pins { wp: false },
            transfer: Transfer::fresh(false),
        },
        work: Work::Idle,
    }
}

// The state to run: the one that numbers stand for, or else one that is sound on no part.
pub fn stand_in(x: Option<State>) -> State
    ensures { result ≡ stand_in x }
{
    x.unwrap_or(no_state())
}

// The numbers of the state that came back; those that stood for no state come back as they were.
pub fn handed_back(x: Option<State>, c: CState, after: State) -> CState
    ensures { result ≡ handed_back x c after }
{
    match x {
        Some(_) => face_of(after),
        None => c,
    }
}

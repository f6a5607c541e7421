// The device: its state, and what each event of the bus does to it.
// Document 01, "Instructions" and "Work of the array". Each method takes the state whole and hands the next one back.
#![tactic(auto)]

ghost use Rattle.std.specs.Prelude.{◌≡◌, if◌then◌else◌};
ghost use Rattle.array.specs.Jobs.{store};
ghost use Rattle.registers.specs.Registers.{request_cleared};
ghost use Rattle.requests.specs.Requests.{begins?};
ghost use Rattle.transfer.specs.Transfer.{selects, with_pins};
ghost use Rattle.device.specs.Machine.{Machine, on_cache, on_counts, on_store, bus_in, status_in};
ghost use Rattle.device.specs.Work.{begun, ended_state, units, unitwise, worked_state, WorkReady};
ghost use Rattle.device.specs.Instructions.{answer, shifts, programs, erases, reset_state, written_state, effect, acted, deselects};
ghost use Rattle.device.specs.Step.{power_up, powered};
ghost use Rattle.device.specs.Sound.{sound_state};

use array::{Job, Work};
use codes::Instruction;
use part::{Geometry, Row};
use registers::{Pins, Registers};
use requests::Bar;
use transfer::{Bus, Transfer};

// The device state: it goes in whole and comes back whole with each event.
#[derive(Clone, Copy, Debug, PartialEq, Eq)]
pub struct State {
    pub regs: Registers,
    pub bus: Bus,
    pub work: Work,
}

// A byte shifted: the next state, and the byte on DO.
#[derive(Clone, Copy, Debug, PartialEq, Eq)]
pub struct Shifted {
    pub state: State,
    pub out: u8,
}

impl State {
    // The power-up state, WP# high.
    pub fn power_up() -> State
        ensures { result ≡ power_up }
    {
        State {
            regs: Registers {
                c0: 0x01,
                ..Registers::at_power_up()
            },
            bus: Bus {
                pins: Pins { wp: true },
                transfer: Transfer::fresh(false),
            },
            work: Work::Busy(Job::Read(Row(0)), 0),
        }
    }

    // Chip select falls.
    pub fn select(self) -> State
        ensures { result ≡ bus_in (selects self.bus) self }
    {
        State {
            bus: self.bus.selects(),
            ..self
        }
    }

    // The levels of the pins are set.
    pub fn level(self, pins: Pins) -> State
        ensures { result ≡ bus_in (with_pins pins self.bus) self }
    {
        State {
            bus: Bus { pins, ..self.bus },
            ..self
        }
    }

    // One byte shifted in on DI, one out on DO.
    #[tactic(auto, unfolding(crate::specs::Instructions::answer, crate::specs::Instructions::shifts))]
    pub fn shift(self, g: Geometry, b: u8, cache: &mut [u8]) -> Shifted
        ensures { ((m : Machine) → on_cache result.state cache.new m ≡ shifts g b (on_cache self cache.old m)) × (result.out ≡ answer g self cache.old) }
    {
        let out = reply::byte_out(g, self.regs, self.bus, &*cache);
        self.bus.caches(g, b, cache);
        let bus = self.bus.shifted_in(g, registers::oip(self.regs.c0), b);
        Shifted {
            state: State { bus, ..self },
            out,
        }
    }

    // Another status register.
    fn with_status(self, c: u8) -> State
        ensures { result ≡ status_in c self }
    {
        State {
            regs: Registers { c0: c, ..self.regs },
            ..self
        }
    }

    // An operation begins: OIP is 1, and no unit is done.
    fn begins(self, job: Job) -> State
        ensures { result ≡ begun job self }
    {
        State {
            work: Work::Busy(job, 0),
            ..self.with_status(registers::oip_set(self.regs.c0))
        }
    }

    // A request taken up: the operation begins, or the status says that it has failed.
    fn requested(self, fate: Result<(), Bar>, failed: u8, job: Job) -> State
        ensures { result ≡ (if begins? fate then begun job (status_in (request_cleared self.regs.c0) self) else status_in failed self) }
    {
        match fate {
            Ok(()) => self
                .with_status(registers::request_cleared(self.regs.c0))
                .begins(job),
            Err(_) => self.with_status(failed),
        }
    }

    // 10h with its row.
    #[tactic(auto, unfolding(crate::specs::Instructions::programs, crate::specs::Work::unitwise))]
    fn programs(self, g: Geometry, row: Row, counts: &mut [u8]) -> State
        ensures { (m : Machine) → on_counts result counts.new m ≡ programs g (unitwise g) row (on_counts self counts.old m) }
    {
        if !registers::wel(self.regs.c0) {
            return self;
        }
        let fate = requests::ask_program(g, self.regs.a0, row, counts);
        self.requested(
            fate,
            registers::program_failed(self.regs.c0),
            Job::Program(row),
        )
    }

    // D8h with its row.
    #[tactic(auto, unfolding(crate::specs::Instructions::erases, crate::specs::Work::unitwise))]
    fn erases(self, g: Geometry, row: Row, counts: &mut [u8]) -> State
        ensures { (m : Machine) → on_counts result counts.new m ≡ erases g (unitwise g) row (on_counts self counts.old m) }
    {
        if !registers::wel(self.regs.c0) {
            return self;
        }
        let fate = requests::ask_erase(g, self.regs.a0, row, counts);
        self.requested(fate, registers::erase_failed(self.regs.c0), Job::Erase(row))
    }

    // FFh: an operation in progress is stopped after the units done, and the reset's own begins.
    fn resets(self) -> State
        ensures { result ≡ begun Job.Restart (reset_state self) }
    {
        let s = State {
            work: Work::Idle,
            ..self.with_status(registers::reset_status(self.regs.c0))
        };
        s.begins(Job::Restart)
    }

    // What the instruction does, its bytes all there.
    #[tactic(auto, unfolding(crate::specs::Instructions::effect, crate::specs::Instructions::resets, crate::specs::Work::unitwise))]
    fn effect(self, g: Geometry, counts: &mut [u8]) -> State
        ensures { (m : Machine) → on_counts result counts.new m ≡ effect g (unitwise g) self.bus.transfer.instruction (on_counts self counts.old m) }
    {
        let t = self.bus.transfer;
        match t.instruction {
            Instruction::WriteEnable => self.with_status(registers::wel_set(self.regs.c0)),
            Instruction::WriteDisable => self.with_status(registers::wel_cleared(self.regs.c0)),
            Instruction::SetFeature => self.writes(g),
            Instruction::PageRead => self.begins(Job::Read(t.row())),
            Instruction::Execute => self.programs(g, t.row(), counts),
            Instruction::BlockErase => self.erases(g, t.row(), counts),
            Instruction::Reset => self.resets(),
            Instruction::Ignored
            | Instruction::GetFeature
            | Instruction::ReadId
            | Instruction::ReadCache
            | Instruction::Load
            | Instruction::LoadRandom => self,
        }
    }

    // 1Fh with its address and value.
    fn writes(self, g: Geometry) -> State
        ensures { result ≡ written_state g self }
    {
        let t = self.bus.transfer;
        State {
            regs: self.regs.written(g, self.bus.pins, t.first, t.second),
            ..self
        }
    }

    // The instruction acts if exactly its bytes were shifted.
    #[tactic(auto, unfolding(crate::specs::Instructions::acted))]
    fn acts(self, g: Geometry, counts: &mut [u8]) -> State
        ensures { (m : Machine) → on_counts result counts.new m ≡ acted g (unitwise g) (on_counts self counts.old m) }
    {
        if self.bus.transfer.full() {
            return self.effect(g, counts);
        }
        self
    }

    // Chip select rises.
    #[tactic(auto, unfolding(crate::specs::Instructions::deselects))]
    pub fn deselect(self, g: Geometry, counts: &mut [u8]) -> State
        ensures { (m : Machine) → on_counts result counts.new m ≡ deselects g (unitwise g) (on_counts self counts.old m) }
    {
        if !self.bus.transfer.selected {
            return self;
        }
        let s = self.acts(g, counts);
        State {
            bus: s.bus.ends(),
            ..s
        }
    }

    // Power lost and back.
    #[tactic(auto, unfolding(crate::specs::Work::unitwise, crate::specs::Step::off, crate::specs::Step::powered))]
    pub fn power(self, g: Geometry, cache: &mut [u8]) -> State
        ensures { (m : Machine) → on_cache result cache.new m ≡ powered g (unitwise g) (on_cache self cache.old m) }
    {
        cache.fill(0xFF);
        let s = State {
            regs: Registers::at_power_up(),
            bus: self.bus.ends(),
            work: Work::Idle,
        };
        s.begins(Job::Read(Row(0)))
    }

    // The state at an operation's end. (Every operation ends alike today.)
    fn ended(self, job: Job) -> State
        ensures { result ≡ ended_state job self }
    {
        State {
            work: Work::Idle,
            ..self.with_status(registers::oip_cleared(self.regs.c0))
        }
    }

    // The state when the work of an operation has come so far.
    fn worked(self, job: Job, next: Work) -> State
        ensures { result ≡ worked_state job next self }
    {
        match next {
            Work::Idle => self.ended(job),
            Work::Busy(same, done) => State {
                work: Work::Busy(same, done),
                ..self
            },
        }
    }

    // Array work of n units.
    pub fn work(self, g: Geometry, n: usize, cells: &mut [u8], cache: &mut [u8]) -> State
        requires { WorkReady g self.work (store cells.old cache.old) }
        ensures { (m : Machine) → on_store result cells.new cache.new m ≡ units g n (on_store self cells.old cache.old m) }
    {
        match self.work {
            Work::Idle => self,
            Work::Busy(job, done) => {
                let next = array::advance(g, job, done, n, cells, cache);
                self.worked(job, next)
            }
        }
    }

    // Whether the state is sound for a part.
    #[tactic(auto, unfolding(crate::specs::Sound::sound_state))]
    pub fn sound(self, g: Geometry) -> bool
        ensures { result ≡ sound_state g self }
    {
        soundness::registers_sound(g, self.regs)
            && soundness::transfer_sound(self.bus.transfer)
            && soundness::work_sound(g, self.regs.c0, self.work)
            && soundness::calm(self.regs.c0, self.bus.transfer)
    }
}

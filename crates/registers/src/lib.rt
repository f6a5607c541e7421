// The registers A0h, B0h, C0h and D0h: read and written by address, and the bits of the status register. Document 01, "Registers".
#![tactic(auto)]

ghost use Rattle.std.specs.Prelude.{◌≡◌};
ghost use Rattle.registers.specs.Registers.{oip, wel, oip_set, oip_cleared, wel_set, wel_cleared, request_cleared, e_fail_set, p_fail_set, reset_status, a0_mask, at_power_up, register, register_written, locked};

use part::{Geometry, Stepping};

// The four registers.
#[derive(Clone, Copy, Debug, PartialEq, Eq)]
pub struct Registers {
    pub a0: u8,
    pub b0: u8,
    pub c0: u8,
    pub d0: u8,
}

// The levels of the pins.
#[derive(Clone, Copy, Debug, PartialEq, Eq)]
pub struct Pins {
    pub wp: bool,
}

impl Registers {
    // The values at power-up, C0h but for the OIP of the read that then begins.
    pub fn at_power_up() -> Registers
        ensures { result ≡ at_power_up }
    {
        Registers {
            a0: 0x38,
            b0: 0x10,
            c0: 0x00,
            d0: 0x40,
        }
    }

    // The register at an address.
    #[tactic(auto, unfolding(crate::specs::Registers::register))]
    pub fn read(self, at: u8) -> u8
        ensures { result ≡ register self at }
    {
        match at {
            0xA0 => self.a0,
            0xB0 => self.b0,
            0xC0 => self.c0,
            0xD0 => self.d0,
            _ => 0,
        }
    }

    // BRWD is 1 and WP# is low.
    fn locked(self, pins: Pins) -> bool
        ensures { result ≡ locked self pins }
    {
        self.a0 / 128 == 1 && !pins.wp
    }

    // The register at an address written through its mask.
    #[tactic(auto, unfolding(crate::specs::Registers::register_written))]
    pub fn written(self, g: Geometry, pins: Pins, at: u8, value: u8) -> Registers
        ensures { result ≡ register_written g pins at value self }
    {
        match at {
            0xA0 if !self.locked(pins) => Registers {
                a0: value & a0_mask(g),
                ..self
            },
            0xB0 => Registers {
                b0: value & 0x11,
                ..self
            },
            0xD0 => Registers {
                d0: value & 0x60,
                ..self
            },
            _ => self,
        }
    }
}

// The write mask of A0h, by the part's stepping.
pub fn a0_mask(g: Geometry) -> u8
    ensures { result ≡ a0_mask g }
{
    match g.stepping {
        Stepping::First => 0xBC,
        Stepping::Second => 0xBE,
    }
}

// The bits of the status register C0h: a function for each thing that document 01 does to them, as the definitions of specs/ have it.
pub fn oip(c: u8) -> bool
    ensures { result ≡ oip c }
{
    c % 2 == 1
}

pub fn wel(c: u8) -> bool
    ensures { result ≡ wel c }
{
    c / 2 % 2 == 1
}

pub fn oip_set(c: u8) -> u8
    ensures { result ≡ oip_set c }
{
    c / 2 * 2 + 1
}

pub fn oip_cleared(c: u8) -> u8
    ensures { result ≡ oip_cleared c }
{
    c / 2 * 2
}

pub fn wel_set(c: u8) -> u8
    ensures { result ≡ wel_set c }
{
    c / 4 * 4 + 2 + c % 2
}

pub fn wel_cleared(c: u8) -> u8
    ensures { result ≡ wel_cleared c }
{
    c / 4 * 4 + c % 2
}

// A request is taken up: WEL and both fail bits are cleared.
pub fn request_cleared(c: u8) -> u8
    ensures { result ≡ request_cleared c }
{
    c / 16 * 16 + c % 2
}

// A request to erase, and one to program, has failed.
pub fn erase_failed(c: u8) -> u8
    ensures { result ≡ e_fail_set (request_cleared c) }
{
    c / 16 * 16 + c % 2 + 4
}

pub fn program_failed(c: u8) -> u8
    ensures { result ≡ p_fail_set (request_cleared c) }
{
    c / 16 * 16 + c % 2 + 8
}

// What a reset leaves: WEL.
pub fn reset_status(c: u8) -> u8
    ensures { result ≡ reset_status c }
{
    c / 2 % 2 * 2
}

// The byte on DO for a byte shifted on DI. Document 01, "Instructions".
#![tactic(auto)]

ghost use Rattle.std.specs.Prelude.{◌≡◌};
ghost use Rattle.reply.specs.Reply.{byte_out};

use codes::Instruction;
use part::Geometry;
use registers::Registers;
use transfer::Bus;

// The byte on DO for a byte shifted now: FFh wherever no answer is named.
pub fn byte_out(g: Geometry, regs: Registers, bus: Bus, cache: &[u8]) -> u8
    ensures { result ≡ byte_out g regs bus cache.now }
{
    if !bus.body_heard() {
        return 0xFF;
    }
    let t = bus.transfer;
    match t.instruction {
        Instruction::GetFeature if 2 <= t.count => regs.read(t.first),
        Instruction::ReadId if t.count == 2 => g.id0,
        Instruction::ReadId if t.count == 3 => g.id1,
        Instruction::ReadCache if 4 <= t.count => columns::byte_at(cache, t.column),
        _ => 0xFF,
    }
}

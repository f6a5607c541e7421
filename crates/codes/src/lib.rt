// The instructions and their codes: which one a byte begins, what a busy array lets in, and the bytes of those that act as chip select
// rises. Document 01, "Instructions".
#![tactic(auto)]

ghost use Rattle.std.specs.Prelude.{◌≡◌};
ghost use Rattle.codes.specs.Codes.{byte_of, instruction_of, open?, heard_as, form_bytes};

// The instruction of a transfer. `Ignored` stands where there is none to carry out: no byte has come yet, the byte is no instruction, or
// the array was busy as it came. (No Option: None for these three would be no plainer, and document 01 calls them ignored.)
#[derive(Clone, Copy, Debug, PartialEq, Eq)]
pub enum Instruction {
    Ignored,
    WriteEnable,
    WriteDisable,
    GetFeature,
    SetFeature,
    ReadId,
    PageRead,
    ReadCache,
    Load,
    LoadRandom,
    Execute,
    BlockErase,
    Reset,
}

// The instruction of a byte.
#[tactic(auto, unfolding(crate::specs::Codes::instruction_of))]
pub fn instruction_of(b: u8) -> Instruction
    ensures { result ≡ instruction_of b }
{
    match b {
        0x06 => Instruction::WriteEnable,
        0x04 => Instruction::WriteDisable,
        0x0F => Instruction::GetFeature,
        0x1F => Instruction::SetFeature,
        0x9F => Instruction::ReadId,
        0x13 => Instruction::PageRead,
        0x03 | 0x0B => Instruction::ReadCache,
        0x02 => Instruction::Load,
        0x84 => Instruction::LoadRandom,
        0x10 => Instruction::Execute,
        0xD8 => Instruction::BlockErase,
        0xFF => Instruction::Reset,
        _ => Instruction::Ignored,
    }
}

// Stands for the byte of what is ignored: it is no byte. (A number, since the C form of a state holds it as one.)
pub const NO_BYTE: u16 = 256;

// The byte of an instruction.
pub fn byte_of(i: Instruction) -> u16
    ensures { result ≡ byte_of i }
{
    match i {
        Instruction::Ignored => NO_BYTE,
        Instruction::WriteEnable => 0x06,
        Instruction::WriteDisable => 0x04,
        Instruction::GetFeature => 0x0F,
        Instruction::SetFeature => 0x1F,
        Instruction::ReadId => 0x9F,
        Instruction::PageRead => 0x13,
        Instruction::ReadCache => 0x03,
        Instruction::Load => 0x02,
        Instruction::LoadRandom => 0x84,
        Instruction::Execute => 0x10,
        Instruction::BlockErase => 0xD8,
        Instruction::Reset => 0xFF,
    }
}

// The bytes of an instruction that acts as chip select rises; 0 for one that does not, as the definition of specs/ has it.
pub fn form_bytes(i: Instruction) -> u8
    ensures { result ≡ form_bytes i }
{
    match i {
        Instruction::WriteEnable => 1,
        Instruction::WriteDisable => 1,
        Instruction::SetFeature => 3,
        Instruction::PageRead => 4,
        Instruction::Execute => 4,
        Instruction::BlockErase => 4,
        Instruction::Reset => 1,
        Instruction::Ignored => 0,
        Instruction::GetFeature => 0,
        Instruction::ReadId => 0,
        Instruction::ReadCache => 0,
        Instruction::Load => 0,
        Instruction::LoadRandom => 0,
    }
}

// Whether a busy array lets in the instruction of a first byte.
pub fn let_in(b: u8) -> bool
    ensures { result ≡ open? b }
{
    matches!(b, 0x0F | 0x9F | 0xFF)
}

// The instruction that a first byte begins: a busy array lets in three of them.
pub fn heard_as(busy: bool, b: u8) -> Instruction
    ensures { result ≡ heard_as busy b }
{
    if !busy || let_in(b) {
        instruction_of(b)
    } else {
        Instruction::Ignored
    }
}

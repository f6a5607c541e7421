// The card FM4428: what one command answers and changes. Document 02, item 5, and source document 001.
// Buffers are lent one by one: `slot` says why.
#![tactic(auto)]

ghost use Rattle.std.specs.Prelude.{◌&&◌, ◌≡◌, ◌+◌, ◌-◌, ◌*◌, ◌/◌, ◌%◌, ◌^◌, ◌≤◌, ◌<◌, eqb, length, set, if◌then◌else◌};
ghost use Rattle.std.specs.Int.Bits.{bit_and};
ghost use Rattle.buslog.specs.Write.{over};
ghost use Rattle.card.specs.Table.{address_of, command_of};
ghost use Rattle.card.specs.Card.{card, is_open, cell_at, bit_at, shut, clears_one, spends, writable, anew, counted, compared, commanded, told, answer_of, answer_length, sent};

// How far the security code has been given: no step taken, a counter bit newly cleared, the first byte compared right too, passed.
#[derive(Clone, Copy, Debug, PartialEq, Eq)]
pub enum Stage {
    Fresh,
    Counted,
    Half,
    Open,
}

// 001's seven commands, in its order; and what is none of them, which is answered and changes the stage as a command does.
#[derive(Clone, Copy, Debug, PartialEq, Eq)]
pub enum Command {
    WriteWithBit,
    Write,
    Protect,
    ReadWithBit,
    Read,
    Count,
    Compare,
    Ignored,
}

impl Stage {
    // Whether the code has passed.
    fn is_open(self) -> bool
        ensures { result ≡ is_open self }
    {
        self == Stage::Open
    }

    // After any command that is no step: passing holds, and else the code has to be given anew.
    fn anew(self) -> Stage
        ensures { result ≡ anew self }
    {
        match self {
            Stage::Fresh | Stage::Counted | Stage::Half => Stage::Fresh,
            Stage::Open => Stage::Open,
        }
    }

    // After a counter command.
    fn counted(self, cleared: bool) -> Stage
        ensures { result ≡ counted self cleared }
    {
        if self.is_open() {
            Stage::Open
        } else if cleared {
            Stage::Counted
        } else {
            Stage::Fresh
        }
    }

    // After a compare at an address.
    fn compared(self, a: usize, right: bool) -> Stage
        ensures { result ≡ compared self a right }
    {
        match self {
            Stage::Counted if a == 1022 && right => Stage::Half,
            Stage::Half if a == 1023 && right => Stage::Open,
            Stage::Open => Stage::Open,
            _ => Stage::Fresh,
        }
    }
}

// The address of a command.
pub fn address_of(first: u8, second: u8) -> usize
    ensures { result ≡ address_of first second }
{
    usize::from(first / 64) * 256 + usize::from(second)
}

// The command of a control word at an address.
#[tactic(auto, unfolding(crate::specs::Table::command_of))]
fn command_of(word: u8, a: usize) -> Command
    ensures { result ≡ command_of word a }
{
    match word {
        0x31 => Command::WriteWithBit,
        0x33 => Command::Write,
        0x30 => Command::Protect,
        0x0C => Command::ReadWithBit,
        0x0E => Command::Read,
        0x32 if a == 1021 => Command::Count,
        0x0D if a == 1022 || a == 1023 => Command::Compare,
        _ => Command::Ignored,
    }
}

// The command that its first two bytes say.
pub fn sent(first: u8, second: u8) -> Command
    ensures { result ≡ sent first second }
{
    command_of(first % 64, address_of(first, second))
}

// How many bytes a command answers.
pub fn answer_length(k: Command) -> usize
    ensures { result ≡ answer_length k }
{
    match k {
        Command::ReadWithBit => 2,
        Command::WriteWithBit
        | Command::Write
        | Command::Protect
        | Command::Read
        | Command::Count
        | Command::Compare
        | Command::Ignored => 1,
    }
}

// Bit k of a byte.
fn digit(b: u8, k: usize) -> u8
    requires { k < 8 }
    ensures { result ≡ b / 2 ^ k % 2 }
{
    (b >> k) % 2
}

// The protect bit of an address.
fn bit_at(bits: &[u8], a: usize) -> u8
    requires { a / 8 < length bits.now }
    ensures { result ≡ bit_at bits.now a }
{
    digit(bits[a / 8], a % 8)
}

// A byte with bit k made 0.
#[tactic(auto, using(crate::proofs::Digits::cleared))]
fn without(b: u8, k: usize) -> u8
    requires { k < 8 }
    ensures { result ≡ b - b / 2 ^ k % 2 * 2 ^ k }
{
    b & !(1 << k)
}

// The protect bit of an address made 0.
#[tactic(auto, unfolding(crate::specs::Card::shut))]
fn shut(bits: &mut [u8], a: usize)
    requires { a / 8 < length bits.old }
    ensures { bits.new ≡ shut bits.old a }
{
    bits[a / 8] = without(bits[a / 8], a % 8);
}

// Whether a mask clears exactly one bit of the counter.
#[tactic(auto, unfolding(crate::specs::Card::clears_one))]
fn clears_one(old: u8, mask: u8) -> bool
    ensures { result ≡ clears_one old mask }
{
    old.count_ones() == (old & mask).count_ones() + 1
}

// Whether the byte at an address can be written.
fn writable(stage: Stage, bits: &[u8], a: usize) -> bool
    requires { a / 8 < length bits.now }
    ensures { result ≡ writable stage bits.now a }
{
    stage.is_open() && bit_at(bits, a) == 1
}

// A write, and whether it was done.
fn write(stage: Stage, a: usize, d: u8, cells: &mut [u8], bits: &[u8]) -> bool
    requires { (a < length cells.old) × (a / 8 < length bits.now) }
    ensures { (result ≡ writable stage bits.now a)
        × (cells.new ≡ (if writable stage bits.now a then set cells.old a d else cells.old)) }
{
    let done = writable(stage, bits, a);
    if done {
        cells[a] = d;
    }
    done
}

// A write with protect bit.
fn write_with_bit(stage: Stage, a: usize, d: u8, cells: &mut [u8], bits: &mut [u8])
    requires { (a < length cells.old) × (a / 8 < length bits.old) }
    ensures { (cells.new ≡ (if writable stage bits.old a then set cells.old a d else cells.old))
        × (bits.new ≡ (if writable stage bits.old a then shut bits.old a else bits.old)) }
{
    if write(stage, a, d, cells, &*bits) {
        shut(bits, a);
    }
}

// The protect bit made 0 where the byte is as given.
fn protect(stage: Stage, a: usize, d: u8, cells: &[u8], bits: &mut [u8])
    requires { (a < length cells.now) × (a / 8 < length bits.old) }
    ensures { bits.new ≡ (if is_open stage && eqb (cell_at cells.now a) d then shut bits.old a else bits.old) }
{
    if stage.is_open() && cells[a] == d {
        shut(bits, a);
    }
}

// The counter command, and whether it cleared a bit.
fn count(a: usize, mask: u8, cells: &mut [u8], bits: &[u8]) -> bool
    requires { (a < length cells.old) × (a / 8 < length bits.now) }
    ensures { (result ≡ spends cells.old bits.now a mask)
        × (cells.new
        ≡ (if spends cells.old bits.now a mask
        then set cells.old a (bit_and (cell_at cells.old a) mask)
        else cells.old)) }
{
    let cleared = bit_at(bits, a) == 1 && clears_one(cells[a], mask);
    if cleared {
        cells[a] &= mask;
    }
    cleared
}

// One command done, at its address, with its third byte: the stage then.
#[tactic(auto, unfolding(crate::specs::Card::commanded))]
pub fn perform(
    stage: Stage,
    k: Command,
    a: usize,
    d: u8,
    cells: &mut [u8],
    bits: &mut [u8],
) -> Stage
    requires { (a < length cells.old) × (a / 8 < length bits.old) }
    ensures { card result cells.new bits.new ≡ commanded (card stage cells.old bits.old) k a d }
{
    match k {
        Command::WriteWithBit => {
            write_with_bit(stage, a, d, cells, bits);
            stage.anew()
        }
        Command::Write => {
            write(stage, a, d, cells, &*bits);
            stage.anew()
        }
        Command::Protect => {
            protect(stage, a, d, &*cells, bits);
            stage.anew()
        }
        Command::ReadWithBit | Command::Read | Command::Ignored => stage.anew(),
        Command::Count => {
            let cleared = count(a, d, cells, &*bits);
            stage.counted(cleared)
        }
        Command::Compare => stage.compared(a, cells[a] == d),
    }
}

// What a read tells of a cell.
fn told(stage: Stage, cells: &[u8], a: usize) -> u8
    requires { a < length cells.now }
    ensures { result ≡ told stage cells.now a }
{
    if stage.is_open() || a < 1022 {
        cells[a]
    } else {
        0
    }
}

// A command's answer, at a place of the lent output.
#[tactic(auto, using(buslog::proofs::RoundTrip::over_one, crate::proofs::Stored::over_two))]
pub fn answer(
    stage: Stage,
    k: Command,
    a: usize,
    cells: &[u8],
    bits: &[u8],
    out: &mut [u8],
    at: usize,
)
    requires { (a < length cells.now) × (a / 8 < length bits.now) × (at + answer_length k ≤ length out.old) }
    ensures { out.new ≡ over out.old at (answer_of (card stage cells.now bits.now) k a) }
{
    match k {
        Command::ReadWithBit => {
            out[at] = told(stage, cells, a);
            out[at + 1] = bit_at(bits, a);
        }
        Command::Read => {
            out[at] = told(stage, cells, a);
        }
        Command::WriteWithBit
        | Command::Write
        | Command::Protect
        | Command::Count
        | Command::Compare
        | Command::Ignored => {
            out[at] = 0xFF;
        }
    }
}

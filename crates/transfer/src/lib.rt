// A transfer on the bus: chip select, the bytes shifted in, and what they do to the cache register. Document 01, "Instructions".
#![tactic(auto)]

ghost use Rattle.std.specs.Prelude.{◌≡◌};
ghost use Rattle.transfer.specs.Transfer.{is, full, fresh, selects, ends, row_of, column_bytes, column_on, column_after, instructed, later, heard, shifted_in, body_heard, stored, cached};

use codes::Instruction;
use part::{Column, Geometry, Row};
use registers::Pins;

// A transfer, from select to deselect: the count of its bytes (5 stands for more), the instruction, the three bytes after
// it as they came, and the next column.
#[derive(Clone, Copy, Debug, PartialEq, Eq)]
pub struct Transfer {
    pub selected: bool,
    pub count: u8,
    pub instruction: Instruction,
    pub first: u8,
    pub second: u8,
    pub third: u8,
    pub column: Column,
}

// What the bus changes and the array never reads.
#[derive(Clone, Copy, Debug, PartialEq, Eq)]
pub struct Bus {
    pub pins: Pins,
    pub transfer: Transfer,
}

impl Transfer {
    // A transfer just begun, or just over.
    pub fn fresh(on: bool) -> Transfer
        ensures { result ≡ fresh on }
    {
        Transfer {
            selected: on,
            count: 0,
            instruction: Instruction::Ignored,
            first: 0,
            second: 0,
            third: 0,
            column: Column(0),
        }
    }

    // Whether the instruction is that of a byte.
    pub fn is(self, byte: u16) -> bool
        ensures { result ≡ is self byte }
    {
        codes::byte_of(self.instruction) == byte
    }

    // Whether exactly the instruction's bytes were shifted.
    pub fn full(self) -> bool
        ensures { result ≡ full self }
    {
        self.count == codes::form_bytes(self.instruction)
    }

    // The row address.
    pub fn row(self) -> Row
        ensures { result ≡ row_of self }
    {
        Row(u16::from(self.second) * 256 + u16::from(self.third))
    }

    // The bytes before the first one that moves the column on, or 0 for an instruction without a column. (Its definition in specs/ has
    // this 0, and may not change.)
    fn column_bytes(self) -> u8
        ensures { result ≡ column_bytes self }
    {
        match self.instruction {
            Instruction::ReadCache => 4,
            Instruction::Load | Instruction::LoadRandom => 3,
            _ => 0,
        }
    }

    // The next column after a byte that moves it on: a read goes round the page, a load on past its end.
    fn column_on(self, g: Geometry) -> Column
        ensures { result ≡ column_on g self }
    {
        match self.instruction {
            Instruction::ReadCache => columns::next_read(g.page(), self.column),
            _ => columns::next_column(self.column),
        }
    }

    // The next column after a byte.
    fn column_after(self, g: Geometry, b: u8) -> Column
        ensures { result ≡ column_after g b self }
    {
        let k = self.column_bytes();
        if k == 0 {
            return self.column;
        }
        if self.count == 2 {
            return columns::column_of(self.first, b);
        }
        if k <= self.count {
            return self.column_on(g);
        }
        self.column
    }

    // A byte of data stored at the column; one past the page's end is dropped.
    fn stores(self, b: u8, cache: &mut [u8])
        ensures { cache.new ≡ stored b self cache.old }
    {
        if 3 <= self.count {
            columns::store_at(cache, self.column, b);
        }
    }

    // The first byte is the instruction.
    fn instructed(self, busy: bool, b: u8) -> Transfer
        ensures { result ≡ instructed busy b self }
    {
        Transfer {
            count: 1,
            instruction: codes::heard_as(busy, b),
            ..self
        }
    }

    // A later byte is kept as it came, and counted.
    fn later(self, g: Geometry, b: u8) -> Transfer
        ensures { result ≡ later g b self }
    {
        let next = Transfer {
            count: self.count.min(4) + 1,
            column: self.column_after(g, b),
            ..self
        };
        match self.count {
            1 => Transfer { first: b, ..next },
            2 => Transfer { second: b, ..next },
            3 => Transfer { third: b, ..next },
            _ => next,
        }
    }
}

impl Bus {
    // Chip select falls.
    #[tactic(auto, unfolding(crate::specs::Transfer::selects))]
    pub fn selects(self) -> Bus
        ensures { result ≡ selects self }
    {
        if self.transfer.selected {
            return self;
        }
        Bus {
            transfer: Transfer::fresh(true),
            ..self
        }
    }

    // Chip select has risen.
    pub fn ends(self) -> Bus
        ensures { result ≡ ends self }
    {
        Bus {
            transfer: Transfer::fresh(false),
            ..self
        }
    }

    // Whether a byte shifted now is heard.
    pub fn heard(self) -> bool
        ensures { result ≡ heard self }
    {
        self.transfer.selected
    }

    // One byte shifted in. (Each way has its own end: where nothing is heard the library then keeps no register for the others.)
    #[tactic(auto, unfolding(crate::specs::Transfer::shifted_in))]
    pub fn shifted_in(self, g: Geometry, busy: bool, b: u8) -> Bus
        ensures { result ≡ shifted_in g busy b self }
    {
        if !self.heard() {
            return self;
        }
        let t = self.transfer;
        if t.count == 0 {
            return Bus {
                transfer: t.instructed(busy, b),
                ..self
            };
        }
        Bus {
            transfer: t.later(g, b),
            ..self
        }
    }

    // Whether a byte shifted now comes after the instruction, and is heard.
    pub fn body_heard(self) -> bool
        ensures { result ≡ body_heard self }
    {
        self.heard() && self.transfer.count != 0
    }

    // What one byte shifted in does to the cache register.
    #[tactic(auto, unfolding(crate::specs::Transfer::cached))]
    pub fn caches(self, g: Geometry, b: u8, cache: &mut [u8])
        ensures { cache.new ≡ cached g self b cache.old }
    {
        if !self.body_heard() {
            return;
        }
        let t = self.transfer;
        match t.instruction {
            Instruction::Load if t.count == 2 => cache.fill(0xFF),
            Instruction::Load | Instruction::LoadRandom => t.stores(b, cache),
            _ => {}
        }
    }
}

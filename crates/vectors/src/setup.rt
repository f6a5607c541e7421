// How a vector begins: the part, the state handed in, and the lent memory, its lengths and its first content, from 29 numbers.
use array::{Job, Work};
use device::State;
use part::{Column, Geometry, Row, Stepping};
use registers::{Pins, Registers};
use transfer::{Bus, Transfer};

// Memory to lend: its length, and its first content: byte i is start + i times step, without the carry.
#[derive(Clone, Copy)]
pub(crate) struct Lent {
    pub(crate) length: usize,
    pub(crate) start: u8,
    pub(crate) step: u8,
}

// How a vector begins.
#[derive(Clone, Copy)]
pub(crate) struct Setup {
    pub(crate) geometry: Geometry,
    pub(crate) state: State,
    pub(crate) cells: Lent,
    pub(crate) cache: Lent,
    pub(crate) counts: Lent,
    pub(crate) out: Lent,
}

// A number as a byte.
fn byte(n: u32) -> u8 {
    (n % 256) as u8
}

// A number as one of 16 bits.
fn short(n: u32) -> u16 {
    (n % 65536) as u16
}

// The numbers of a line: hex, with one space between two; what is missing is 0, and of a longer number the last eight digits count.
fn numbers(text: &[u8]) -> [u32; 29] {
    let mut numbers = [0u32; 29];
    for (number, digits) in numbers
        .iter_mut()
        .zip(text.split(|b| digits::digit(*b).is_none()))
    {
        for letter in digits {
            *number = digits::with_digit(*number, digits::digit(*letter).unwrap_or(0));
        }
    }
    numbers
}

// The operation in progress: the code of its instruction, or 0 for none, its row and the units done.
fn work(code: u8, row: Row, units: usize) -> Work {
    match code {
        0x13 => Work::Busy(Job::Read(row), units),
        0x10 => Work::Busy(Job::Program(row), units),
        0xD8 => Work::Busy(Job::Erase(row), units),
        0xFF => Work::Busy(Job::Restart, units),
        _ => Work::Idle,
    }
}

impl Setup {
    // D, S, K and N; the registers, and WP#, 0 low or 1 high; the transfer: 1 if selected, how many bytes were shifted, the instruction's
    // code, the bytes after it, the next column; the operation in progress; the lengths lent, and the first content (all counts have one
    // value, and the output is EEh); the stepping, 0 first or 1 second. The identity is the bench part's.
    pub(crate) fn read(text: &[u8]) -> Setup {
        let [
            main,
            spare,
            pages,
            blocks,
            a0,
            b0,
            c0,
            d0,
            wp,
            selected,
            count,
            code,
            first,
            second,
            third,
            column,
            job,
            row,
            units,
            cells,
            cells_start,
            cells_step,
            cache,
            cache_start,
            cache_step,
            counts,
            counts_start,
            room,
            stepping,
        ] = numbers(text);
        let stepping = if stepping == 0 {
            Stepping::First
        } else {
            Stepping::Second
        };
        let transfer = Transfer {
            selected: selected == 1,
            count: byte(count),
            instruction: codes::instruction_of(byte(code)),
            first: byte(first),
            second: byte(second),
            third: byte(third),
            column: Column(short(column)),
        };
        Setup {
            geometry: Geometry {
                main,
                spare,
                pages,
                blocks,
                id0: 0x5A,
                id1: 0x01,
                stepping,
            },
            state: State {
                regs: Registers {
                    a0: byte(a0),
                    b0: byte(b0),
                    c0: byte(c0),
                    d0: byte(d0),
                },
                bus: Bus {
                    pins: Pins { wp: wp == 1 },
                    transfer,
                },
                work: work(byte(job), Row(short(row)), units as usize),
            },
            cells: Lent {
                length: cells as usize,
                start: byte(cells_start),
                step: byte(cells_step),
            },
            cache: Lent {
                length: cache as usize,
                start: byte(cache_start),
                step: byte(cache_step),
            },
            counts: Lent {
                length: counts as usize,
                start: byte(counts_start),
                step: 0,
            },
            out: Lent {
                length: room as usize,
                start: 0xEE,
                step: 0,
            },
        }
    }
}

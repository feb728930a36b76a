// A record of standard input: twelve bytes that say a call, a question, or what to put where.
use exact::Power;
use std::io::Read;

// A code, the table that it is about and a second one, a small number, a place, and a word; nothing of it counts where the input has ended.
#[derive(Clone, Copy)]
pub(crate) struct Record {
    pub ended: bool,
    pub code: u8,
    pub table: u8,
    pub other: u8,
    pub small: u8,
    pub place: u8,
    pub word: u64,
}

// The next record: both tables in its second byte, the word in the last eight.
pub(crate) fn next(input: &mut impl Read) -> Record {
    let mut bytes = [0u8; 12];
    let n = input::fill(input, &mut bytes).bytes;
    let tables = fields::read_u8(&bytes, 1);
    Record {
        ended: n < 12,
        code: fields::read_u8(&bytes, 0),
        table: tables % 8,
        other: tables / 8 % 8,
        small: fields::read_u8(&bytes, 2),
        place: fields::read_u8(&bytes, 3),
        word: fields::read_u64(&bytes, 4),
    }
}

// A word in two's complement as a power, from −2^31 to 2^31 − 1: the complement of n is −n − 1.
pub(crate) fn power(word: u64) -> Power {
    let least = (word % 2147483648) as i32;
    let below = (!word % 2147483648) as i32;
    if word < 0x8000000000000000 {
        Power(least)
    } else {
        Power(!below)
    }
}

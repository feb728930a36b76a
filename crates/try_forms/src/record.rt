// A record of standard input: twenty bytes that say a call on the form or on the ties.

// How many bytes a record has.
pub(crate) const SIZE: usize = 20;

// A code, a small number, a side, whether little is printed, and two words.
#[derive(Clone, Copy)]
pub(crate) struct Record {
    pub code: u8,
    pub small: u8,
    pub side: u8,
    pub brief: u8,
    pub word: u64,
    pub other: u64,
}

// The record of twenty bytes.
pub(crate) fn read(bytes: &[u8]) -> Record {
    Record {
        code: fields::read_u8(bytes, 0),
        small: fields::read_u8(bytes, 1),
        side: fields::read_u8(bytes, 2),
        brief: fields::read_u8(bytes, 3),
        word: fields::read_u64(bytes, 4),
        other: fields::read_u64(bytes, 12),
    }
}

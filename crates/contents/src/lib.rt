// A book's header and contents: tested, and read entry by entry.
#![tactic(auto)]

ghost use Rattle.std.specs.Prelude.{◌≡◌};
ghost use Rattle.contents.specs.Contents.{edition_of, count_of, entry_of, header_fault, good_kind, fault_at, contents_number};
ghost use Rattle.contents.specs.Kind.{StatesKind};

use exact::Refusal;

// What a body holds, with the number that an entry states.
#[derive(Clone, Copy, Debug, PartialEq, Eq)]
pub enum Kind {
    Circuit = 1,
    Table = 2,
    Record = 3,
}

impl TryFrom<u8> for Kind {
    type Error = Refusal;

    ghost try_from_gives = { StatesKind };

    fn try_from(stated: u8) -> Result<Kind, Refusal> {
        match stated {
            1 => Ok(Kind::Circuit),
            2 => Ok(Kind::Table),
            3 => Ok(Kind::Record),
            _ => Err(Refusal::BadContents),
        }
    }
}

// What the contents state of a body.
#[derive(Clone, Copy)]
pub struct Entry {
    pub kind: u8,
    pub width: u8,
    pub start: usize,
    pub length: usize,
}

// Which edition the header states.
pub fn edition(bs: &[u8]) -> u8
    ensures { result ≡ edition_of bs.now }
{
    fields::read_u8(bs, 2)
}

// How many bodies the header states.
pub fn count(bs: &[u8]) -> usize
    ensures { result ≡ count_of bs.now }
{
    fields::read_u8(bs, 3) as usize
}

// The entry behind the first four bytes; bytes beyond the end count as 0.
fn first_entry(part: &[u8]) -> Entry
    ensures { result ≡ entry_of part.now 0 }
{
    Entry {
        kind: fields::read_u8(part, 4),
        width: fields::read_u8(part, 5),
        start: fields::read_u32(part, 8) as usize,
        length: fields::read_u16(part, 6) as usize,
    }
}

// Entry j as the bytes state it; bytes beyond the end count as 0.
pub fn entry_at(bs: &[u8], j: usize) -> Entry
    ensures { result ≡ entry_of bs.now j }
{
    if bs.len() / 8 < j {
        return Entry {
            kind: 0,
            width: 0,
            start: 0,
            length: 0,
        };
    }
    let at = 8 * j;
    first_entry(&bs[at..])
}

// Whether the header is refused.
#[tactic(auto, unfolding(crate::specs::Contents::header_fault))]
fn header_fault(bs: &[u8]) -> bool
    ensures { result ≡ header_fault bs.now }
{
    bs.len() < 4
        || bs.len() > exact::MOST_BYTES
        || bs[0] != 0x51
        || bs[1] != 0x4E
        || !editions::good_edition(edition(bs))
        || count(bs) > exact::MOST_BODIES
}

// Whether a kind is one of the two, or a record's in edition 2.
#[tactic(auto, unfolding(crate::specs::Contents::good_kind))]
pub fn good_kind(edition: u8, kind: u8) -> bool
    ensures { result ≡ good_kind edition kind }
{
    match Kind::try_from(kind) {
        Ok(Kind::Circuit | Kind::Table) => true,
        Ok(Kind::Record) => edition == editions::SECOND,
        Err(_) => false,
    }
}

// Whether an entry is refused whose body is to start at a place of a book of an edition and so many bytes.
#[tactic(auto, unfolding(crate::specs::Contents::fault_at))]
fn fault_at(edition: u8, e: Entry, from: usize, size: usize) -> bool
    ensures { result ≡ fault_at edition e from size }
{
    !good_kind(edition, e.kind) || e.start != from || size < e.start || size - e.start < e.length
}

// The number that refuses the header or the contents of a book, 0 where they are good.
pub fn test(bs: &[u8]) -> u8
    ensures { result ≡ contents_number bs.now }
{
    if header_fault(bs) {
        return exact::BAD_HEADER;
    }
    let n = count(bs);
    let first = 4 + 8 * n;
    if bs.len() < first {
        return exact::BAD_CONTENTS;
    }
    let edition = edition(bs);
    let mut at = first;
    for j in 0..n {
        let e = entry_at(bs, j);
        if fault_at(edition, e, at, bs.len()) {
            return exact::BAD_CONTENTS;
        }
        at += e.length;
    }
    if at != bs.len() {
        return exact::BAD_CONTENTS;
    }
    0
}

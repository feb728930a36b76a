// A body of a book on its own: what it answers, and the number that refuses it. Inner: `refused` and the faults serve the book.
#![tactic(auto)]

ghost use Rattle.std.specs.Prelude.{◌≡◌};
ghost use Rattle.book_bodies.specs.Number.{circuit_body_number, record_body_number, TableNumber, OwnNumber};
ghost use Rattle.book_bodies.specs.Inner.Said.{said_of, said_told};
ghost use Rattle.book_bodies.specs.Answer.{refusal, CircuitAnswer, RecordAnswer, TableAnswer, BodyAnswer};

use contents::Kind;
use exact::{Amount, Chance, Refusal};
use state::State;

// What reading a body says: a refusal's number, a circuit's amplitude, a record's chance, or that the table stands beside it.
#[derive(Clone, Copy)]
pub enum Said {
    Refused(u8),
    Circuit(Amount),
    Record(Chance),
    Whole,
}

// What reading a body answers; the table is the fresh one unless it was read.
#[derive(Clone, Copy)]
pub struct Body {
    pub said: Said,
    pub table: State,
}

// A circuit's answer, as it is said of a body.
fn said_of(a: Result<Amount, Refusal>) -> Said
    ensures { result ≡ said_of a }
{
    match a {
        Ok(m) => Said::Circuit(m),
        Err(r) => Said::Refused(u8::from(r)),
    }
}

// A record's answer, as it is said of a body.
fn said_told(a: Result<Chance, Refusal>) -> Said
    ensures { result ≡ said_told a }
{
    match a {
        Ok(c) => Said::Record(c),
        Err(r) => Said::Refused(u8::from(r)),
    }
}

// A refusal: its number, and the fresh table.
pub fn refused(k: u8) -> Body
    ensures { result ≡ refusal k }
{
    Body {
        said: Said::Refused(k),
        table: state_steps::fresh(),
    }
}

// What a circuit's body of this width answers in a book of this edition.
pub fn circuit_body(edition: u8, part: &[u8], width: u8) -> Body
    ensures { CircuitAnswer edition width part.now result }
{
    if part.len() < 8 {
        return refused(exact::BAD_BODY);
    }
    let input = fields::read_u32(part, 0);
    let output = fields::read_u32(part, 4);
    let a = circuit::amplitude(edition, width, input, output, &part[8..]);
    Body {
        said: said_of(a),
        table: state_steps::fresh(),
    }
}

// What a record's body of this width answers.
pub fn record_body(part: &[u8], width: u8) -> Body
    ensures { RecordAnswer width part.now result }
{
    if part.len() < 4 {
        return refused(exact::BAD_BODY);
    }
    let input = fields::read_u32(part, 0);
    let a = record::chance_of(width, input, &part[4..]);
    Body {
        said: said_told(a),
        table: state_steps::fresh(),
    }
}

// What a table's body of this width answers.
pub fn table_body(part: &[u8], width: u8) -> Body
    ensures { TableAnswer width part.now result }
{
    let r = body_read::read(part, width);
    let fault = r.refusal;
    let t = r.table;
    let said = if fault == 0 {
        Said::Whole
    } else {
        Said::Refused(fault)
    };
    Body { said, table: t }
}

// What a body of this kind and width answers in a book of this edition.
pub fn own_body(edition: u8, kind: u8, part: &[u8], width: u8) -> Body
    ensures { BodyAnswer edition kind width part.now result }
{
    match Kind::try_from(kind) {
        Ok(Kind::Circuit) => circuit_body(edition, part, width),
        Ok(Kind::Record) => record_body(part, width),
        Ok(Kind::Table) | Err(_) => table_body(part, width),
    }
}

// The number that refuses a circuit's body of this width in a book of this edition, 0 for none: its amplitude is not computed.
pub fn circuit_fault(edition: u8, part: &[u8], width: u8) -> u8
    ensures { result ≡ circuit_body_number edition width part.now }
{
    if part.len() < 8 {
        return exact::BAD_BODY;
    }
    let input = fields::read_u32(part, 0);
    let output = fields::read_u32(part, 4);
    exact::number_of(&circuit::test(edition, width, input, output, &part[8..]))
}

// The number that refuses a record's body of this width, 0 for none: its chance is not computed.
pub fn record_fault(part: &[u8], width: u8) -> u8
    ensures { result ≡ record_body_number width part.now }
{
    if part.len() < 4 {
        return exact::BAD_BODY;
    }
    let input = fields::read_u32(part, 0);
    exact::number_of(&record::test(width, input, &part[4..]))
}

// The number that refuses a table's body of this width, 0 for none.
pub fn table_fault(part: &[u8], width: u8) -> u8
    ensures { TableNumber width part.now result }
{
    let r = body_read::read(part, width);
    r.refusal
}

// The number that refuses a body of this kind and width in a book of this edition, 0 for none.
pub fn own_fault(edition: u8, kind: u8, part: &[u8], width: u8) -> u8
    ensures { OwnNumber edition kind width part.now result }
{
    match Kind::try_from(kind) {
        Ok(Kind::Circuit) => circuit_fault(edition, part, width),
        Ok(Kind::Record) => record_fault(part, width),
        Ok(Kind::Table) | Err(_) => table_fault(part, width),
    }
}

// Reads a book from standard input to its end and compares its circuits in pairs, 2j with 2j + 1: for each pair a line, whether they are the same operator, the same up to a common phase, or differ.
#![tactic(auto)]

use contents::{Entry, Kind};
use exact::{Eighth, Refusal};
use program::Messages;
use std::io;
use std::io::Write;

// The bytes of a circuit body before its gates, two strings, which an operator has no use for.
const STRINGS: usize = 8;

// The gates of a body, refused where it is no circuit with two strings in the book.
fn gates_in(book: &[u8], e: Entry) -> Result<&[u8], Refusal> {
    if e.kind != Kind::Circuit as u8 {
        return Err(Refusal::BadContents);
    }
    if e.length < STRINGS {
        return Err(Refusal::BadBody);
    }
    if book.len() < e.length || book.len() - e.length < e.start {
        return Err(Refusal::BadContents);
    }
    Ok(&book[e.start + STRINGS..e.start + e.length])
}

// Why a circuit cannot be compared with a body that is at fault: its own refusal comes first.
fn beside(book: &[u8], e: Entry, fault: Refusal) -> Result<Option<Eighth>, Refusal> {
    operator_number::test(contents::edition(book), e.width, gates_in(book, e)?)?;
    Err(fault)
}

// What two circuits of a book are to each other.
fn compared(book: &[u8], a: Entry, b: Entry) -> Result<Option<Eighth>, Refusal> {
    let gates = gates_in(book, a)?;
    let edition = contents::edition(book);
    match gates_in(book, b) {
        Ok(gates2) => operator::common_phase(edition, a.width, gates, edition, b.width, gates2),
        Err(fault) => beside(book, a, fault),
    }
}

// The line of a pair.
fn show(out: &mut impl Write, j: usize, answer: Result<Option<Eighth>, Refusal>) -> io::Result<()> {
    output::number(out, j as u64)?;
    match answer {
        Err(refusal) => {
            out.write_all(b" refused ")?;
            output::number(out, u8::from(refusal) as u64)?;
        }
        Ok(Some(p)) => {
            out.write_all(b" same")?;
            if p.0 != 0 {
                out.write_all(b" up to ")?;
                output::number(out, p.0 as u64)?;
            }
        }
        Ok(None) => {
            out.write_all(b" differ")?;
        }
    }
    out.write_all(b"\n")
}

// The lines of a book whose contents are good. A last circuit without another is refused by 14.
fn pairs(out: &mut impl Write, book: &[u8]) -> io::Result<()> {
    let n = contents::count(book);
    for j in 0..8usize {
        if n < 2 * j + 1 {
            return Ok(());
        }
        let a = contents::entry_at(book, 2 * j);
        if n == 2 * j + 1 {
            return show(out, j, beside(book, a, Refusal::NoBody));
        }
        show(
            out,
            j,
            compared(book, a, contents::entry_at(book, 2 * j + 1)),
        )?;
    }
    Ok(())
}

// A book whose header or contents are at fault is the single line of its number, as it is listed.
fn compare(out: &mut impl Write, book: &[u8]) -> io::Result<()> {
    let number = contents::test(book);
    if number != 0 {
        out.write_all(b"refused ")?;
        output::number(out, number as u64)?;
        return out.write_all(b"\n");
    }
    pairs(out, book)
}

// That a book has more than 60,000 bytes is all that matters of a longer one.
fn main(rt: HostRuntime) -> io::Result<()> {
    let messages = Messages {
        waits: b"same: reads a book from standard input (same < FILE)\n",
        unread: b"same: standard input cannot be read\n",
    };
    let mut area = [0u8; 60001];
    match program::book(&messages, &mut rt.stdin(), &mut rt.stderr(), &mut area) {
        Some(book) => compare(&mut rt.stdout(), book),
        None => Ok(()),
    }
}

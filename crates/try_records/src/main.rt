// Records read from standard input: whole ones, and what of each comes before each of its measurements. For each a line: the chance of the record, then with outcome 0 of a wire behind it, then with outcome 1, each as a power, `none` or a refusal, and whether the two add up to the first. The script
// tests/try_records.py writes the records, and from plain vectors in whole numbers what must be printed.
#![tactic(auto)]

use exact::{Chance, Refusal};
use std::io;
use std::io::Write;

// More records than any input has.
const MOST: u64 = 100000;
// How many bytes a record has: width, wire, count of items, a byte that is not read, input string, the items, and room for a measurement.
const SIZE: usize = 155;

const HEAD: usize = 8;

const MOST_ITEMS: usize = 48;
// What stands for a power: none, and from the second number on a refusal.
const NONE: u64 = 1000000;

const REFUSED: u64 = 2000000;

// A chance as a number.
fn power_of(c: Chance) -> u64 {
    match c {
        Chance::Never => NONE,
        Chance::OneOver(e) => e as u64,
    }
}

// An answer as a number.
fn number_of(answer: Result<Chance, Refusal>) -> u64 {
    match answer {
        Err(refusal) => REFUSED + u8::from(refusal) as u64,
        Ok(c) => power_of(c),
    }
}

// A number and the space behind it, as what it stands for.
fn show(out: &mut impl Write, n: u64) -> io::Result<()> {
    if n >= REFUSED {
        out.write_all(b"refused ")?;
        output::number(out, n - REFUSED)?;
        return out.write_all(b" ");
    }
    if n == NONE {
        return out.write_all(b"none ");
    }
    output::number(out, n)?;
    out.write_all(b" ")
}

// Whether the chances b and c add up to a: two halves of it, or one of them all of it.
fn adds(a: u64, b: u64, c: u64) -> bool {
    if a >= NONE {
        return b == a && c == a;
    }
    if b == NONE {
        return c == a;
    }
    if c == NONE {
        return b == a;
    }
    b == a + 1 && c == a + 1
}

// The answer to the items between the head and an end.
fn asked(bytes: &[u8], end: usize) -> u64 {
    if end < HEAD {
        return 0;
    }
    if bytes.len() < end {
        return 0;
    }
    let width = fields::read_u8(bytes, 0);
    let input = fields::read_u32(bytes, 4);
    number_of(record::chance_of(width, input, &bytes[HEAD..end]))
}

// The line of a record.
fn tried(out: &mut impl Write, given: [u8; SIZE]) -> io::Result<()> {
    let mut bytes = given;
    let wire = bytes[1];
    let count = bytes[2] as usize;
    if count > MOST_ITEMS {
        return Ok(());
    }
    let end = HEAD + 3 * count;
    let a = asked(&bytes, end);
    bytes[end] = 80;
    bytes[end + 1] = wire;
    bytes[end + 2] = 0;
    let b = asked(&bytes, end + 3);
    bytes[end + 2] = 1;
    let c = asked(&bytes, end + 3);
    show(out, a)?;
    show(out, b)?;
    show(out, c)?;
    if adds(a, b, c) {
        return out.write_all(b"adds\n");
    }
    out.write_all(b"fails\n")
}

// Record after record, to the end of the input.
fn main(rt: HostRuntime) -> io::Result<()> {
    let out = &mut rt.stdout();
    let mut input = rt.stdin();
    for _ in 0..MOST {
        let mut bytes = [0u8; SIZE];
        if input::fill(&mut input, &mut bytes).bytes < SIZE {
            return Ok(());
        }
        tried(out, bytes)?;
    }
    Ok(())
}

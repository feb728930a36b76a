// Circuits read from standard input, each in both editions from its input to every output. For each a line: the edition, the phase of every amplitude, a point where it is zero, and the least and the most that the powers of
// the others lie below 0; or the number that refuses it. The script tests/try_compare.py writes the circuits, and from products of their matrices what must be printed.
#![tactic(auto)]

use exact::{Amount, Refusal};
use std::io;
use std::io::Write;

// More circuits than any input has.
const MOST: u64 = 100000;
// How many bytes a circuit has: width, input, count of items, a byte that is not read, 85 items.
const SIZE: usize = 259;

const HEAD: usize = 4;

const MOST_ITEMS: usize = 85;

const MOST_WIDTH: u8 = 6;
// What stands for a power above 0, and for none.
const ABOVE: u64 = 1000000;

const NONE: u64 = 2000000;

// How far a power lies below 0.
fn below(power: i32) -> u64 {
    if power > 0 {
        return ABOVE;
    }
    lines_words::size(power)
}

// How far the power of an answer lies below 0, of zero `NONE`; its phase is printed.
fn shown(out: &mut impl Write, a: Result<Amount, Refusal>) -> io::Result<u64> {
    match a {
        Err(_) => Ok(NONE),
        Ok(amount) => match amount {
            Amount::Zero => {
                out.write_all(b".")?;
                Ok(NONE)
            }
            Amount::Some(power, phase) => {
                output::number(out, phase.0 as u64)?;
                Ok(below(power.0))
            }
        },
    }
}

// The amplitudes from an input to every output: their phases, then the least and the most depth of their powers.
fn outputs(
    out: &mut impl Write,
    edition: u8,
    width: u8,
    input: u32,
    gates: &[u8],
) -> io::Result<()> {
    if width > MOST_WIDTH {
        return Ok(());
    }
    let strings = (1u64 << width) % 65;
    let mut least = NONE;
    let mut most: u64 = 0;
    for q in 0..strings {
        let depth = shown(
            out,
            circuit::amplitude(edition, width, input, q as u32, gates),
        )?;
        least = if depth < least { depth } else { least };
        most = if depth == NONE || depth < most {
            most
        } else {
            depth
        };
    }
    out.write_all(b" ")?;
    output::number(out, least)?;
    out.write_all(b" ")?;
    output::number(out, most)?;
    out.write_all(b"\n")
}

// The line of a circuit of an edition: its items stand between the head and an end.
fn line(out: &mut impl Write, edition: u8, bytes: &[u8], end: usize) -> io::Result<()> {
    if end < HEAD {
        return Ok(());
    }
    if bytes.len() < end {
        return Ok(());
    }
    let width = fields::read_u8(bytes, 0);
    let input = fields::read_u8(bytes, 1) as u32;
    let tested = circuit::test(edition, width, input, 0, &bytes[HEAD..end]);
    output::number(out, edition as u64)?;
    if let Err(refusal) = tested {
        out.write_all(b" refused ")?;
        output::number(out, u8::from(refusal) as u64)?;
        return out.write_all(b"\n");
    }
    out.write_all(b" ")?;
    outputs(out, edition, width, input, &bytes[HEAD..end])
}

// The two lines of a circuit.
fn tried(out: &mut impl Write, bytes: [u8; SIZE]) -> io::Result<()> {
    let count = bytes[2] as usize;
    if count > MOST_ITEMS {
        return Ok(());
    }
    let end = HEAD + 3 * count;
    line(out, editions::FIRST, &bytes, end)?;
    line(out, editions::SECOND, &bytes, end)
}

// Circuit after circuit, to the end of the input.
fn main(rt: HostRuntime) -> io::Result<()> {
    let out = &mut rt.stdout();
    let mut input = rt.stdin();
    for _ in 0..MOST {
        let mut bytes = [0u8; SIZE];
        if input::fill(&mut input, &mut bytes).bytes < SIZE {
            return Ok(());
        }
        tried(out, bytes)?;
    }
    Ok(())
}

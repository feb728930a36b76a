// The first fault of a circuit's or a record's body. Inner: asks that the body lies within a book.
#![tactic(auto)]

ghost use Rattle.std.specs.Prelude.{◌≡◌, ◌+◌, ◌≤◌, length};
ghost use Rattle.cause_circuit.specs.Circuit.{head_found, tested_found, circuit_found, record_found};

use cause::{Cause, Found};

// The first fault before the items: their length and count, the width, whose byte stands in the contents, and the strings.
fn head(
    width: u8,
    input: u32,
    output: u32,
    gates: &[u8],
    from: usize,
    at: usize,
    listed: usize,
) -> Result<(), Found>
    requires { (length gates.now ≤ 60000) × (from ≤ 60000) × (at ≤ 60000) }
    ensures { result ≡ head_found from at listed width input output gates.now }
{
    if gates.len() % 3 != 0 {
        return cause::fault(
            Some(Cause::Threes),
            gates.len() / 3,
            at + 3 * (gates.len() / 3),
        );
    }
    if exact::MOST_GATES < gates.len() / 3 {
        return cause::fault(
            Some(Cause::Many),
            exact::MOST_GATES,
            at + 3 * exact::MOST_GATES,
        );
    }
    if width < 1 {
        return cause::fault(Some(Cause::Wires), 0, listed);
    }
    if exact::MOST_WIRES < width {
        return cause::fault(Some(Cause::Wires), 0, listed);
    }
    let strings = 1u64 << width;
    if strings <= input as u64 {
        return cause::fault(Some(Cause::Input), 0, from);
    }
    if strings <= output as u64 {
        return cause::fault(Some(Cause::Output), 0, from + 4);
    }
    Ok(())
}

// The first fault of what stands in a dialect: before the items, the items in order, their blocks.
fn tested(
    dialect: u8,
    width: u8,
    input: u32,
    output: u32,
    gates: &[u8],
    from: usize,
    at: usize,
    listed: usize,
) -> Result<(), Found>
    requires { (length gates.now ≤ 60000) × (from ≤ 60000) × (at ≤ 60000) }
    ensures { result ≡ tested_found from at listed dialect width input output gates.now }
{
    head(width, input, output, gates, from, at, listed)?;
    cause_items::first(dialect, gates, width, at)?;
    cause_blocks::first(gates, at)
}

// The first fault of a circuit's body that starts at a byte of a book of an edition.
pub fn circuit(edition: u8, part: &[u8], width: u8, from: usize, listed: usize) -> Result<(), Found>
    requires { from + length part.now ≤ 60000 }
    ensures { result ≡ circuit_found from listed edition width part.now }
{
    if part.len() < 8 {
        return cause::fault(Some(Cause::Strings), 0, from);
    }
    let input = fields::read_u32(part, 0);
    let output = fields::read_u32(part, 4);
    tested(
        edition,
        width,
        input,
        output,
        &part[8..],
        from,
        from + 8,
        listed,
    )
}

// The first fault of a record's body that starts at a byte of a book.
pub fn record(part: &[u8], width: u8, from: usize, listed: usize) -> Result<(), Found>
    requires { from + length part.now ≤ 60000 }
    ensures { result ≡ record_found from listed width part.now }
{
    if 4 <= part.len() {
        let input = fields::read_u32(part, 0);
        return tested(
            gates::RECORD,
            width,
            input,
            0,
            &part[4..],
            from,
            from + 4,
            listed,
        );
    }
    cause::fault(Some(Cause::Strings), 0, from)
}

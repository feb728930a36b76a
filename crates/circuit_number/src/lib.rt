// Why a circuit is refused, found without running it: 9 for its edition, then 11, 6, 8, then item by item, then its blocks.
#![tactic(auto)]

ghost use Rattle.std.specs.Prelude.{true, ◌≡◌, ℕ, ◌+◌, ◌*◌, ◌≤◌, length};
ghost use Rattle.exact.specs.Code.{refusal_in};
ghost use Rattle.blocks.specs.Expansion.{item_count, blocks_number};
ghost use Rattle.gates.specs.Read.{gate_read};
ghost use Rattle.gates.specs.Circuit.{number_of, item_at, gates_number, items_number, circuit_number};
ghost use Rattle.gates.specs.Record.{record_number};
ghost use Rattle.circuit_number.specs.Inner.Tested.{edition_number, tested_number};

use exact::Refusal;
use gates::Reading;

// The fewest wires of a circuit.
const LEAST_WIRES: u8 = 1;

// Item `j` of the bytes, read on so many wires in a dialect, which is the edition of a circuit.
fn item_at(dialect: u8, gates: &[u8], j: usize, width: u8) -> Reading
    requires { 3 * j + 3 ≤ length gates.now }
    ensures { result ≡ item_at dialect width gates.now j }
{
    gates::read(
        dialect,
        gates[3 * j],
        gates[3 * j + 1],
        gates[3 * j + 2],
        width,
    )
}

// Why the first item that is refused is, item by item.
fn first_refusal(dialect: u8, gates: &[u8], width: u8) -> Result<(), Refusal>
    ensures { refusal_in result ≡ gates_number dialect width gates.now (item_count gates.now) }
{
    for j in 0..gates.len() / 3 {
        item_at(dialect, gates, j, width).test()?;
    }
    Ok(())
}

// Whether the bytes are a gate on one wire of so many, in any dialect.
fn one_fine(code: u8, first: u8, second: u8, width: u8) -> bool
    ensures { result ≡ true → (d : ℕ) → number_of (gate_read d code first second width) ≡ 0 }
{
    (1 <= code) & (code <= 7) & (first < width) & (second == 0)
}

// Whether the bytes are a gate on two wires of so many, in any dialect.
fn two_fine(code: u8, first: u8, second: u8, width: u8) -> bool
    ensures { result ≡ true → (d : ℕ) → number_of (gate_read d code first second width) ≡ 0 }
{
    (16 <= code) & (code <= 18) & (first < width) & (second < width) & (first != second)
}

// Whether item `j` of the bytes is a gate that is not refused, in any dialect.
fn fine_at(gates: &[u8], j: usize, width: u8) -> bool
    requires { 3 * j + 3 ≤ length gates.now }
    ensures { result ≡ true → (d : ℕ) → number_of (item_at d width gates.now j) ≡ 0 }
{
    let code = gates[3 * j];
    let first = gates[3 * j + 1];
    let second = gates[3 * j + 2];
    one_fine(code, first, second, width) | two_fine(code, first, second, width)
}

// Whether every item is a gate that is not refused, without a branch for each.
fn all_fine(gates: &[u8], width: u8) -> bool
    ensures { result ≡ true → (d : ℕ) → gates_number d width gates.now (item_count gates.now) ≡ 0 }
{
    let mut fine = true;
    for j in 0..gates.len() / 3 {
        fine &= fine_at(gates, j, width);
    }
    fine
}

// Why the blocks are refused: by 16.
fn test_blocks(gates: &[u8]) -> Result<(), Refusal>
    ensures { refusal_in result ≡ blocks_number gates.now }
{
    if blocks::number(gates) == 0 {
        return Ok(());
    }
    Err(Refusal::BadBlock)
}

// Why the items in order are refused, then their blocks. Where every item is a gate there is no mark.
fn test_items(dialect: u8, gates: &[u8], width: u8) -> Result<(), Refusal>
    requires { item_count gates.now ≤ 4096 }
    ensures { refusal_in result ≡ items_number dialect width gates.now }
{
    if all_fine(gates, width) {
        return Ok(());
    }
    let item = first_refusal(dialect, gates, width);
    let block = test_blocks(gates);
    item.and(block)
}

// Why what stands in a dialect is refused: 11, 6, 8, gates and marks in order, blocks.
fn tested(dialect: u8, width: u8, input: u32, output: u32, gates: &[u8]) -> Result<(), Refusal>
    ensures { refusal_in result ≡ tested_number dialect width input output gates.now }
{
    if gates.len() % 3 != 0 || exact::MOST_GATES < gates.len() / 3 {
        return Err(Refusal::BadBody);
    }
    if width < LEAST_WIRES || exact::MOST_WIRES < width {
        return Err(Refusal::BadWire);
    }
    let strings = 1u64 << width;
    if strings <= input as u64 || strings <= output as u64 {
        return Err(Refusal::BadString);
    }
    test_items(dialect, gates, width)
}

// Why an edition alone is refused: by 9 where there is none such.
fn test_edition(edition: u8) -> Result<(), Refusal>
    ensures { refusal_in result ≡ edition_number edition }
{
    if editions::good_edition(edition) {
        return Ok(());
    }
    Err(Refusal::BadHeader)
}

// Why a circuit of an edition is refused: by 9 for the edition, before its own.
pub fn test(edition: u8, width: u8, input: u32, output: u32, gates: &[u8]) -> Result<(), Refusal>
    ensures { refusal_in result ≡ circuit_number edition width input output gates.now }
{
    let edition_own = test_edition(edition);
    let circuit_own = tested(edition, width, input, output, gates);
    edition_own.and(circuit_own)
}

// Why a record is refused: as a circuit, in its own dialect and with one string.
pub fn test_record(width: u8, input: u32, gates: &[u8]) -> Result<(), Refusal>
    ensures { refusal_in result ≡ record_number width input gates.now }
{
    tested(gates::RECORD, width, input, 0, gates)
}

// The first of the items of a body that is at fault, and why. Inner: asks that the items lie within a book.
#![tactic(auto)]

ghost use Rattle.std.specs.Prelude.{◌≡◌, ◌+◌, ◌*◌, ◌≤◌, length};
ghost use Rattle.blocks.specs.Expansion.{item_count};
ghost use Rattle.cause.specs.Cause.{first_below};
ghost use Rattle.cause_items.specs.Items.{range_found, read_found, item_found};

use cause::{Cause, Found};

// Why item j is refused by 3, by its code and its second byte.
fn range(code: u8, second: u8, j: usize, byte: usize) -> Result<(), Found>
    requires { byte ≤ 200000 }
    ensures { result ≡ range_found byte j code second }
{
    if code == 64 {
        if second != 0 {
            return cause::fault(Some(Cause::Stray), j, byte + 2);
        }
        return cause::fault(Some(Cause::NoCount), j, byte + 1);
    }
    if code == 65 {
        if second != 0 {
            return cause::fault(Some(Cause::Stray), j, byte + 2);
        }
        return cause::fault(Some(Cause::Stray), j, byte + 1);
    }
    if code == gates::MEASURED {
        return cause::fault(Some(Cause::Outcome), j, byte + 2);
    }
    cause::fault(Some(Cause::SecondByte), j, byte + 2)
}

// Why item j is refused by a number, 0 for none: which of its bytes is at fault.
fn refine(
    k: u8,
    code: u8,
    wire: u8,
    second: u8,
    width: u8,
    j: usize,
    byte: usize,
) -> Result<(), Found>
    requires { byte ≤ 200000 }
    ensures { result ≡ read_found byte j width k code wire second }
{
    if k == exact::UNKNOWN_CODE {
        return cause::fault(Some(Cause::Code), j, byte);
    }
    if k == exact::BAD_WIRE {
        if width <= wire {
            return cause::fault(Some(Cause::Wire), j, byte + 1);
        }
        return cause::fault(Some(Cause::SecondWire), j, byte + 2);
    }
    if k == exact::TWICE {
        return cause::fault(Some(Cause::SameWire), j, byte + 2);
    }
    if k == exact::OUT_OF_RANGE {
        return range(code, second, j, byte);
    }
    Ok(())
}

// The fault of item j, read on so many wires in a dialect, where the items start at a byte.
fn item(dialect: u8, items: &[u8], j: usize, width: u8, at: usize) -> Result<(), Found>
    requires { (3 * j + 3 ≤ length items.now) × (j ≤ 20000) × (at ≤ 60000) }
    ensures { result ≡ item_found at dialect width items.now j }
{
    let code = items[3 * j];
    let wire = items[3 * j + 1];
    let second = items[3 * j + 2];
    let k = gates::read(dialect, code, wire, second, width).number();
    refine(k, code, wire, second, width, j, at + 3 * j)
}

// The first item at fault.
pub fn first(dialect: u8, items: &[u8], width: u8, at: usize) -> Result<(), Found>
    requires { (item_count items.now ≤ 20000) × (at ≤ 60000) }
    ensures { result ≡ first_below (item_count items.now) (item_found at dialect width items.now) }
{
    let count = items.len() / 3;
    for j in 0..count {
        item(dialect, items, j, width, at)?;
    }
    Ok(())
}

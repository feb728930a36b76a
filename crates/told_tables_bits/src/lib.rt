// The calls for C that make a table fresh, give a bit out, or sum one. Any bytes and any numbers are taken.
#![tactic(auto)]

ghost use Rattle.told_tables.specs.Calls.{FreshTold, NewBitTold, rule_told, SumTold};
ghost use Rattle.std.specs.Prelude.{◌≡◌};

use exact::{Label, Slot};
use state::Rule;
use table::Table;

// No live bits, entry 1, whatever the bytes were.
pub fn fresh(area: &mut [u8]) -> u8
    ensures { FreshTold area.old result area.new }
{
    if area.len() != image::BYTES {
        return exact::AREA_SHORT;
    }
    let t = Table::fresh();
    told_tables::put_back(area, t, 0)
}

// The lowest free slot becomes live with the label `l`; behind the pointer stands that slot.
pub fn new_bit(area: &mut [u8], l: u16, slot: &mut usize) -> u8
    ensures { NewBitTold area.old l slot.old result area.new slot.new }
{
    let r = image_read::read(area);
    let refusal = r.refusal;
    if refusal != 0 {
        return refusal;
    }
    let t = told_tables::held(r);
    let c = t.new_bit(Label(l));
    let n = c.refusal;
    if n != 0 {
        return n;
    }
    let v = c.slot;
    *slot = v.0;
    let after = c.table;
    told_tables::put_back(area, after, 0)
}

// The case that applied where a bit was summed, as a number.
fn rule_number(r: Rule) -> u8
    ensures { result ≡ rule_told r }
{
    match r {
        Rule::None => 0,
        Rule::Tied => 1,
        Rule::Odd => 2,
        Rule::NewTie => 3,
        Rule::Free => 4,
        Rule::Vanished => 5,
    }
}

// Slot `v` summed over 0 and 1, and freed; behind the pointer stands the case that applied.
pub fn sum(area: &mut [u8], v: usize, rule: &mut u8) -> u8
    ensures { SumTold area.old v rule.old result area.new rule.new }
{
    let r = image_read::read(area);
    let refusal = r.refusal;
    if refusal != 0 {
        return refusal;
    }
    let t = told_tables::held(r);
    let c = t.sum(Slot(v));
    let n = c.refusal;
    if n != 0 {
        return n;
    }
    let applied = c.rule;
    *rule = rule_number(applied);
    let after = c.table;
    told_tables::put_back(area, after, 0)
}

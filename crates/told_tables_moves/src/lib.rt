// The calls for C that turn, scale, tie or fix a table in lent bytes. Any bytes and any numbers are taken.
#![tactic(auto)]

ghost use Rattle.told_tables.specs.Calls.{TurnTold, ScaleTold, TieTold, FixTold};

use exact::{Eighth, Power, Quarter, Slot};

// Times i^(k·x_v) where u and v are one slot, k 0..3; else k is 0 or 2, and 2 is the sign.
pub fn turn(area: &mut [u8], u: usize, v: usize, k: u8) -> u8
    ensures { TurnTold area.old u v k result area.new }
{
    told_tables::changed(area, |t| t.turn(Slot(u), Slot(v), Quarter(k)))
}

// Times √2^m · ω^p.
pub fn scale(area: &mut [u8], m: i32, p: u8) -> u8
    ensures { ScaleTold area.old m p result area.new }
{
    told_tables::changed(area, |t| t.scale(Power(m), Eighth(p)))
}

// Entries where the parity of `mask` is not `b` become 0.
pub fn tie(area: &mut [u8], mask: u64, b: u8) -> u8
    ensures { TieTold area.old mask b result area.new }
{
    told_tables::changed(area, |t| t.tie(mask, b))
}

// x_v set to `b`, and `v` freed. Of the calls on a table it takes the most stack, and so does without the closure of `changed`, which copies the table twice more.
pub fn fix(area: &mut [u8], v: usize, b: u8) -> u8
    ensures { FixTold area.old v b result area.new }
{
    let r = image_read::read(area);
    let refusal = r.refusal;
    if refusal != 0 {
        return refusal;
    }
    let t = told_tables::held(r);
    let c = t.fix(Slot(v), b);
    told_tables::put_back(area, c.table, c.refusal)
}

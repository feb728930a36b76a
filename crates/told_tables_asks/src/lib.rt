// The calls for C that ask a table in lent bytes for an entry or for its spread. Any bytes and any numbers are taken.
#![tactic(auto)]

ghost use Rattle.told.specs.Told.{behind};
ghost use Rattle.told_tables_asks.specs.Asks.{EntryAsked, spreading, SpreadShown, SpreadAsked};

use exact::Refusal;

// The entry at an assignment of the live bits.
pub fn entry(area: &[u8], x: u64, zero: &mut u8, power: &mut i32, phase: &mut u8) -> u8
    ensures { EntryAsked area.now x (behind zero.old power.old phase.old) result (behind zero.new power.new phase.new) }
{
    let r = image_read::read(area);
    let refusal = r.refusal;
    if refusal != 0 {
        return refusal;
    }
    let t = told_tables::held(r);
    let a = t.entry(x).map_err(u8::from);
    told::answer(a, zero, power, phase)
}

// What Spread answered, behind two pointers.
fn tell_spread(c: Result<Option<usize>, Refusal>, none: &mut u8, e: &mut usize) -> u8
    ensures { SpreadShown c (spreading none.old e.old) result (spreading none.new e.new) }
{
    match c {
        Err(refusal) => u8::from(refusal),
        Ok(None) => {
            *none = 1;
            *e = 0;
            0
        }
        Ok(Some(k)) => {
            *none = 0;
            *e = k;
            0
        }
    }
}

// How many entries are not zero: none, or two to an exponent.
pub fn spread(area: &[u8], none: &mut u8, e: &mut usize) -> u8
    ensures { SpreadAsked area.now (spreading none.old e.old) result (spreading none.new e.new) }
{
    let r = image_read::read(area);
    let refusal = r.refusal;
    if refusal != 0 {
        return refusal;
    }
    let t = told_tables::held(r);
    let c = t.spread();
    tell_spread(c, none, e)
}

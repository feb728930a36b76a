// A call that a record says, made on the library.
use super::record::Record;
use super::{case, digest, print, record};
use exact::{Eighth, Label, Quarter, Slot};
use state::Rule;
use std::io;
use std::io::Write;
use table::{Changed, Table};

// A call that answers nothing but the table.
fn changed(r: Record, t: Table) -> Changed {
    let v = Slot(r.word as usize);
    let code = r.code;
    match code {
        1 => t.turn(v, Slot(r.place as usize), Quarter(r.small)),
        2 => t.scale(record::power(r.word), Eighth(r.small)),
        3 => t.tie(r.word, r.small),
        _ => t.fix(v, r.small),
    }
}

// The table after the call of a code below 7 on `t`, a join with `other`; what else it answers is printed: the number of refusal or 0, the slot of a new bit, the case of a sum and the one that the fields before it say, the places of a join.
pub(crate) fn made(out: &mut impl Write, r: Record, t: Table, other: Table) -> io::Result<Table> {
    let code = r.code;
    match code {
        0 => {
            let o = t.new_bit(Label((r.word % 65536) as u16));
            output::spaced(out, o.refusal as u64)?;
            output::spaced(out, o.slot.0 as u64)?;
            Ok(o.table)
        }
        4 => {
            let s = t.state;
            let c = t.sum(Slot(r.word as usize));
            let rule = c.rule;
            let by_fields = if c.refusal == 0 {
                case::by_fields(s, r.word)
            } else {
                Rule::None
            };
            output::spaced(out, c.refusal as u64)?;
            print::rule(out, rule)?;
            print::rule(out, by_fields)?;
            Ok(c.table)
        }
        6 => {
            let j = t.join(other);
            let places = j.places;
            output::spaced(out, j.refusal as u64)?;
            output::spaced(out, digest::places(places) % 4294967296)?;
            Ok(j.table)
        }
        _ => {
            let c = changed(r, t);
            output::spaced(out, c.refusal as u64)?;
            Ok(c.table)
        }
    }
}

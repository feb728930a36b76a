// A field of a table put to what a record says, whatever the table is then: how the script spoils tables.
use super::record;
use super::record::Record;
use exact::{Eighth, Label, Quarter, Slot};
use form::Form;
use labels::Labels;
use state::State;
use ties::Ties;

// The phase, a turn, or bits of a row turned over.
fn form(mut f: Form, r: Record) -> Form {
    let v = (r.place % 64) as usize;
    let code = r.code;
    match code {
        13 => {
            let c = Eighth(r.small);
            f.phase = c;
            f
        }
        14 => {
            let a = Quarter(r.small);
            f.turns[v] = a;
            f
        }
        _ => {
            f.signs[v] = f.signs[v] ^ r.word;
            f
        }
    }
}

// How many ties there are, or a tie.
fn ties(mut t: Ties, r: Record) -> Ties {
    let j = (r.place % 64) as usize;
    let code = r.code;
    match code {
        16 => {
            t.count = r.word as usize;
            t
        }
        _ => {
            t.masks[j] = r.word;
            t.sides[j] = r.small;
            t
        }
    }
}

// The label of a slot, for code 18.
pub(crate) fn label(ls: Labels, r: Record) -> Labels {
    if r.code == 18 {
        return ls.put(Slot(r.place as usize), Label((r.word % 65536) as u16));
    }
    ls
}

// The field of a code from 10 to 17.
pub(crate) fn field(mut t: State, r: Record) -> State {
    let f = t.form;
    let s = t.ties;
    let code = r.code;
    match code {
        10 => {
            t.zero = r.small == 1;
            t
        }
        11 => {
            let p = record::power(r.word);
            t.power = p;
            t
        }
        12 => {
            t.live = r.word;
            t
        }
        13..=15 => {
            t.form = form(f, r);
            t
        }
        16..=17 => {
            t.ties = ties(s, r);
            t
        }
        _ => t,
    }
}

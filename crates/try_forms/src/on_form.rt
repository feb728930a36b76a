// The calls on a form, and digests of what it answers.
use super::record::Record;
use exact::{Eighth, Quarter, Slot};
use form::Form;

// A form that no table has: a phase and turns of any size, and signs that are not symmetric.
fn garbage(r: Record) -> Form {
    let mut f = Form::blank();
    let c = Eighth(r.small);
    f.phase = c;
    for v in 0..64usize {
        f.turns[v] = Quarter(r.small);
        f.signs[v] = try_draw::word(r.word, v as u64);
    }
    f
}

// The form after the call of a code below 8.
pub(crate) fn moved(f: Form, r: Record) -> Form {
    let v = Slot(r.other as usize);
    let k = Quarter(r.small);
    let code = r.code;
    match code {
        0 => Form::blank(),
        1 => garbage(r),
        2 => f.add_phase(Eighth(r.small)),
        3 => f.turn_parity(r.word, k),
        4 => f.cross(r.word, r.other),
        5 => f.clear(v),
        6 => f.turn_replaced(r.word, r.side, k),
        _ => f.eliminate(v, r.word, r.side),
    }
}

// Whether the form is proper.
pub(crate) fn proper(f: Form) -> u64 {
    if form_proper::proper(f) { 1 } else { 0 }
}

// The turns and rows of the slots 0 to 67.
pub(crate) fn slots(before: u64, f: Form) -> u64 {
    let mut h = before;
    for v in 0..68usize {
        let a = f.turn_at(Slot(v));
        h = try_draw::word(try_draw::word(h, a.0 as u64), f.row_at(Slot(v)));
    }
    h
}

// The phases at 16 assignments of stream `n`, every second one of two slots at most.
pub(crate) fn phases(f: Form, n: u64) -> u64 {
    let mut h: u64 = 0;
    for q in 0..16u64 {
        let w = try_draw::word(n, q);
        let pair = bits::single((w % 64) as usize) | bits::single((w / 64 % 64) as usize);
        let e = f.phase_at(if q % 2 == 0 { w } else { pair });
        h = try_draw::word(h, e.0 as u64);
    }
    h
}

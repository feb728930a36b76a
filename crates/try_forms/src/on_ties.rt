// The calls on ties, and digests of what they answer.
use super::record::Record;
use exact::Slot;
use ties::{Tie, Ties};

// Ties that no table has: a count and sides of any size, and any sets.
fn garbage(r: Record) -> Ties {
    let mut t = Ties::none();
    t.count = r.other as usize;
    for j in 0..64usize {
        t.masks[j] = try_draw::word(r.word, j as u64);
        t.sides[j] = r.side;
    }
    t
}

// The ties after the call of a code from 16 to 22.
pub(crate) fn moved(t: Ties, r: Record) -> Ties {
    let i = r.word as usize;
    let v = Slot(r.other as usize);
    let code = r.code;
    match code {
        16 => Ties::none(),
        17 => garbage(r),
        18 => ties_moves::insert(t, r.word, r.side),
        19 => ties_moves::adjoin(t, r.word, r.side),
        20 => ties_moves::mix(t, i, v),
        21 => ties_moves::drop(t, i),
        _ => ties_moves::use_up(t, i, v),
    }
}

// A tie taken into a digest.
fn tie(h: u64, a: Tie) -> u64 {
    try_draw::word(try_draw::word(h, a.mask), a.side as u64)
}

// The tie of a record reduced.
pub(crate) fn reduce(t: Ties, r: Record) -> u64 {
    tie(0, ties_search::reduce(t, r.word, r.side))
}

// Whether the ties are reduced.
pub(crate) fn reduced(t: Ties) -> u64 {
    if ties_reduced::reduced(t) { 1 } else { 0 }
}

// The places 0 to 67, and the ties found by the leads and the bits 0 to 67.
pub(crate) fn places(before: u64, t: Ties) -> u64 {
    let mut h = before;
    for j in 0..68usize {
        h = tie(h, t.tie_at(j));
        h = try_draw::word(h, ties_search::lead_index(t, Slot(j)).unwrap_or(64) as u64);
        h = try_draw::word(h, ties_search::last_with(t, Slot(j)).unwrap_or(64) as u64);
    }
    h
}

// The assignments of ten bits, the lowest, the highest or every seventh, at which the ties hold.
pub(crate) fn holds(t: Ties, kind: u8) -> u64 {
    let m: u64 = match kind {
        0 => 0x00000000000003ff,
        1 => 0xffc0000000000000,
        _ => 0x8102040810204081,
    };
    let mut h: u64 = 0;
    let mut x: u64 = 0;
    for q in 0..1024u64 {
        h = if ties_search::hold_at(t, x) {
            try_draw::word(h, x)
        } else {
            h
        };
        x = std::num::wrapping_sub_u64(x, m) & m;
    }
    h
}

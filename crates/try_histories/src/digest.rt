// Digests: numbers that a difference in what a table answers would change.
use exact::{Amount, Slot};
use labels::Labels;
use state::State;
use table::Table;
use ties::Tie;

// An amount taken into a digest.
fn amount(h: u64, a: Amount) -> u64 {
    match a {
        Amount::Zero => try_draw::word(h, 0x8000000000000000),
        Amount::Some(power, phase) => {
            let sized = try_draw::word(h, lines_words::size(power.0));
            let turns = phase.0 as u64;
            try_draw::word(sized, if power.0 < 0 { !turns } else { turns })
        }
    }
}

// The entry at `x` taken into a digest: the number that refuses it, or what both calls answer.
pub(crate) fn entry(h: u64, t: Table, x: u64) -> u64 {
    match t.entry(x) {
        Err(refusal) => try_draw::word(h, u8::from(refusal) as u64),
        Ok(a) => amount(amount(h, a), t.amount_at(x)),
    }
}

// The entries at all values of the live bits that are looked at, 1024 at most; the other live bits have values of stream `n`.
pub(crate) fn entries(before: u64, t: Table, look: u64, n: u64) -> u64 {
    let live = t.state.live;
    let m = live & look;
    let mut h = before;
    let mut x: u64 = 0;
    for q in 0..1024u64 {
        h = entry(h, t, x | live & !look & try_draw::word(n, q));
        x = std::num::wrapping_sub_u64(x, m) & m;
        if x == 0 {
            return h;
        }
    }
    h
}

// The places of a join.
pub(crate) fn places(places: [u8; 64]) -> u64 {
    let mut h: u64 = 0;
    for v in 0..64usize {
        h = try_draw::word(h, places[v] as u64);
    }
    h
}

// The labels of all slots.
pub(crate) fn labels(ls: Labels) -> u64 {
    let mut h: u64 = 0;
    for v in 0..64usize {
        let l = ls.at(Slot(v));
        h = try_draw::word(h, l.0 as u64);
    }
    h
}

// Every field of a table's state.
pub(crate) fn fields(s: State) -> u64 {
    let f = s.form;
    let t = s.ties;
    let power = s.power;
    let phase = f.phase;
    let mut h = amount(s.live, Amount::Some(power, phase));
    h = try_draw::word(h, t.count as u64);
    for v in 0..64usize {
        let a = f.turns[v];
        let row = f.signs[v];
        let b = Tie {
            mask: t.masks[v],
            side: t.sides[v],
        };
        h = try_draw::word(try_draw::word(h, a.0 as u64), row);
        h = try_draw::word(try_draw::word(h, b.side as u64), b.mask);
    }
    if s.zero { !h } else { h }
}

// The bits that stand where they must not: a slot that is free with a turn, or in a row or a tie; and a lead of two ties.
pub(crate) fn stray(s: State) -> u64 {
    let f = s.form;
    let t = s.ties;
    let mut found: u64 = 0;
    let mut leads: u64 = 0;
    for v in 0..64usize {
        let a = f.turns[v];
        let m = t.masks[v];
        let lead = m & std::num::wrapping_sub_u64(0, m);
        let own = if a.0 == 0 && f.signs[v] == 0 {
            0
        } else {
            1 << v
        };
        found = found | (own | f.signs[v] | m) & !s.live | leads & lead;
        leads = leads | lead;
    }
    found
}

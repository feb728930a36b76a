// A table with its live bits packed in rising order: its live slots are the lowest.
#![tactic(auto)]

ghost use Rattle.std.specs.Prelude.{◌≡◌};
ghost use Rattle.body_pack.specs.Slot.{slot_at, packed_mask};
ghost use Rattle.body_pack.specs.Packed.{packed_form, packed_ties, packed_table};

use exact::Slot;
use form::Form;
use state::State;
use ties::Ties;

// Live slot `i` of a mask, counted from 0 in rising order, and where there is none the place 64, at which every form holds 0, as `packed_form` says it.
fn slot_at(live: u64, i: usize) -> usize
    ensures { result ≡ slot_at live i }
{
    let mut below: usize = 0;
    for v in 0..64usize {
        if bits::digit(live, v) == 1 {
            if below == i {
                return v;
            }
            below += 1;
        }
    }
    64
}

// `m` with its bits at the live slots packed in rising order.
fn packed_mask(live: u64, m: u64) -> u64
    ensures { result ≡ packed_mask live m }
{
    let mut r: u64 = 0;
    let mut i: usize = 0;
    for v in 0..64usize {
        let on = bits::digit(live, v);
        r += bits::only(on, bits::only(bits::digit(m, v), bits::single(i)));
        i += on as usize;
    }
    r
}

// Slot `i` gets the turn and the packed row of live slot `i`.
fn pack_form(f: Form, live: u64) -> Form
    ensures { result ≡ packed_form live f }
{
    Form {
        phase: f.phase,
        turns: std::array::from_fn(|j| f.turn_at(Slot(slot_at(live, j)))),
        signs: std::array::from_fn(|j| packed_mask(live, f.row_at(Slot(slot_at(live, j))))),
    }
}

// Each tie's set packed.
fn pack_ties(mut t: Ties, live: u64) -> Ties
    ensures { result ≡ packed_ties live t }
{
    let masks = std::array::from_fn(|j| packed_mask(live, t.tie_at(j).mask));
    t.masks = masks;
    t
}

// The table with its live bits renumbered in rising order: its live slots are the lowest.
pub fn pack(mut t: State) -> State
    ensures { result ≡ packed_table t }
{
    let live = t.live;
    let f = t.form;
    let s = t.ties;
    t.live = packed_mask(live, live);
    t.form = pack_form(f, live);
    t.ties = pack_ties(s, live);
    t
}

// A table read from the bytes that a caller lends: any bytes are taken.
#![tactic(auto)]

ghost use Rattle.std.specs.Prelude.{◌≡◌, ◌+◌, ◌*◌, ◌≤◌};
ghost use Rattle.fields.specs.Bytes.{number};
ghost use Rattle.fields.specs.Listed.{listed};
ghost use Rattle.image.specs.Inner.Stated.{turn_of, side_of, label_of, form_of, ties_of, state_of, labels_of};
ghost use Rattle.state.specs.Entry.{fresh_table};
ghost use Rattle.labels.specs.Labels.{no_labels};
ghost use Rattle.image_read.specs.Read.{reading, Reads};

use exact::{Eighth, Label, Power, Quarter};
use form::Form;
use labels::Labels;
use state::State;
use ties::Ties;

// What reading a table answers: a refusal's number or 0, its state and its labels; no Result, since `Reads` promises the fresh ones where refused.
#[derive(Clone, Copy)]
pub struct Reading {
    pub refusal: u8,
    pub state: State,
    pub labels: Labels,
}

// The turn of slot v, as a count of quarter turns.
fn turn_of(bs: &[u8], v: usize) -> Quarter
    requires { v ≤ 64 }
    ensures { result ≡ turn_of bs.now v }
{
    Quarter(fields::read_u8(bs, 12 + v))
}

// The turns of all slots.
fn turns_of(bs: &[u8]) -> [Quarter; 64]
    ensures { result ≡ listed 64 (turn_of bs.now) }
{
    std::array::from_fn(|v| turn_of(bs, v))
}

// The 64 numbers of eight bytes from a place on.
fn numbers_of(bs: &[u8], at: usize) -> [u64; 64]
    requires { at ≤ 1293 }
    ensures { result ≡ listed 64 (λ v. number 8 bs.now (at + 8 * v)) }
{
    std::array::from_fn(|v| fields::read_u64(bs, at + 8 * v))
}

// The sides of all places.
fn sides_of(bs: &[u8]) -> [u8; 64]
    ensures { result ≡ listed 64 (side_of bs.now) }
{
    std::array::from_fn(|j| fields::read_u8(bs, 1101 + j))
}

// The label of slot v.
fn label_of(bs: &[u8], v: usize) -> Label
    requires { v ≤ 64 }
    ensures { result ≡ label_of bs.now v }
{
    Label(fields::read_u16(bs, 1165 + 2 * v))
}

// The labels of all slots.
fn labels_of(bs: &[u8]) -> Labels
    ensures { result ≡ labels_of bs.now }
{
    Labels {
        of: std::array::from_fn(|v| label_of(bs, v)),
    }
}

// The form that the bytes state.
fn form_of(bs: &[u8]) -> Form
    ensures { result ≡ form_of bs.now }
{
    Form {
        phase: Eighth(fields::read_u8(bs, 1)),
        turns: turns_of(bs),
        signs: numbers_of(bs, 76),
    }
}

// The ties that the bytes state.
fn ties_of(bs: &[u8]) -> Ties
    ensures { result ≡ ties_of bs.now }
{
    Ties {
        count: fields::read_u8(bs, 588) as usize,
        masks: numbers_of(bs, 589),
        sides: sides_of(bs),
    }
}

// The state that the bytes state.
fn state_of(bs: &[u8]) -> State
    ensures { result ≡ state_of bs.now }
{
    State {
        zero: fields::read_u8(bs, 0) == 1,
        power: Power(body_bytes::power_of(bs)),
        live: fields::read_u64(bs, 4),
        form: form_of(bs),
        ties: ties_of(bs),
    }
}

// A refusal's number beside the fresh state and no labels.
fn refused(n: u8) -> Reading
    ensures { result ≡ reading n fresh_table no_labels }
{
    Reading {
        refusal: n,
        state: state_steps::fresh(),
        labels: Labels::none(),
    }
}

// The table that the bytes are, refused by 13 where they are not 1,293 and by 12 where they are those of no normal table.
pub fn read(bs: &[u8]) -> Reading
    ensures { Reads bs.now result }
{
    if bs.len() != image::BYTES {
        return refused(exact::AREA_SHORT);
    }
    if bs[0] > 1 {
        return refused(exact::NOT_NORMAL);
    }
    let t = state_of(bs);
    let ls = labels_of(bs);
    if !state_normal::normal(t) || !ls.proper(t.live) {
        return refused(exact::NOT_NORMAL);
    }
    Reading {
        refusal: 0,
        state: t,
        labels: ls,
    }
}

// A table's body in a book, read into a table.
#![tactic(auto)]

ghost use Rattle.std.specs.Prelude.{false, ◌≡◌, ◌≤◌, ◌-◌, ◌^◌};
ghost use Rattle.body_bytes.specs.Body.{tie_count, body_fault};
ghost use Rattle.body_read.specs.Inner.Padded.{Padded};
ghost use Rattle.body_read.specs.Table.{quarter_of, form_of, ties_of, table_of};
ghost use Rattle.body_read.specs.Read.{Reads};

use exact::{Eighth, Power, Quarter};
use form::Form;
use state::State;
use ties::Ties;

// What reading a body answers: a refusal's number or 0, and the table; no Result, since the documents promise the fresh table where refused (`fault` and `broken` of `Reads`).
#[derive(Clone, Copy)]
pub struct Reading {
    pub refusal: u8,
    pub table: State,
}

// ---- The table, of a body that is not refused by 11.
// The turn of slot v, as a count of quarter turns.
fn quarter_of(bs: &[u8], v: u8) -> Quarter
    ensures { result ≡ quarter_of bs.now v }
{
    Quarter(body_bytes::turn_of(bs, v))
}

// 64 places: what a function says of the first n, and a value that fills the rest.
fn padded<T: Copy, F: Fn(u8) -> T>(rest: T, n: u8, f: F) -> [T; 64]
    requires { F.IsAlwaysCallable f }
    ensures { Padded (λ v r. F.post f v r) rest n result }
{
    std::array::from_fn(|v| if v < n as usize { f(v as u8) } else { rest })
}

// The form.
fn form_of(bs: &[u8], width: u8) -> Form
    requires { width ≤ 64 }
    ensures { result ≡ form_of width bs.now }
{
    Form {
        phase: Eighth(fields::read_u8(bs, 1)),
        turns: padded(Quarter(0), width, |v| quarter_of(bs, v)),
        signs: padded(0, width, |v| body_bytes::row_of(bs, width, v)),
    }
}

// The ties.
fn ties_of(bs: &[u8], width: u8) -> Ties
    requires { tie_count width bs.now ≤ 64 }
    ensures { result ≡ ties_of width bs.now }
{
    let k = body_bytes::count_of(bs, width);
    Ties {
        count: k as usize,
        masks: padded(0, k, |j| body_bytes::mask_of(bs, width, j)),
        sides: padded(0, k, |j| body_bytes::side_of(bs, width, j)),
    }
}

// The live slots: those below the width.
fn live_of(width: u8) -> u64
    requires { width ≤ 64 }
    ensures { result ≡ 2 ^ width - 1 }
{
    if width < 64 {
        (1u64 << width) - 1
    } else {
        0xFFFF_FFFF_FFFF_FFFF
    }
}

// The table that the bytes state.
fn table_of(bs: &[u8], width: u8) -> State
    requires { body_fault width bs.now ≡ false }
    ensures { result ≡ table_of width bs.now }
{
    State {
        zero: fields::read_u8(bs, 0) == 1,
        power: Power(body_bytes::power_of(bs)),
        live: live_of(width),
        form: form_of(bs, width),
        ties: ties_of(bs, width),
    }
}

// A body of this width read: refused by 11, refused by 12 where its table is not normal, or the table.
pub fn read(bs: &[u8], width: u8) -> Reading
    ensures { Reads width bs.now result }
{
    if body_fault::fault(bs, width) {
        return Reading {
            refusal: exact::BAD_BODY,
            table: state_steps::fresh(),
        };
    }
    let t = table_of(bs, width);
    if !state_normal::normal(t) {
        return Reading {
            refusal: exact::NOT_NORMAL,
            table: state_steps::fresh(),
        };
    }
    Reading {
        refusal: 0,
        table: t,
    }
}

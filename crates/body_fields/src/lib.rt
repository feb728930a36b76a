// Inner: the fields of a table's body, written one behind the other into a lent part. Asks of its callers a part that is long enough, and fields in range.
#![tactic(auto)]

ghost use Rattle.std.specs.Prelude.{◌≡◌, [], ◌∷◌, ◌*◌, ◌≤◌, length};
ghost use Rattle.fields.specs.Bytes.{le, front};
ghost use Rattle.form.specs.Form.{turn_at, row_at};
ghost use Rattle.ties.specs.Ties.{mask_at, side_at};
ghost use Rattle.state.specs.Normal.{InRange};
ghost use Rattle.body_fields.specs.Fields.{joined, mark, of_signed16, head_bytes, tie_bytes};
ghost use Rattle.body_fields.specs.Inner.Fields.{plain_bytes, Fitting};

use exact::{Eighth, Power, Slot};
use form::Form;
use state::State;
use ties::{Tie, Ties};

// The zero mark as a byte.
fn mark_byte(zero: bool) -> u8
    ensures { result ≡ mark zero }
{
    u8::from(zero)
}

// A power in 16 bits, two's complement.
fn signed_bits(s: i32) -> u16
    requires { InRange s }
    ensures { result ≡ of_signed16 s }
{
    (s as i16).cast_unsigned()
}

// The zero mark, the phase and the power at the front of the part.
pub fn write_head(part: &mut [u8], zero: bool, c: Eighth, s: Power)
    requires { InRange s.0 × (4 ≤ length part.old) }
    ensures { part.new ≡ front part.old (head_bytes zero c.0 s.0) }
{
    fields::write_u8(part, mark_byte(zero));
    fields::write_u8(&mut part[1..], c.0);
    fields::write_u16(&mut part[2..], signed_bits(s.0));
}

// The turns of the first `n` slots at the front of the part.
pub fn write_turns(part: &mut [u8], f: Form, n: usize)
    requires { n ≤ length part.old }
    ensures { part.new ≡ front part.old (joined n (λ i. turn_at f i ∷ [])) }
{
    for i in 0..n {
        let a = f.turn_at(Slot(i));
        fields::write_u8(&mut part[i..], a.0);
    }
}

// The rows of the first `n` slots at the front of the part.
pub fn write_rows(part: &mut [u8], f: Form, n: usize)
    requires { (n ≤ 64) × (8 * n ≤ length part.old) }
    ensures { part.new ≡ front part.old (joined n (λ i. le 8 (row_at f i))) }
{
    for i in 0..n {
        let at = 8 * i;
        let b = f.row_at(Slot(i));
        fields::write_u64(&mut part[at..], b);
    }
}

// A tie's set and its r at the front of the part.
fn write_tie(part: &mut [u8], a: Tie)
    requires { 9 ≤ length part.old }
    ensures { part.new ≡ front part.old (tie_bytes a.mask a.side) }
{
    fields::write_u64(part, a.mask);
    fields::write_u8(&mut part[8..], a.side);
}

// The first `k` ties at the front of the part.
fn write_ties(part: &mut [u8], t: Ties, k: usize)
    requires { (k ≤ 64) × (9 * k ≤ length part.old) }
    ensures { part.new ≡ front part.old (joined k (λ j. tie_bytes (mask_at t j) (side_at t j))) }
{
    for j in 0..k {
        let at = 9 * j;
        let a = t.tie_at(j);
        write_tie(&mut part[at..], a);
    }
}

// The body of a table whose live slots are 0 to `n` − 1, at the front of the part.
pub fn write_fields(part: &mut [u8], t: State, n: usize)
    requires { Fitting part.old n t }
    ensures { part.new ≡ front part.old (plain_bytes n t) }
{
    let zero = t.zero;
    let s = t.power;
    let f = t.form;
    let c = f.phase;
    let ties = t.ties;
    let k = ties.count;
    write_head(part, zero, c, s);
    write_turns(&mut part[4..], f, n);
    let rows = 4 + n;
    write_rows(&mut part[rows..], f, n);
    let count = rows + 8 * n;
    fields::write_u8(&mut part[count..], k as u8);
    let rest = count + 1;
    write_ties(&mut part[rest..], ties, k);
}

// Inner: the bytes of a table written into a lent part. Asks of its callers a normal table and a part of 1,293 bytes.
#![tactic(auto)]

ghost use Rattle.std.specs.Prelude.{◌≡◌, [], ◌∷◌, ◌≤◌, length};
ghost use Rattle.fields.specs.Bytes.{le, front};
ghost use Rattle.ties.specs.Ties.{mask_at, side_at};
ghost use Rattle.state.specs.Normal.{Normal};
ghost use Rattle.labels.specs.Labels.{label_at};
ghost use Rattle.body_fields.specs.Fields.{joined};
ghost use Rattle.image.specs.Image.{image_size, image_bytes};
ghost use Rattle.image.specs.Inner.Halves.{form_bytes, tie_bytes};

use exact::Slot;
use labels::Labels;
use state::State;
use ties::Ties;

// ---- The lists. Each has its loop, as in body_fields: one writer that takes the field would be no plainer, since the field and its size are all that a loop says.
// The masks of all 64 places at the front of the part.
fn write_masks(part: &mut [u8], t: Ties)
    requires { 512 ≤ length part.old }
    ensures { part.new ≡ front part.old (joined 64 (λ j. le 8 (mask_at t j))) }
{
    for j in 0..64usize {
        let at = 8 * j;
        let a = t.tie_at(j);
        fields::write_u64(&mut part[at..], a.mask);
    }
}

// The sides of all 64 places at the front of the part.
fn write_sides(part: &mut [u8], t: Ties)
    requires { 64 ≤ length part.old }
    ensures { part.new ≡ front part.old (joined 64 (λ j. side_at t j ∷ [])) }
{
    for j in 0..64usize {
        let a = t.tie_at(j);
        fields::write_u8(&mut part[j..], a.side);
    }
}

// The labels of all 64 slots at the front of the part.
fn write_labels(part: &mut [u8], ls: Labels)
    requires { 128 ≤ length part.old }
    ensures { part.new ≡ front part.old (joined 64 (λ v. le 2 (label_at ls v))) }
{
    for v in 0..64usize {
        let at = 2 * v;
        let l = ls.at(Slot(v));
        fields::write_u16(&mut part[at..], l.0);
    }
}

// The bytes up to the rows at the front of the part.
fn write_form(part: &mut [u8], t: State)
    requires { Normal t × (588 ≤ length part.old) }
    ensures { part.new ≡ front part.old (form_bytes t) }
{
    let zero = t.zero;
    let s = t.power;
    let live = t.live;
    let f = t.form;
    let c = f.phase;
    body_fields::write_head(part, zero, c, s);
    fields::write_u64(&mut part[4..], live);
    body_fields::write_turns(&mut part[12..], f, 64);
    body_fields::write_rows(&mut part[76..], f, 64);
}

// The bytes from the tie count on at the front of the part.
fn write_ties(part: &mut [u8], t: State, ls: Labels)
    requires { Normal t × (705 ≤ length part.old) }
    ensures { part.new ≡ front part.old (tie_bytes t ls) }
{
    let ties = t.ties;
    let k = ties.count;
    fields::write_u8(part, k as u8);
    write_masks(&mut part[1..], ties);
    write_sides(&mut part[513..], ties);
    write_labels(&mut part[577..], ls);
}

// The bytes of the table with this state and these labels.
pub fn write(part: &mut [u8], t: State, ls: Labels)
    requires { Normal t × (length part.old ≡ image_size) }
    ensures { part.new ≡ image_bytes t ls }
{
    write_form(part, t);
    write_ties(&mut part[588..], t, ls);
}

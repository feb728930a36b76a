// Editing a book where it stands, at the front of a lent area: a body removed, replaced, or added at the end. Where an edit is refused, no byte is changed.
#![tactic(auto)]

ghost use Rattle.std.specs.Prelude.{◌≡◌};
ghost use Rattle.edit_numbers.specs.Volume.{remove, replace, add};
ghost use Rattle.edit.specs.Edit.{refusal, Edits};
ghost use Rattle.edit.specs.Inner.Settled.{Settleable, Settled};

use edit_plans::Plan;

// What an edit answers: a refusal's number or 0, and the new length of the book, 0 where refused.
#[derive(Clone, Copy)]
pub struct Edited {
    pub refusal: u8,
    pub length: usize,
}

// A refusal: its number, and no length.
fn refused(k: u8) -> Edited
    ensures { result ≡ refusal k }
{
    Edited {
        refusal: k,
        length: 0,
    }
}

// The book of n bytes closed up around a new body, as planned: the bodies first, the contents last.
fn settle(area: &mut [u8], n: usize, p: Plan, body: &[u8]) -> Edited
    requires { Settleable area.old n p body.now }
    ensures { Settled area.old n p body.now result area.new }
{
    let l = p.lists;
    let count = l.count;
    let new = 4 + 8 * count;
    edit_moves::splice(area, n, p.old, new, p.from, p.to, body);
    let kinds = l.kinds;
    let widths = l.widths;
    let lengths = l.lengths;
    let w = contents_lay::lay(
        area,
        p.edition,
        &kinds[..count],
        &widths[..count],
        &lengths[..count],
    );
    Edited {
        refusal: w.refusal,
        length: new + (p.from - p.old) + body.len() + (n - p.to),
    }
}

// Body j of the book in the first n bytes goes.
pub fn remove(area: &mut [u8], n: usize, j: usize) -> Edited
    ensures { Edits area.old n (remove j) result area.new }
{
    let room = area.len();
    if room < n {
        return refused(exact::AREA_SHORT);
    }
    let k = edit_numbers::removal(&area[..n], room, j);
    if k != 0 {
        return refused(k);
    }
    let p = edit_plans::removal(&area[..n], j);
    let none = [0u8; 1];
    settle(area, n, p, &none[..0])
}

// A new body comes in the place of body j of the book in the first n bytes.
pub fn replace(area: &mut [u8], n: usize, j: usize, kind: u8, width: u8, body: &[u8]) -> Edited
    ensures { Edits area.old n (replace j kind width body.now) result area.new }
{
    let room = area.len();
    if room < n {
        return refused(exact::AREA_SHORT);
    }
    let k = edit_numbers::replacement(&area[..n], room, j, kind, width, body);
    if k != 0 {
        return refused(k);
    }
    let p = edit_plans::replacement(&area[..n], j, kind, width, body);
    settle(area, n, p, body)
}

// A new body comes at the end of the book in the first n bytes.
pub fn add(area: &mut [u8], n: usize, kind: u8, width: u8, body: &[u8]) -> Edited
    ensures { Edits area.old n (add kind width body.now) result area.new }
{
    let room = area.len();
    if room < n {
        return refused(exact::AREA_SHORT);
    }
    let k = edit_numbers::addition(&area[..n], room, kind, width, body);
    if k != 0 {
        return refused(k);
    }
    let p = edit_plans::addition(&area[..n], kind, width, body);
    settle(area, n, p, body)
}

// Bytes moved, put and cleared inside one lent area, whatever overlaps. Inner: what is moved, put or cleared lies within the area (`requires`).
#![tactic(auto)]

ghost use Rattle.std.specs.Prelude.{◌+◌, ◌≤◌, length};
ghost use Rattle.edit_moves.specs.Inner.Held.{Holds, of};
ghost use Rattle.edit_moves.specs.Inner.Spliced.{Spliceable, Spliced};

// Bytes put from a place on, one by one: the library's copy between slices would ask whoever links the archive for `memmove`.
fn put(area: &mut [u8], at: usize, body: &[u8])
    requires { at + length body.now ≤ length area.old }
    ensures { Holds (of body.now at) at (at + length body.now) area.old area.new }
{
    for i in 0..body.len() {
        area[at + i] = body[i];
    }
}

// The bytes from `old` up to `from` go to `new`, a body comes behind them, and behind it the bytes from `to` up to the end `n`: zeros follow up to `n`.
pub fn splice(
    area: &mut [u8],
    n: usize,
    old: usize,
    new: usize,
    from: usize,
    to: usize,
    body: &[u8],
)
    requires { Spliceable area.old n old new from to body.now }
    ensures { Spliced area.old n old new from to body.now area.new }
{
    let at = new + (from - old);
    let behind = at + body.len();
    let end = behind + (n - to);
    area.copy_within(old..from, new);
    area.copy_within(to..n, behind);
    put(area, at, body);
    // none where the book grew
    area[end.min(n)..n].fill(0);
}

// A table's body written into a lent area.
#![tactic(auto)]

ghost use Rattle.std.specs.Prelude.{◌≡◌, ◌≤◌, length};
ghost use Rattle.fields.specs.Bytes.{front};
ghost use Rattle.state.specs.Normal.{Normal};
ghost use Rattle.body_write.specs.Body.{body_bytes};
ghost use Rattle.body_write.specs.Write.{BodyWritten};

use state::State;

// What a writer answers: a refusal's number or 0, and the bytes written; no Result, since the documents promise 0 bytes where refused (`nothing` of `BodyWritten`).
#[derive(Clone, Copy)]
pub struct Written {
    pub refusal: u8,
    pub bytes: usize,
}

// The body of a normal table at the front of the part: packed, then written slot by slot.
fn write_body(part: &mut [u8], t: State)
    requires { Normal t × (length (body_bytes t) ≤ length part.old) }
    ensures { part.new ≡ front part.old (body_bytes t) }
{
    let n = bits::count(t.live);
    body_fields::write_fields(part, body_pack::pack(t), n);
}

// How many bytes the body of a normal table is.
fn body_size(t: State) -> usize
    requires { Normal t }
    ensures { result ≡ length (body_bytes t) }
{
    let ties = t.ties;
    5 + 9 * bits::count(t.live) + 9 * ties.count
}

// The body of a table in a lent area, from a start on; where refused, nothing is written.
pub fn write(t: State, area: &mut [u8], start: usize) -> Written
    ensures { BodyWritten t area.old start result area.new }
{
    if !state_normal::normal(t) {
        return Written {
            refusal: exact::NOT_NORMAL,
            bytes: 0,
        };
    }
    let size = body_size(t);
    if area.len() < start || area.len() - start < size {
        return Written {
            refusal: exact::AREA_SHORT,
            bytes: 0,
        };
    }
    write_body(&mut area[start..], t);
    Written {
        refusal: 0,
        bytes: size,
    }
}

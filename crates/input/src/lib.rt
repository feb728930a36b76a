// Inner: a reader read to its end, for the programs that list a book or take records.
#![tactic(auto)]

ghost use Rattle.std.specs.Prelude.{◌≤◌, ◌<◌, ◌≡◌, length, take, IsTrue};
ghost use Rattle.std.specs.Io.KnownBytes.{Consumes, IsAtEnd};

use std::io::Read;

// What was read: how many bytes, and whether the input ended or filled the area (a read that failed did neither).
#[derive(Clone, Copy)]
pub struct Input {
    pub bytes: usize,
    pub whole: bool,
}

// Reads once, into the front of a part.
fn more<R: Read>(reader: &mut R, part: &mut [u8]) -> Input
    ensures within { (result.bytes ≤ length part.new) × (length part.new ≡ length part.old) }
    ensures bytes { Consumes (R.remaining reader.old) (R.remaining reader.new) (take result.bytes part.new) }
    ensures end { IsTrue result.whole → result.bytes ≡ 0 → 0 < length part.new → IsAtEnd (R.remaining reader.new) }
{
    match reader.read(part) {
        Ok(bytes) => Input { bytes, whole: true },
        Err(_) => Input {
            bytes: 0,
            whole: false,
        },
    }
}

// Reads until the input ends, the area is full or a read fails: the bytes that were read stand at its front.
pub fn fill<R: Read>(reader: &mut R, area: &mut [u8]) -> Input
    ensures within { (result.bytes ≤ length area.new) × (result.bytes ≡ length (take result.bytes area.new)) }
    ensures bytes { Consumes (R.remaining reader.old) (R.remaining reader.new) (take result.bytes area.new) }
    ensures end { IsTrue result.whole → result.bytes < length area.new → IsAtEnd (R.remaining reader.new) }
{
    let mut n = 0usize;
    // a cursor: each read moves it on by as many bytes as it gave
    while n < area.len() {
        let got = more(reader, &mut area[n..]);
        let bytes = got.bytes;
        if bytes == 0 {
            return Input {
                bytes: n,
                whole: got.whole,
            };
        }
        n += bytes;
    }
    Input {
        bytes: n,
        whole: true,
    }
}

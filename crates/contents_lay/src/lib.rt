// A book's header and contents laid at the front of a lent area, from three lists.
#![tactic(auto)]

ghost use Rattle.std.specs.Prelude.{◌≡◌, ◌≤◌, length};
ghost use Rattle.fields.specs.Bytes.{front};
ghost use Rattle.contents.specs.Contents.{any_below};
ghost use Rattle.contents_lay.specs.Lay.{header_bytes, entry_bytes, entries_bytes, laid_start, too_many, bad_kind, bad_lists, lay_number, ContentsLaid};
ghost use Rattle.contents_lay.specs.Inner.Entries.{Entries};

// What a writer answers: a refusal's number or 0, and the bytes written.
#[derive(Clone, Copy)]
pub struct Written {
    pub refusal: u8,
    pub bytes: usize,
}

// Whether some kind is none of an edition's.
fn bad_kind(edition: u8, kinds: &[u8]) -> bool
    ensures { result ≡ any_below (length kinds.now) (bad_kind edition kinds.now) }
{
    kinds
        .iter()
        .any(|kind| !contents::good_kind(edition, *kind))
}

// The size of the book: header, contents and bodies of these lengths.
fn book_size(lengths: &[u16]) -> usize
    requires { length lengths.now ≤ 16 }
    ensures { result ≡ laid_start lengths.now (length lengths.now) }
{
    let mut size = 4 + 8 * lengths.len();
    for i in 0..lengths.len() {
        size += lengths[i] as usize;
    }
    size
}

// Whether one of the lists is of more than 16.
#[tactic(auto, unfolding(crate::specs::Lay::too_many))]
fn too_many(kinds: &[u8], widths: &[u8], lengths: &[u16]) -> bool
    ensures { result ≡ too_many kinds.now widths.now lengths.now }
{
    kinds.len() > exact::MOST_BODIES
        || widths.len() > exact::MOST_BODIES
        || lengths.len() > exact::MOST_BODIES
}

// Whether lists of at most 16 are unequal, of a bad kind, or of too many bytes.
#[tactic(auto, unfolding(crate::specs::Lay::bad_lists))]
fn bad_lists(edition: u8, kinds: &[u8], widths: &[u8], lengths: &[u16]) -> bool
    requires { length lengths.now ≤ 16 }
    ensures { result ≡ bad_lists edition kinds.now widths.now lengths.now }
{
    widths.len() != kinds.len()
        || lengths.len() != kinds.len()
        || bad_kind(edition, kinds)
        || book_size(lengths) > exact::MOST_BYTES
}

// The number that refuses to lay these lists in an area of so many bytes, 0 where they are laid.
fn lay_number(room: usize, edition: u8, kinds: &[u8], widths: &[u8], lengths: &[u16]) -> u8
    ensures { result ≡ lay_number room edition kinds.now widths.now lengths.now }
{
    if !editions::good_edition(edition) {
        return exact::BAD_HEADER;
    }
    if too_many(kinds, widths, lengths) {
        return exact::BAD_HEADER;
    }
    if bad_lists(edition, kinds, widths, lengths) {
        return exact::BAD_CONTENTS;
    }
    if room < 4 + 8 * kinds.len() {
        return exact::AREA_SHORT;
    }
    0
}

// The four bytes of the header at the front of the part.
fn write_header(part: &mut [u8], edition: u8, count: u8)
    requires { 4 ≤ length part.old }
    ensures { part.new ≡ front part.old (header_bytes edition count) }
{
    part[0] = 0x51;
    part[1] = 0x4E;
    part[2] = edition;
    part[3] = count;
}

// The eight bytes of an entry at the front of the part.
fn write_entry(part: &mut [u8], kind: u8, width: u8, size: u16, start: u32)
    requires { 8 ≤ length part.old }
    ensures { part.new ≡ front part.old (entry_bytes kind width size start) }
{
    fields::write_u8(part, kind);
    fields::write_u8(&mut part[1..], width);
    fields::write_u16(&mut part[2..], size);
    fields::write_u32(&mut part[4..], start);
}

// The entries at the front of the part, each body starting where the one before it ends.
fn write_entries(part: &mut [u8], kinds: &[u8], widths: &[u8], lengths: &[u16])
    requires { Entries part.old kinds.now widths.now lengths.now }
    ensures { part.new ≡ front part.old (entries_bytes kinds.now widths.now lengths.now (length kinds.now)) }
{
    let mut start = 4 + 8 * lengths.len();
    for j in 0..kinds.len() {
        let at = 8 * j;
        let size = lengths[j];
        write_entry(&mut part[at..], kinds[j], widths[j], size, start as u32);
        start += size as usize;
    }
}

// Header and contents of a book of an edition at the front of a lent area, from three lists; where refused, nothing is written.
pub fn lay(area: &mut [u8], edition: u8, kinds: &[u8], widths: &[u8], lengths: &[u16]) -> Written
    ensures { ContentsLaid area.old edition kinds.now widths.now lengths.now result area.new }
{
    let refusal = lay_number(area.len(), edition, kinds, widths, lengths);
    if refusal != 0 {
        return Written { refusal, bytes: 0 };
    }
    let n = kinds.len();
    write_header(area, edition, n as u8);
    write_entries(&mut area[4..], kinds, widths, lengths);
    Written {
        refusal: 0,
        bytes: 4 + 8 * n,
    }
}

// The number that refuses an edit of a book: found before a byte is changed. Inner: a book that a body is removed from lies within the area (`requires`).
#![tactic(auto)]

ghost use Rattle.std.specs.Prelude.{◌≡◌, ◌+◌, ◌≤◌, length};
ghost use Rattle.edit_numbers.specs.Volume.{remove, replace, add};
ghost use Rattle.edit_numbers.specs.Number.{BookEdit};
ghost use Rattle.edit_numbers.specs.Inner.Tested.{NewNumber, room_number};

// The number that refuses a new body in a book of this edition: its kind, then its own.
fn new_number(edition: u8, kind: u8, width: u8, body: &[u8]) -> u8
    ensures { NewNumber edition kind width body.now result }
{
    if !contents::good_kind(edition, kind) {
        return exact::BAD_CONTENTS;
    }
    book_bodies::own_fault(edition, kind, body, width)
}

// The number that refuses a book of what is kept and a new body, in an area of so many bytes.
fn room_number(room: usize, kept: usize, more: usize) -> u8
    requires { kept ≤ 60008 }
    ensures { result ≡ room_number room (kept + more) }
{
    if more > exact::MOST_BYTES {
        return exact::BAD_CONTENTS;
    }
    let size = kept + more;
    if size > exact::MOST_BYTES {
        return exact::BAD_CONTENTS;
    }
    if size > room {
        return exact::AREA_SHORT;
    }
    0
}

// The number that refuses to remove body j of a book; what is left always has room.
pub fn removal(book: &[u8], room: usize, j: usize) -> u8
    requires { length book.now ≤ room }
    ensures { BookEdit book.now room (remove j) result }
{
    let whole = book::test(book);
    if whole != 0 {
        return whole;
    }
    if j >= contents::count(book) {
        return exact::NO_BODY;
    }
    0
}

// The number that refuses to replace body j of a book in an area of so many bytes.
pub fn replacement(book: &[u8], room: usize, j: usize, kind: u8, width: u8, body: &[u8]) -> u8
    ensures { BookEdit book.now room (replace j kind width body.now) result }
{
    let whole = book::test(book);
    if whole != 0 {
        return whole;
    }
    if j >= contents::count(book) {
        return exact::NO_BODY;
    }
    let own = new_number(contents::edition(book), kind, width, body);
    if own != 0 {
        return own;
    }
    let e = contents::entry_at(book, j);
    let gone = e.length;
    room_number(room, book.len() - gone, body.len())
}

// The number that refuses to add a body at the end of a book in an area of so many bytes.
pub fn addition(book: &[u8], room: usize, kind: u8, width: u8, body: &[u8]) -> u8
    ensures { BookEdit book.now room (add kind width body.now) result }
{
    let whole = book::test(book);
    if whole != 0 {
        return whole;
    }
    let own = new_number(contents::edition(book), kind, width, body);
    if own != 0 {
        return own;
    }
    let full = contents::count(book) >= exact::MOST_BODIES;
    if full {
        return exact::BAD_HEADER;
    }
    room_number(room, book.len() + 8, body.len())
}

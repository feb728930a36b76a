// A whole book tested: header, contents, then its bodies in order.
#![tactic(auto)]

ghost use Rattle.std.specs.Prelude.{◌≡◌, ◌<◌};
ghost use Rattle.contents.specs.Contents.{count_of, contents_number};
ghost use Rattle.book.specs.Book.{BodyNumber, BookNumber};

// The number that refuses body j of a book with good contents, 0 for none.
fn fault_at(book: &[u8], j: usize) -> u8
    requires { (contents_number book.now ≡ 0) × (j < count_of book.now) }
    ensures { BodyNumber book.now j result }
{
    let e = contents::entry_at(book, j);
    let part = &book[e.start..e.start + e.length];
    book_bodies::own_fault(contents::edition(book), e.kind, part, e.width)
}

// The number that refuses a book: header, contents, then bodies in order; 0 where it is good.
pub fn test(book: &[u8]) -> u8
    ensures { BookNumber book.now result }
{
    let front = contents::test(book);
    if front != 0 {
        return front;
    }
    let n = contents::count(book);
    for j in 0..n {
        let k = fault_at(book, j);
        if k != 0 {
            return k;
        }
    }
    0
}

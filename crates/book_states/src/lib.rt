// Inner: bodies of a book read, a table as a state without labels; who hands a table on gives it labels (`book_tables`).
#![tactic(auto)]

ghost use Rattle.std.specs.Prelude.{◌≡◌, ◌<◌};
ghost use Rattle.contents.specs.Contents.{edition_of, count_of, kind_of, width_of, contents_number};
ghost use Rattle.book.specs.Book.{bytes_of};
ghost use Rattle.book_bodies.specs.Answer.{BodyAnswer};
ghost use Rattle.book.specs.Read.{ReadsBody, ReadsStrict};

use book_bodies::Body;

// What body j of a book with good contents answers.
fn body_in(book: &[u8], j: usize) -> Body
    requires { (contents_number book.now ≡ 0) × (j < count_of book.now) }
    ensures { BodyAnswer (edition_of book.now) (kind_of book.now j) (width_of book.now j) (bytes_of book.now j) result }
{
    let e = contents::entry_at(book, j);
    let part = &book[e.start..e.start + e.length];
    book_bodies::own_body(contents::edition(book), e.kind, part, e.width)
}

// Body j of a book, whatever the other bodies are: refused by header or contents, then by 14 where there is no such body, then by its own number.
pub fn read(book: &[u8], j: usize) -> Body
    ensures { ReadsBody book.now j result }
{
    let refusal = contents::test(book);
    if refusal != 0 {
        return book_bodies::refused(refusal);
    }
    if j >= contents::count(book) {
        return book_bodies::refused(exact::NO_BODY);
    }
    body_in(book, j)
}

// Body j of a book of which every body is good: refused by the book's number, then by 14 where there is no such body.
pub fn read_strict(book: &[u8], j: usize) -> Body
    ensures { ReadsStrict book.now j result }
{
    let number = book::test(book);
    if number != 0 {
        return book_bodies::refused(number);
    }
    read(book, j)
}

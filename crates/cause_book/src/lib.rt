// Why a book is refused: its first fault in the documents' order, or that of one of its bodies, with its place in the book.
#![tactic(auto)]

ghost use Rattle.std.specs.Prelude.{◌≡◌, ◌<◌};
ghost use Rattle.contents.specs.Contents.{count_of, contents_number};
ghost use Rattle.cause_book.specs.Why.{why_of, BodyFound, BookWhy, BodyWhy};

use cause::{Cause, Found};

// Why a book, or a body of it, is refused: the body, where the fault is of one, and the fault.
#[derive(Clone, Copy, Debug, PartialEq, Eq)]
pub struct Reason {
    pub body: Option<usize>,
    pub fault: Found,
}

// A fault of a body, or of none, as it is answered.
fn told(body: Option<usize>, f: Result<(), Found>) -> Result<(), Reason>
    ensures { result ≡ why_of body f }
{
    match f {
        Ok(()) => Ok(()),
        Err(fault) => Err(Reason { body, fault }),
    }
}

// The first fault of body j of a book with good contents.
fn body_at(book: &[u8], j: usize) -> Result<(), Found>
    requires { (contents_number book.now ≡ 0) × (j < count_of book.now) }
    ensures { BodyFound book.now j result }
{
    let edition = contents::edition(book);
    let e = contents::entry_at(book, j);
    let from = e.start;
    let to = from + e.length;
    let listed = 5 + 8 * j;
    if e.kind == 1 {
        return cause_circuit::circuit(edition, &book[from..to], e.width, from, listed);
    }
    if e.kind == 3 {
        return cause_circuit::record(&book[from..to], e.width, from, listed);
    }
    cause_table::table(&book[from..to], e.width, from, listed)
}

// The first fault of a book: header, contents, then bodies in order.
pub fn why(book: &[u8]) -> Result<(), Reason>
    ensures { BookWhy book.now result }
{
    told(None, cause_contents::first(book))?;
    for j in 0..contents::count(book) {
        told(Some(j), body_at(book, j))?;
    }
    Ok(())
}

// The first fault of header and contents, or that there is no body j, or the first fault of body j, whatever the other bodies are.
pub fn why_body(book: &[u8], j: usize) -> Result<(), Reason>
    ensures { BodyWhy book.now j result }
{
    told(None, cause_contents::first(book))?;
    if j >= contents::count(book) {
        return told(None, cause::fault(Some(Cause::NoBody), 0, 3));
    }
    told(Some(j), body_at(book, j))
}

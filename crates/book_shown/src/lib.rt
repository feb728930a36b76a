// Inner: bodies of a book for whoever shows them and hands no table on: read from label 0 on, and without their labels.
#![tactic(auto)]

ghost use Rattle.std.specs.Prelude.{◌≡◌};
ghost use Rattle.book.specs.Read.{ReadsBody, ReadsStrict};
ghost use Rattle.book_shown.specs.Inner.Plain.{plain};

use book_bodies::Body;
use exact::Label;

// A body without its table's labels.
fn without(b: book_tables::Body) -> Body
    ensures { result ≡ plain b }
{
    let said = b.said;
    let t = b.table;
    let s = t.state;
    Body {
        said: said,
        table: s,
    }
}

// Body j of a book, whatever the other bodies are: no width passes the last label from 0 on.
pub fn read(book: &[u8], j: usize) -> Body
    ensures { ReadsBody book.now j result }
{
    without(book_tables::read(book, j, Label(0)))
}

// Body j of a book of which every body is good.
pub fn read_strict(book: &[u8], j: usize) -> Body
    ensures { ReadsStrict book.now j result }
{
    without(book_tables::read_strict(book, j, Label(0)))
}

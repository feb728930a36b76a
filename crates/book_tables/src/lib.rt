// Tables of a book as a caller holds them: read with labels from a first one on, and written without.
#![tactic(auto)]

ghost use Rattle.std.specs.Prelude.{◌≡◌};
ghost use Rattle.body_read.specs.Read.{Reads};
ghost use Rattle.book.specs.Read.{ReadsBody, ReadsStrict};
ghost use Rattle.book_tables.specs.Read.{NamesReading, NamesBody, ReadingAs, BodyAs};
ghost use Rattle.book_tables.specs.Write.{TableWritten};

use body_write::Written;
use book_bodies::Said;
use exact::Label;
use labels::Labels;
use state::State;
use table::Table;

// What reading a table's body answers: a refusal's number or 0, and the table; where refused, the fresh one.
#[derive(Clone, Copy)]
pub struct Reading {
    pub refusal: u8,
    pub table: Table,
}

// What reading a body of a book answers; the table is the fresh one unless it was read.
#[derive(Clone, Copy)]
pub struct Body {
    pub said: Said,
    pub table: Table,
}

// A body that was read, its table's slots labelled from `first` on; refused by 3 where a label would pass the last one.
fn name_body(b: book_bodies::Body, first: Label) -> Body
    ensures { NamesBody first.0 b result }
{
    let t = b.table;
    let said = b.said;
    let n = bits::count(t.live);
    if Labels::past(first, n) {
        return Body {
            said: Said::Refused(exact::OUT_OF_RANGE),
            table: Table::fresh(),
        };
    }
    Body {
        said: said,
        table: Table {
            state: t,
            labels: Labels::rising(first, n),
        },
    }
}

// A reading of a table's bytes, its slots labelled from `first` on; refused by 3 where a label would pass the last one.
fn name_reading(b: body_read::Reading, first: Label) -> Reading
    ensures { NamesReading first.0 b result }
{
    let t = b.table;
    let refusal = b.refusal;
    let n = bits::count(t.live);
    if Labels::past(first, n) {
        return Reading {
            refusal: exact::OUT_OF_RANGE,
            table: Table::fresh(),
        };
    }
    Reading {
        refusal: refusal,
        table: Table {
            state: t,
            labels: Labels::rising(first, n),
        },
    }
}

// A table's body of this width, slot i labelled `first` plus i: refused by the body's own number, then by 3.
pub fn read_bytes(bs: &[u8], width: u8, first: Label) -> Reading
    ensures { ReadingAs (Reads width bs.now) first.0 result }
{
    name_reading(body_read::read(bs, width), first)
}

// Body j of a book, whatever the other bodies are, slot i of a table labelled `first` plus i: refused as the book's reading is, then by 3.
pub fn read(book: &[u8], j: usize, first: Label) -> Body
    ensures { BodyAs (ReadsBody book.now j) first.0 result }
{
    name_body(book_states::read(book, j), first)
}

// Body j of a book of which every body is good: refused as the strict reading is, then by 3.
pub fn read_strict(book: &[u8], j: usize, first: Label) -> Body
    ensures { BodyAs (ReadsStrict book.now j) first.0 result }
{
    name_body(book_states::read_strict(book, j), first)
}

// The body of a table, without its labels, in a lent area from a start on; where refused, nothing is written.
pub fn write(t: Table, area: &mut [u8], start: usize) -> Written
    ensures { TableWritten t area.old start result area.new }
{
    let s = t.state;
    let ls = t.labels;
    if !ls.proper(s.live) {
        return Written {
            refusal: exact::NOT_NORMAL,
            bytes: 0,
        };
    }
    body_write::write(s, area, start)
}

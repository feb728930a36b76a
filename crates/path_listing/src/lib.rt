// The listing of the paths of a book, written into a lent area: each table's paths added up, and its bits summed away.
#![tactic(auto)]

ghost use Rattle.std.specs.Prelude.{◌≡◌};
ghost use Rattle.contents.specs.Contents.{contents_number};
ghost use Rattle.path_listing.specs.Listing.{PathsListed};
ghost use Rattle.path_listing.specs.Inner.Tables.{BodyLined, TablesListed};

use book_bodies::{Body, Said};
use lines_words::Text;

// The line of body j; only a table has one.
fn body_line(text: &mut Text, j: u8, b: Body)
    ensures { BodyLined text.old j b text.new }
{
    let t = b.table;
    let s = b.said;
    match s {
        Said::Refused(_) => {}
        Said::Circuit(_) => {}
        Said::Record(_) => {}
        Said::Whole => {
            let paths = path_sum::sum(t).map_err(u8::from);
            let summed = path_away::away(t);
            path_lines::path_line(text, j, paths, summed);
        }
    }
}

// The first line and the line of each table of a book with good contents.
fn list_tables(book: &[u8], text: &mut Text)
    requires { contents_number book.now ≡ 0 }
    ensures { TablesListed book.now text.old text.new }
{
    let n = contents::count(book);
    lines::book_line(text, n as u8);
    for j in 0..n {
        let b = book_shown::read(book, j);
        body_line(text, j as u8, b);
    }
}

// The listing of the paths of a book, all or nothing, at the front of an area. Answers its length; what lies beyond the area's end is dropped, and counted all the same.
pub fn list(book: &[u8], area: &mut [u8]) -> usize
    ensures { PathsListed book.now area.old area.new result }
{
    let mut text = Text::over(area);
    let number = book::test(book);
    if number != 0 {
        lines::refused_line(&mut text, number);
        return text.place();
    }
    list_tables(book, &mut text);
    text.place()
}

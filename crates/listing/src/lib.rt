// The listing of a book, written into a lent area.
#![tactic(auto)]

ghost use Rattle.std.specs.Prelude.{◌≡◌};
ghost use Rattle.contents.specs.Contents.{contents_number};
ghost use Rattle.listing.specs.Listing.{Listed, ListedStrict};
ghost use Rattle.listing.specs.Inner.Bodies.{BodiesListed};

use lines_words::Text;

// The first line and the line of each body of a book with good contents.
fn list_bodies(book: &[u8], text: &mut Text)
    requires { contents_number book.now ≡ 0 }
    ensures { BodiesListed book.now text.old text.new }
{
    let n = contents::count(book);
    lines::book_line(text, n as u8);
    for j in 0..n {
        let b = book_shown::read(book, j);
        listing_line::body_line(text, j as u8, b);
    }
}

// The listing of a book at the front of an area, with a line for each body, refused or not. Answers its length; what lies beyond the area's end is dropped, and counted all the same.
pub fn list(book: &[u8], area: &mut [u8]) -> usize
    ensures { Listed book.now area.old area.new result }
{
    let mut text = Text::over(area);
    let front = contents::test(book);
    if front != 0 {
        lines::refused_line(&mut text, front);
        return text.place();
    }
    list_bodies(book, &mut text);
    text.place()
}

// The listing of a book, all or nothing: where any of its bodies is refused, the single line says by which number.
pub fn list_strict(book: &[u8], area: &mut [u8]) -> usize
    ensures { ListedStrict book.now area.old area.new result }
{
    let mut text = Text::over(area);
    let number = book::test(book);
    if number != 0 {
        lines::refused_line(&mut text, number);
        return text.place();
    }
    list_bodies(book, &mut text);
    text.place()
}

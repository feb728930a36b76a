// The text of a listing, line by line, written as bytes into a lent area.
#![tactic(auto)]

ghost use Rattle.lines_words.specs.Inner.Writer.{Lays};
ghost use Rattle.lines_words.specs.Text.{letters};
ghost use Rattle.lines.specs.Lines.{named_line, book_line, amount_text, circuit_line, counts_text, table_line, chance_text, record_line, refused_line, refused_body_line};

use exact::{Amount, Chance};
use lines_words::Text;

// The end of a line.
fn end_line(text: &mut Text)
    ensures { Lays text.old (letters "\n") text.new }
{
    text.word(b"\n")
}

// A word, a number and the newline.
fn named_line(text: &mut Text, word: &[u8], n: u8)
    ensures { Lays text.old (named_line word.now n) text.new }
{
    text.word(word);
    text.number(n as u64);
    end_line(text);
}

// The first line: `book` and the count.
pub fn book_line(text: &mut Text, count: u8)
    ensures { Lays text.old (book_line count) text.new }
{
    named_line(text, b"book ", count);
}

// An amount: `zero`, or its power and its phase.
pub fn put_amount(text: &mut Text, a: Amount)
    ensures { Lays text.old (amount_text a) text.new }
{
    match a {
        Amount::Zero => text.word(b"zero"),
        Amount::Some(power, phase) => {
            text.signed(power.0);
            text.word(b" ");
            text.number(phase.0 as u64);
        }
    }
}

// A table's counts, each with the blank behind it: its live bits, and its ties unless it is zero.
fn put_counts(text: &mut Text, live: usize, ties: usize, a: Amount)
    ensures { Lays text.old (counts_text live ties a) text.new }
{
    text.number(live as u64);
    text.word(b" ");
    match a {
        Amount::Zero => {}
        Amount::Some(_, _) => {
            text.number(ties as u64);
            text.word(b" ");
        }
    }
}

// A circuit's line: its number, `C`, and its amount.
pub fn circuit_line(text: &mut Text, j: u8, a: Amount)
    ensures { Lays text.old (circuit_line j a) text.new }
{
    text.number(j as u64);
    text.word(b" C ");
    put_amount(text, a);
    // Written here, so that an edit can take the newline from this line alone.
    text.word(b"\n");
}

// A table's line: its number, `T`, its counts, and its amount.
pub fn table_line(text: &mut Text, j: u8, live: usize, ties: usize, a: Amount)
    ensures { Lays text.old (table_line j live ties a) text.new }
{
    text.number(j as u64);
    text.word(b" T ");
    put_counts(text, live, ties, a);
    put_amount(text, a);
    end_line(text);
}

// A chance: `none`, or the power of two that it is one over.
fn put_chance(text: &mut Text, c: Chance)
    ensures { Lays text.old (chance_text c) text.new }
{
    match c {
        Chance::Never => text.word(b"none"),
        Chance::OneOver(e) => text.number(e as u64),
    }
}

// A record's line: its number, `R`, and its chance.
pub fn record_line(text: &mut Text, j: u8, c: Chance)
    ensures { Lays text.old (record_line j c) text.new }
{
    text.number(j as u64);
    text.word(b" R ");
    put_chance(text, c);
    end_line(text);
}

// The single line of a refused book: `refused` and the number.
pub fn refused_line(text: &mut Text, n: u8)
    ensures { Lays text.old (refused_line n) text.new }
{
    named_line(text, b"refused ", n);
}

// The line of a refused body: its number, `refused` and the number of refusal.
pub fn refused_body_line(text: &mut Text, j: u8, n: u8)
    ensures { Lays text.old (refused_body_line j n) text.new }
{
    text.number(j as u64);
    named_line(text, b" refused ", n);
}

// The lines of the listing of paths, written as bytes into a lent area.
#![tactic(auto)]

ghost use Rattle.lines_words.specs.Inner.Writer.{Lays};
ghost use Rattle.path_lines.specs.Lines.{refused_text, four_text, paths_text, summed_text, path_line};

use exact::Answer;
use lines_words::Text;
use path_sum::{Four, PathSum};

// A refusal in the place of a half: `refused` and the number.
fn put_refused(text: &mut Text, n: u8)
    ensures { Lays text.old (refused_text n) text.new }
{
    text.word(b"refused ");
    text.number(n as u64);
}

// The four numbers, with blanks between them.
fn put_four(text: &mut Text, f: Four)
    ensures { Lays text.old (four_text f) text.new }
{
    text.signed(f.c0);
    text.word(b" ");
    text.signed(f.c1);
    text.word(b" ");
    text.signed(f.c2);
    text.word(b" ");
    text.signed(f.c3);
}

// The first half: the four numbers and the power, or a refusal.
fn put_paths(text: &mut Text, r: Result<PathSum, u8>)
    ensures { Lays text.old (paths_text r) text.new }
{
    match r {
        Err(n) => put_refused(text, n),
        Ok(sum) => {
            put_four(text, sum.four);
            text.word(b" ");
            text.signed(sum.power.0);
        }
    }
}

// The second half: what is left once the bits are summed away, or a refusal.
fn put_summed(text: &mut Text, a: Answer)
    ensures { Lays text.old (summed_text a) text.new }
{
    match a {
        Answer::Refused(n) => put_refused(text, n),
        Answer::Is(m) => lines::put_amount(text, m),
    }
}

// A table's line: its number and both halves.
pub fn path_line(text: &mut Text, j: u8, r: Result<PathSum, u8>, a: Answer)
    ensures { Lays text.old (path_line j r a) text.new }
{
    text.number(j as u64);
    text.word(b" ");
    put_paths(text, r);
    text.word(b" ");
    put_summed(text, a);
    text.word(b"\n");
}

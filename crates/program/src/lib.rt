// Inner: what the programs that read a book share: the book from standard input, a listing of it to standard output, and what they say on standard error. Where a message cannot be written nobody can be told. Asks of its callers a listing that may always be called and answers no more than the length of the area that it is laid over.
#![tactic(auto)]

ghost use Rattle.std.specs.Prelude.{◌≡◌, ◌≤◌, ◌<◌, ℕ, List, IfSome, IsNone, OnOk, length, take};
ghost use Rattle.std.specs.Io.KnownBytes.{Appends, Consumes, IsAtEnd};

use std::io;
use std::io::{IsTerminal, Read, Write};

// What a program says of its input: what it waits for, and that a read failed. Each is a whole message, so that one call writes it.
#[derive(Clone, Copy)]
pub struct Messages<'a> {
    pub waits: &'a [u8],
    pub unread: &'a [u8],
}

// Someone who starts a program at a terminal learns what it waits for.
fn hint(waits: &[u8], input: &impl IsTerminal, errors: &mut impl Write) {
    if input.is_terminal() {
        let _ = errors.write_all(waits);
    }
}

// What an input holds to its end, or as much of it as an area does, at the area's front. Where a read failed there is no book, and standard error says so.
pub fn book<'a, R: Read + IsTerminal>(
    messages: &Messages<'_>,
    input: &mut R,
    errors: &mut impl Write,
    area: &'a mut [u8],
) -> Option<&'a [u8]>
    ensures bytes { IfSome result (λ book. Consumes (R.Read.remaining input.old) (R.Read.remaining input.new) book.now) }
    ensures end { IfSome result (λ book. length book.now < length area.old → IsAtEnd (R.Read.remaining input.new)) }
{
    hint(messages.waits, input, errors);
    let read = input::fill(input, area);
    if read.whole {
        return Some(&area[..read.bytes]);
    }
    let _ = errors.write_all(messages.unread);
    None
}

// The listing of a book, laid over an area and written to its end.
fn list<W: Write, F: Fn(&[u8], &mut [u8]) -> usize>(
    out: &mut W,
    book: &[u8],
    text: &mut [u8],
    listing: F,
) -> io::Result<()>
    requires callable { F.IsAlwaysCallable listing }
    requires within { (b : _) (t : _) (n : _) (u : _) → length t.now ≡ length text.old → F.post listing b t n u → n ≤ length text.old }
    ensures { (n : _) × (b : _) × (t : _) × (u : _) × (b.now ≡ book.now) × (t.now ≡ text.old) × F.post listing b t n u × (u.now ≡ text.new) × OnOk result (Appends (W.contents out.old) (W.contents out.new) (take n text.new)) }
{
    let n = listing(book, text);
    out.write_all(&text[..n])
}

// A write that failed is told on standard error, as a read is.
fn said(unwritten: &[u8], written: &io::Result<()>, errors: &mut impl Write) {
    if written.is_err() {
        let _ = errors.write_all(unwritten);
    }
}

// A program that reads a book and writes its listing, with an area as long as the longest. That a book has more than 60,000 bytes is all that matters of a longer one. Answers what came of the write, and nothing where a read failed.
pub fn run<R: Read + IsTerminal, W: Write, F: Fn(&[u8], &mut [u8]) -> usize>(
    messages: &Messages<'_>,
    unwritten: &[u8],
    input: &mut R,
    out: &mut W,
    errors: &mut impl Write,
    text: &mut [u8],
    listing: F,
) -> Option<io::Result<()>>
    requires callable { F.IsAlwaysCallable listing }
    requires within { (b : _) (t : _) (n : _) (u : _) → length t.now ≡ length text.old → F.post listing b t n u → n ≤ length text.old }
    ensures listed { IfSome result (λ written. (book : List ℕ) × Consumes (R.Read.remaining input.old) (R.Read.remaining input.new) book × (length book < 60001 → IsAtEnd (R.Read.remaining input.new)) × (n : _) × (b : _) × (t : _) × (u : _) × (b.now ≡ book) × (t.now ≡ text.old) × F.post listing b t n u × (u.now ≡ text.new) × OnOk written (Appends (W.contents out.old) (W.contents out.new) (take n text.new))) }
    ensures unread { IsNone result → (W.contents out.new ≡ W.contents out.old) × (text.new ≡ text.old) }
{
    let mut area = [0u8; 60001];
    let read = book(messages, input, errors, &mut area)?;
    let written = list(out, read, text, listing);
    said(unwritten, &written, errors);
    Some(written)
}

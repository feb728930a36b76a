// The parts of a line.
use exact::Refusal;
use state::Rule;
use std::io;
use std::io::Write;

// A spread: the number that refused it, the word for none, or the exponent.
pub(crate) fn spread(out: &mut impl Write, s: Result<Option<usize>, Refusal>) -> io::Result<()> {
    match s {
        Err(refusal) => {
            out.write_all(b"refused ")?;
            output::spaced(out, u8::from(refusal) as u64)
        }
        Ok(None) => out.write_all(b"none "),
        Ok(Some(e)) => output::spaced(out, e as u64),
    }
}

// A case.
pub(crate) fn rule(out: &mut impl Write, r: Rule) -> io::Result<()> {
    match r {
        Rule::None => out.write_all(b"none "),
        Rule::Tied => out.write_all(b"tied "),
        Rule::Odd => out.write_all(b"odd "),
        Rule::NewTie => out.write_all(b"new-tie "),
        Rule::Free => out.write_all(b"free "),
        Rule::Vanished => out.write_all(b"vanished "),
    }
}

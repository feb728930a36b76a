// Calls on a form and on ties, read from standard input, with any numbers. For each a line: a field, whether what comes out is proper or reduced, and a digest of what it
// answers then. The script tests/try_forms.py writes the calls, and from plain sums what must be printed.
#![tactic(auto)]

mod on_form;
mod on_ties;
mod record;

use form::Form;
use record::Record;
use std::io;
use std::io::Write;
use ties::Ties;

// More records than any input has.
const MOST: u64 = 100000;

// The line of a form: its phase and phases, and unless it is brief its shape.
fn show_form(out: &mut impl Write, f: Form, brief: u8, n: u64) -> io::Result<()> {
    let c = f.phase;
    let h = on_form::phases(f, n);
    output::spaced(out, c.0 as u64)?;
    if brief == 1 {
        return output::digest(out, h);
    }
    output::spaced(out, on_form::proper(f))?;
    output::digest(out, on_form::slots(h, f))
}

// The line of ties.
fn show_ties(out: &mut impl Write, t: Ties, kind: u8) -> io::Result<()> {
    output::spaced(out, t.count as u64)?;
    output::spaced(out, on_ties::reduced(t))?;
    output::digest(out, on_ties::places(on_ties::holds(t, kind), t))
}

// The ties after a record, or the line of a tie that they reduce.
fn ties_after(out: &mut impl Write, t: Ties, r: Record) -> io::Result<Ties> {
    if r.code == 23 {
        output::digest(out, on_ties::reduce(t, r))?;
        return Ok(t);
    }
    let after = on_ties::moved(t, r);
    show_ties(out, after, r.small)?;
    Ok(after)
}

// Record after record, to the end of the input.
fn main(rt: HostRuntime) -> io::Result<()> {
    let out = &mut rt.stdout();
    let mut input = rt.stdin();
    let mut f = Form::blank();
    let mut t = Ties::none();
    for n in 0..MOST {
        let mut bytes = [0u8; record::SIZE];
        if input::fill(&mut input, &mut bytes).bytes < record::SIZE {
            return Ok(());
        }
        let r = record::read(&bytes);
        if r.code < 16 {
            f = on_form::moved(f, r);
            show_form(out, f, r.brief, n)?;
        } else {
            t = ties_after(out, t, r)?;
        }
    }
    Ok(())
}

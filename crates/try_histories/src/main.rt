// Calls read from standard input and made on eight tables. For each a line: the number of refusal, the slot of a new bit, the case of a sum or the places of a join, the spread, whether the fields
// are what they were, whether the table is normal and without stray bits, and digests of its labels and of its entries. The script tests/try_histories.py writes the calls, and from plain sums over bit
// values what must be printed.
#![tactic(auto)]

mod call;
mod case;
mod digest;
mod print;
mod put;
mod record;

use record::Record;
use std::io;
use std::io::Write;
use table::Table;

// More records than any input has.
const MOST: u64 = 100000;

// 0 for a table that is not normal, 1 for one that is and has no stray bits; 2 for one that has some all the same.
fn tidy(t: Table) -> u64 {
    let s = t.state;
    if !t.normal() {
        return 0;
    }
    if digest::stray(s) == 0 { 1 } else { 2 }
}

// The rest of the line of a call on the table `before`; where the entries are asked, the live bits of `look` take all values.
fn show(out: &mut impl Write, before: Table, t: Table, look: u64, n: u64) -> io::Result<()> {
    let s = before.state;
    let after = t.state;
    let spread = t.spread();
    let kept = digest::fields(s) == digest::fields(after)
        && digest::labels(before.labels) == digest::labels(t.labels);
    print::spread(out, spread)?;
    output::spaced(out, if kept { 1 } else { 0 })?;
    output::spaced(out, tidy(t))?;
    output::spaced(out, digest::labels(t.labels) % 4294967296)?;
    let h = try_draw::word(0, after.live);
    output::digest(out, digest::entries(h, t, look, n))
}

// The table after record `n` on it, with a second table beside it.
fn step(
    out: &mut impl Write,
    t: Table,
    other: Table,
    r: Record,
    look: u64,
    n: u64,
) -> io::Result<Table> {
    let code = r.code;
    match code {
        0..=6 => {
            let after = call::made(out, r, t, other)?;
            show(out, t, after, look, n)?;
            Ok(after)
        }
        7 => {
            output::digest(out, digest::entry(0, t, r.word))?;
            Ok(t)
        }
        8 => Ok(other),
        9 => Ok(t),
        _ => {
            let s = t.state;
            let ls = t.labels;
            Ok(Table {
                state: put::field(s, r),
                labels: put::label(ls, r),
            })
        }
    }
}

// Record after record, to the end of the input.
fn main(rt: HostRuntime) -> io::Result<()> {
    let out = &mut rt.stdout();
    let mut input = rt.stdin();
    let fresh = Table::fresh();
    let mut tables = [fresh; 8];
    let mut looks = [0u64; 8];
    for n in 0..MOST {
        let r = record::next(&mut input);
        if r.ended {
            return Ok(());
        }
        let i = (r.table % 8) as usize;
        let j = (r.other % 8) as usize;
        looks[i] = if r.code == 9 { r.word } else { looks[i] };
        let t = tables[i];
        let other = tables[j];
        tables[i] = step(out, t, other, r, looks[i], n)?;
    }
    Ok(())
}

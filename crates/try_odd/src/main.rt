// Two odd sums and nothing else, so that the stack of one can be read off the program (tests/stack): slot 0, with slots 1 and 2 for neighbours, has the turns that standard input says.
#![tactic(auto)]

use exact::{Label, Power, Quarter, Slot};
use form::Form;
use labels::Labels;
use state::State;
use std::io;
use std::io::Write;
use table::{Summed, Table};
use ties::Ties;

// The three slots.
fn three(a: Quarter) -> Table {
    let mut f = Form::blank();
    f.turns[0] = a;
    f.signs[0] = 6;
    f.signs[1] = 1;
    f.signs[2] = 1;
    Table {
        state: State {
            zero: false,
            power: Power(0),
            live: 7,
            form: f,
            ties: Ties::none(),
        },
        labels: Labels::rising(Label(0), 3),
    }
}

// The sum. It is called twice, so that the compiler leaves it a function of its own.
fn summed(t: Table) -> Summed {
    t.sum(Slot(0))
}

// A line: the refusal or 0, the phase, and what is left of slot 1.
fn show(out: &mut impl Write, c: Summed) -> io::Result<()> {
    let s = c.table.state;
    let f = s.form;
    let one = f.turn_at(Slot(1));
    let row = f.row_at(Slot(1));
    out.write_all(b"refusal ")?;
    output::number(out, c.refusal as u64)?;
    out.write_all(b", phase ")?;
    output::number(out, f.phase.0 as u64)?;
    out.write_all(b", slot 1: turn ")?;
    output::number(out, one.0 as u64)?;
    out.write_all(b", row ")?;
    output::number(out, row)?;
    out.write_all(b"\n")
}

fn main(rt: HostRuntime) -> io::Result<()> {
    let out = &mut rt.stdout();
    let mut bytes = [0u8; 2];
    input::fill(&mut rt.stdin(), &mut bytes);
    show(out, summed(three(Quarter(bytes[0]))))?;
    show(out, summed(three(Quarter(bytes[1]))))
}

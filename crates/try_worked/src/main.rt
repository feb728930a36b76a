// The cases of document 01 that are worked by hand, run by the code: a line for each, in that paper's order, with those of both editions, of repeated blocks and of elements by their words, then the spreads of request A1, the cases of request A6 and the turns of request A2. The expected lines are worked by hand.
#![tactic(auto)]

use doubles::Doubles;
use exact::{Amount, Eighth, Label, Power, Quarter, Refusal, Slot};
use state::Rule;
use std::io;
use std::io::Write;
use table::{Changed, Summed, Table};

// An amount: zero, or its power and its phase.
fn show_amount(out: &mut impl Write, a: Amount) -> io::Result<()> {
    match a {
        Amount::Zero => {
            out.write_all(b"zero")?;
        }
        Amount::Some(power, phase) => {
            if power.0 < 0 {
                out.write_all(b"-")?;
            }
            output::number(out, lines_words::size(power.0))?;
            out.write_all(b" ")?;
            output::number(out, phase.0 as u64)?;
        }
    }
    Ok(())
}

// A line: the case, and its answer, or the number that refuses it.
fn show(out: &mut impl Write, name: &[u8], a: Result<Amount, u8>) -> io::Result<()> {
    out.write_all(name)?;
    out.write_all(b": ")?;
    match a {
        Err(number) => {
            out.write_all(b"refused ")?;
            output::number(out, number as u64)?;
        }
        Ok(amount) => show_amount(out, amount)?,
    }
    out.write_all(b"\n")
}

// The amplitude of a circuit, or the number that refuses it.
fn amplitude(edition: u8, width: u8, input: u32, output: u32, gates: &[u8]) -> Result<Amount, u8> {
    circuit::amplitude(edition, width, input, output, gates).map_err(u8::from)
}

// The entry of what a sum left where every bit is 0, or its refusal; the case is dropped, since these lines show the entry alone.
fn outcome(c: Summed) -> Result<Amount, u8> {
    if c.refusal != 0 {
        return Err(c.refusal);
    }
    let t = c.table;
    t.entry(0).map_err(u8::from)
}

// A table with one bit more, whose label is how many there were.
fn wider(t: Table) -> Table {
    let n = t.new_bit(Label(bits::count(t.state.live) as u16));
    n.table
}

// A table with slot `v` turned by `k` quarters.
fn turned(t: Table, v: usize, k: u8) -> Table {
    let c = t.turn(Slot(v), Slot(v), Quarter(k));
    c.table
}

// A table with a sign between two slots.
fn signed(t: Table, u: usize, v: usize) -> Table {
    let c = t.turn(Slot(u), Slot(v), Quarter(2));
    c.table
}

// One bit with a power and a turn.
fn bit(power: i32, k: u8) -> Table {
    let c = Table::fresh().scale(Power(power), Eighth(0));
    turned(wider(c.table), 0, k)
}

// The same, summed.
fn one_bit(power: i32, k: u8) -> Result<Amount, u8> {
    outcome(bit(power, k).sum(Slot(0)))
}

// "Two bits with a sign, each quarter 1, sum both"
fn two_bits() -> Result<Amount, u8> {
    let t = signed(wider(wider(Table::fresh())), 0, 1);
    let c = turned(turned(t, 0, 1), 1, 1).sum(Slot(0));
    let s = c.table;
    outcome(s.sum(Slot(1)))
}

// "Three bits, all three signs, sum all"
fn three_bits() -> Result<Amount, u8> {
    let t = signed(wider(wider(wider(Table::fresh()))), 0, 1);
    let s = signed(signed(t, 0, 2), 1, 2);
    let a = s.sum(Slot(0));
    let b = a.table.sum(Slot(1));
    outcome(b.table.sum(Slot(2)))
}

// "Tie {0,1}=1, then quarter 1 on slot 0": the phase, and the turns of slots 1 and 0.
fn tied(out: &mut impl Write) -> io::Result<()> {
    let c = wider(wider(Table::fresh())).tie(3, 1);
    let t = turned(c.table, 0, 1);
    let form = t.state.form;
    let one = form.turn_at(Slot(1));
    let zero = form.turn_at(Slot(0));
    out.write_all(b"tie 0 1 odd, quarter 1 on slot 0: c=")?;
    output::number(out, form.phase.0 as u64)?;
    out.write_all(b" a_1=")?;
    output::number(out, one.0 as u64)?;
    out.write_all(b" a_0=")?;
    output::number(out, zero.0 as u64)?;
    out.write_all(b"\n")
}

// "Doubles of (−1,1): 0.5 and 0.5."
fn half(out: &mut impl Write) -> io::Result<()> {
    let c = Table::fresh().scale(Power(-1), Eighth(1));
    match c.table.doubles(0) {
        Doubles::Refused(_) => {}
        Doubles::Zero => {}
        Doubles::Value(x, y) => {
            if x == 0.5 {
                if y == 0.5 {
                    out.write_all(b"doubles of -1 1: 0.5 and 0.5\n")?;
                }
            }
        }
    }
    Ok(())
}

// "H on 0, CX 0 1": the four outputs of 00.
fn pair(out: &mut impl Write) -> io::Result<()> {
    let gates = b"\x01\x00\x00\x11\x00\x01";
    show(out, b"H 0, CX 0 1: 00 to 00", amplitude(1, 2, 0, 0, gates))?;
    show(out, b"H 0, CX 0 1: 00 to 01", amplitude(1, 2, 0, 1, gates))?;
    show(out, b"H 0, CX 0 1: 00 to 10", amplitude(1, 2, 0, 2, gates))?;
    show(out, b"H 0, CX 0 1: 00 to 11", amplitude(1, 2, 0, 3, gates))
}

// The circuits of one wire.
fn one_wire(out: &mut impl Write) -> io::Result<()> {
    show(out, b"no gates: 0 to 0", amplitude(1, 1, 0, 0, b""))?;
    show(out, b"no gates: 0 to 1", amplitude(1, 1, 0, 1, b""))?;
    show(out, b"H: 0 to 1", amplitude(1, 1, 0, 1, b"\x01\x00\x00"))?;
    show(
        out,
        b"H, H: 0 to 1",
        amplitude(1, 1, 0, 1, b"\x01\x00\x00\x01\x00\x00"),
    )?;
    show(
        out,
        b"H, S, H: 0 to 0",
        amplitude(1, 1, 0, 0, b"\x01\x00\x00\x02\x00\x00\x01\x00\x00"),
    )?;
    let thrice = b"\x01\x00\x00\x02\x00\x00\x01\x00\x00\x02\x00\x00\x01\x00\x00\x02\x00\x00";
    show(
        out,
        b"H, S three times: 0 to 0",
        amplitude(1, 1, 0, 0, thrice),
    )?;
    show(out, b"Y: 0 to 1", amplitude(1, 1, 0, 1, b"\x06\x00\x00"))?;
    show(out, b"Y: 1 to 0", amplitude(1, 1, 1, 0, b"\x06\x00\x00"))
}

// Code 7 in both editions.
fn editions(out: &mut impl Write) -> io::Result<()> {
    show(
        out,
        b"SX, edition 1: 0 to 0",
        amplitude(1, 1, 0, 0, b"\x07\x00\x00"),
    )?;
    show(
        out,
        b"SX, edition 1: 0 to 1",
        amplitude(1, 1, 0, 1, b"\x07\x00\x00"),
    )?;
    show(
        out,
        b"SX, edition 2: 0 to 0",
        amplitude(2, 1, 0, 0, b"\x07\x00\x00"),
    )?;
    show(
        out,
        b"SX, edition 2: 0 to 1",
        amplitude(2, 1, 0, 1, b"\x07\x00\x00"),
    )?;
    show(out, b"edition 0", amplitude(0, 0, 0, 0, b"\x01\x00"))?;
    show(out, b"edition 3", amplitude(3, 0, 0, 0, b"\x01\x00"))
}

// Repeated blocks: what bodies of edition 2 mean.
fn blocks(out: &mut impl Write) -> io::Result<()> {
    let thrice = b"\x40\x03\x00\x01\x00\x00\x02\x00\x00\x41\x00\x00";
    show(
        out,
        b"three times (H, S): 0 to 0",
        amplitude(2, 1, 0, 0, thrice),
    )?;
    let often = b"\x40\xFF\x00\x05\x00\x00\x41\x00\x00";
    show(out, b"255 times X: 0 to 1", amplitude(2, 1, 0, 1, often))?;
    let nested = b"\x40\x02\x00\x02\x00\x00\x40\x03\x00\x05\x00\x00\x41\x00\x00\x41\x00\x00";
    show(
        out,
        b"twice (S, three times X): 0 to 0",
        amplitude(2, 1, 0, 0, nested),
    )?;
    show(
        out,
        b"twice (S, three times X): 1 to 1",
        amplitude(2, 1, 1, 1, nested),
    )?;
    let deep =
        b"\x40\x01\x00\x40\x01\x00\x40\x01\x00\x40\x01\x00\x40\x01\x00\x40\x01\x00\x40\x01\x00\x40\x01\x00\x05\x00\x00\x41\x00\x00\x41\x00\x00\x41\x00\x00\x41\x00\x00\x41\x00\x00\x41\x00\x00\x41\x00\x00\x41\x00\x00";
    show(
        out,
        b"X in eight blocks: 0 to 1",
        amplitude(2, 1, 0, 1, deep),
    )?;
    let most =
        b"\x40\xFF\x00\x05\x00\x00\x40\xFE\x00\x05\x00\x00\x41\x00\x00\x41\x00\x00\x40\xFF\x00\x05\x00\x00\x41\x00\x00\x40\xFF\x00\x05\x00\x00\x41\x00\x00\x05\x00\x00";
    show(out, b"65,536 times X: 0 to 0", amplitude(2, 1, 0, 0, most))
}

// Blocks that are refused.
fn bad_blocks(out: &mut impl Write) -> io::Result<()> {
    let deep =
        b"\x40\x01\x00\x40\x01\x00\x40\x01\x00\x40\x01\x00\x40\x01\x00\x40\x01\x00\x40\x01\x00\x40\x01\x00\x40\x01\x00\x05\x00\x00\x41\x00\x00\x41\x00\x00\x41\x00\x00\x41\x00\x00\x41\x00\x00\x41\x00\x00\x41\x00\x00\x41\x00\x00\x41\x00\x00";
    show(out, b"X in nine blocks", amplitude(2, 1, 0, 1, deep))?;
    let more =
        b"\x40\xFF\x00\x05\x00\x00\x40\xFE\x00\x05\x00\x00\x41\x00\x00\x41\x00\x00\x40\xFF\x00\x05\x00\x00\x41\x00\x00\x40\xFF\x00\x05\x00\x00\x41\x00\x00\x05\x00\x00\x05\x00\x00";
    show(out, b"65,537 times X", amplitude(2, 1, 0, 0, more))?;
    show(
        out,
        b"a block unclosed",
        amplitude(2, 1, 0, 0, b"\x40\x03\x00\x01\x00\x00"),
    )?;
    show(
        out,
        b"a block unopened",
        amplitude(2, 1, 0, 0, b"\x41\x00\x00"),
    )?;
    show(
        out,
        b"a block empty",
        amplitude(2, 1, 0, 0, b"\x40\x03\x00\x41\x00\x00"),
    )?;
    show(
        out,
        b"a block unopened, then code 9",
        amplitude(2, 1, 0, 0, b"\x41\x00\x00\x09\x00\x00"),
    )?;
    let none = b"\x40\x00\x00\x01\x00\x00\x41\x00\x00";
    show(out, b"a count of 0", amplitude(2, 1, 0, 0, none))?;
    let stray = b"\x40\x03\x01\x01\x00\x00\x41\x00\x00";
    show(
        out,
        b"an opening with a second byte",
        amplitude(2, 1, 0, 0, stray),
    )?;
    let counted = b"\x40\x03\x00\x01\x00\x00\x41\x01\x00";
    show(
        out,
        b"a closing with a count",
        amplitude(2, 1, 0, 0, counted),
    )?;
    let early = b"\x40\x03\x00\x01\x00\x00\x41\x00\x00";
    show(out, b"a block in edition 1", amplitude(1, 1, 0, 0, early))
}

// Elements by their words: HSH, HSSH, HSSHSS, and nothing.
fn elements(out: &mut impl Write) -> io::Result<()> {
    show(
        out,
        b"code 38: 0 to 0",
        amplitude(2, 1, 0, 0, b"\x26\x00\x00"),
    )?;
    show(
        out,
        b"code 44: 0 to 1",
        amplitude(2, 1, 0, 1, b"\x2C\x00\x00"),
    )?;
    show(
        out,
        b"code 55: 0 to 1",
        amplitude(2, 1, 0, 1, b"\x37\x00\x00"),
    )?;
    show(
        out,
        b"code 32: 0 to 0",
        amplitude(2, 1, 0, 0, b"\x20\x00\x00"),
    )?;
    let idle = b"\x40\x03\x00\x20\x00\x00\x41\x00\x00";
    show(
        out,
        b"three times code 32: 0 to 0",
        amplitude(2, 1, 0, 0, idle),
    )?;
    let run = b"\x21\x00\x00\x22\x00\x00\x2B\x00\x00";
    show(
        out,
        b"codes 33 and 34, closed by 43: 0 to 0",
        amplitude(2, 1, 0, 0, run),
    )?;
    show(
        out,
        b"code 32 on no wire, with a second byte",
        amplitude(2, 1, 0, 0, b"\x20\x01\x01"),
    )?;
    show(
        out,
        b"code 32 with a second byte",
        amplitude(2, 1, 0, 0, b"\x20\x00\x01"),
    )?;
    show(
        out,
        b"code 32 in edition 1",
        amplitude(1, 1, 0, 0, b"\x20\x00\x00"),
    )?;
    show(out, b"code 56", amplitude(2, 1, 0, 0, b"\x38\x00\x00"))
}

// A circuit for each number that refuses one.
fn refusals(out: &mut impl Write) -> io::Result<()> {
    show(
        out,
        b"two bytes of gates",
        amplitude(1, 1, 0, 0, b"\x01\x00"),
    )?;
    show(out, b"width 0", amplitude(1, 0, 0, 0, b""))?;
    show(out, b"width 32", amplitude(1, 32, 0, 0, b""))?;
    show(
        out,
        b"an input bit at the width",
        amplitude(1, 1, 2, 0, b""),
    )?;
    show(
        out,
        b"an output bit at the width",
        amplitude(1, 31, 0, 2147483648, b""),
    )?;
    show(out, b"code 8", amplitude(1, 1, 0, 0, b"\x08\x00\x00"))?;
    show(
        out,
        b"H on wire 1 of 1",
        amplitude(1, 1, 0, 0, b"\x01\x01\x00"),
    )?;
    show(
        out,
        b"H with a second byte",
        amplitude(1, 1, 0, 0, b"\x01\x00\x01"),
    )?;
    show(
        out,
        b"CZ on one wire twice",
        amplitude(1, 2, 0, 0, b"\x10\x01\x01"),
    )
}

// A line: the case, and its spread.
fn show_spread(
    out: &mut impl Write,
    name: &[u8],
    s: Result<Option<usize>, Refusal>,
) -> io::Result<()> {
    out.write_all(name)?;
    out.write_all(b": spread ")?;
    match s {
        Err(refusal) => {
            out.write_all(b"refused ")?;
            output::number(out, u8::from(refusal) as u64)?;
        }
        Ok(None) => {
            out.write_all(b"none")?;
        }
        Ok(Some(e)) => {
            output::number(out, e as u64)?;
        }
    }
    out.write_all(b"\n")
}

// How many entries are not zero: after a forbidden outcome, of a fresh table, under a tie, and after a sum that vanished.
fn spreads(out: &mut impl Write) -> io::Result<()> {
    let a = wider(wider(Table::fresh())).tie(3, 0);
    let b = a.table.tie(1, 0);
    let c = b.table.tie(2, 1);
    show_spread(
        out,
        b"tie 0 1 even, tie 0 even, tie 1 odd",
        c.table.spread(),
    )?;
    show_spread(out, b"fresh", Table::fresh().spread())?;
    let d = wider(wider(wider(Table::fresh()))).tie(5, 1);
    show_spread(out, b"three bits, tie 0 2 odd", d.table.spread())?;
    let e = turned(wider(Table::fresh()), 0, 2).sum(Slot(0));
    show_spread(out, b"one bit, quarter 2, sum", e.table.spread())
}

// A line: the sum, and the case that applied, or the refusal, which has none.
fn show_rule(out: &mut impl Write, name: &[u8], c: Summed) -> io::Result<()> {
    out.write_all(name)?;
    out.write_all(b": ")?;
    if c.refusal != 0 {
        out.write_all(b"refused ")?;
        output::number(out, c.refusal as u64)?;
        out.write_all(b", ")?;
    }
    let rule = c.rule;
    match rule {
        Rule::None => {
            out.write_all(b"no case\n")?;
        }
        Rule::Tied => {
            out.write_all(b"case tied\n")?;
        }
        Rule::Odd => {
            out.write_all(b"case odd\n")?;
        }
        Rule::NewTie => {
            out.write_all(b"case new tie\n")?;
        }
        Rule::Free => {
            out.write_all(b"case free\n")?;
        }
        Rule::Vanished => {
            out.write_all(b"case vanished\n")?;
        }
    }
    Ok(())
}

// Which case applied: each of them, a tie before an odd turn, a refused sum, and a table that was zero before.
fn rules(out: &mut impl Write) -> io::Result<()> {
    show_rule(out, b"one bit, quarter 0, sum", bit(0, 0).sum(Slot(0)))?;
    show_rule(out, b"one bit, quarter 1, sum", bit(0, 1).sum(Slot(0)))?;
    show_rule(out, b"one bit, quarter 2, sum", bit(0, 2).sum(Slot(0)))?;
    show_rule(out, b"one bit, quarter 3, sum", bit(0, 3).sum(Slot(0)))?;
    let a = wider(wider(Table::fresh())).tie(3, 0);
    let b = turned(a.table, 1, 1);
    show_rule(
        out,
        b"tie 0 1 even, quarter 1 on slot 1, sum 1",
        b.sum(Slot(1)),
    )?;
    let c = signed(wider(wider(Table::fresh())), 0, 1);
    show_rule(out, b"two bits with a sign, sum 0", c.sum(Slot(0)))?;
    show_rule(
        out,
        b"power 2000, quarter 0, sum",
        bit(2000, 0).sum(Slot(0)),
    )?;
    show_rule(
        out,
        b"power 2000, quarter 2, sum",
        bit(2000, 2).sum(Slot(0)),
    )?;
    let d = wider(Table::fresh()).tie(0, 1);
    show_rule(out, b"zero table, sum", d.table.sum(Slot(0)))?;
    show_rule(out, b"a free slot, sum", bit(0, 0).sum(Slot(1)))
}

// The entry of what a turn left where slots 0 and 1 are 1, or its refusal.
fn both_on(c: Changed) -> Result<Amount, u8> {
    if c.refusal != 0 {
        return Err(c.refusal);
    }
    let t = c.table;
    t.entry(3).map_err(u8::from)
}

// Two bits, and a turn of slots `u` and `v` by `k`.
fn turn(u: usize, v: usize, k: u8) -> Result<Amount, u8> {
    both_on(wider(wider(Table::fresh())).turn(Slot(u), Slot(v), Quarter(k)))
}

// One call for turns and signs: on one slot and on two, 3 before 1 with the slots compared as they are given, and a zero table.
fn turns(out: &mut impl Write) -> io::Result<()> {
    show(out, b"turn 0 0 by 3", turn(0, 0, 3))?;
    show(out, b"turn 0 1 by 2", turn(0, 1, 2))?;
    show(out, b"turn 0 1 by 0", turn(0, 1, 0))?;
    show(out, b"turn 0 2 by 0, slot 2 free", turn(0, 2, 0))?;
    show(out, b"turn 70 70 by 1", turn(70, 70, 1))?;
    show(out, b"turn 0 70 by 1", turn(0, 70, 1))?;
    show(out, b"turn 0 1 by 3", turn(0, 1, 3))?;
    show(out, b"turn 0 0 by 4", turn(0, 0, 4))?;
    let z = wider(wider(Table::fresh())).tie(0, 1);
    show(
        out,
        b"zero table, turn 0 1 by 2",
        both_on(z.table.turn(Slot(0), Slot(1), Quarter(2))),
    )
}

fn main(rt: HostRuntime) -> io::Result<()> {
    let out = &mut rt.stdout();
    one_wire(out)?;
    editions(out)?;
    blocks(out)?;
    bad_blocks(out)?;
    elements(out)?;
    pair(out)?;
    show(out, b"one bit, quarter 0, sum", one_bit(0, 0))?;
    show(out, b"one bit, quarter 1, sum", one_bit(0, 1))?;
    show(out, b"one bit, quarter 2, sum", one_bit(0, 2))?;
    show(out, b"one bit, quarter 3, sum", one_bit(0, 3))?;
    show(
        out,
        b"two bits with a sign, each quarter 1, sum both",
        two_bits(),
    )?;
    show(out, b"three bits, all three signs, sum all", three_bits())?;
    tied(out)?;
    show(out, b"power 2000, quarter 2, sum", one_bit(2000, 2))?;
    show(out, b"power 2000, quarter 1, sum", one_bit(2000, 1))?;
    show(out, b"power 1999, quarter 1, sum", one_bit(1999, 1))?;
    show(out, b"power 1999, quarter 0, sum", one_bit(1999, 0))?;
    half(out)?;
    refusals(out)?;
    spreads(out)?;
    rules(out)?;
    turns(out)
}

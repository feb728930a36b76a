// The cases of request A10 that are worked by hand, run by the code: a line for each. The expected lines are worked by hand.
#![tactic(auto)]

use book_tables::Reading;
use exact::{Label, Slot};
use std::io;
use std::io::Write;
use table::{Joined, Opened, Table};

// A number after its name.
fn show(out: &mut impl Write, name: &[u8], n: u64) -> io::Result<()> {
    out.write_all(name)?;
    output::number(out, n)
}

// What a new bit answers: refusal and slot.
fn show_opened(out: &mut impl Write, name: &[u8], o: Opened) -> io::Result<()> {
    out.write_all(name)?;
    show(out, b": refusal ", o.refusal as u64)?;
    show(out, b", slot ", o.slot.0 as u64)?;
    out.write_all(b"\n")
}

// A table with one bit more, of this label.
fn wider(t: Table, l: u16) -> Table {
    let o = t.new_bit(Label(l));
    o.table
}

// What a join answers: refusal, the place of the second's slot 0, and the label that stands at slot 2.
fn show_joined(out: &mut impl Write, name: &[u8], j: Joined) -> io::Result<()> {
    let places = j.places;
    let ls = j.table.labels;
    let l = ls.at(Slot(2));
    out.write_all(name)?;
    show(out, b": refusal ", j.refusal as u64)?;
    if places[0] == 2 {
        out.write_all(b", place 2")?;
    }
    if places[0] == 64 {
        out.write_all(b", place 64")?;
    }
    show(out, b", label of slot 2: ", l.0 as u64)?;
    out.write_all(b"\n")
}

// What a reading answers: refusal, and the labels of slots 0, 1 and 2.
fn show_reading(out: &mut impl Write, name: &[u8], r: Reading) -> io::Result<()> {
    let ls = r.table.labels;
    let a = ls.at(Slot(0));
    let b = ls.at(Slot(1));
    let c = ls.at(Slot(2));
    out.write_all(name)?;
    show(out, b": refusal ", r.refusal as u64)?;
    show(out, b", labels ", a.0 as u64)?;
    show(out, b" ", b.0 as u64)?;
    show(out, b" ", c.0 as u64)?;
    out.write_all(b"\n")
}

// A table with the labels 9 and 4 in slots 0 and 2, written, and read back from 100 on.
fn round(out: &mut impl Write) -> io::Result<()> {
    let t = wider(wider(wider(Table::fresh(), 9), 7), 4);
    let f = t.fix(Slot(1), 0);
    let mut area = [0u8; 23];
    let w = book_tables::write(f.table, &mut area, 0);
    show(out, b"written: refusal ", w.refusal as u64)?;
    show(out, b", bytes ", w.bytes as u64)?;
    out.write_all(b"\n")?;
    show_reading(
        out,
        b"read back from 100 on",
        book_tables::read_bytes(&area, 2, Label(100)),
    )
}

fn main(rt: HostRuntime) -> io::Result<()> {
    let out = &mut rt.stdout();
    let first = Table::fresh().new_bit(Label(7));
    let seven = first.table;
    show_opened(out, b"a new bit 7", first)?;
    show_opened(out, b"a second bit 7", seven.new_bit(Label(7)))?;
    let s = seven.sum(Slot(0));
    show_opened(
        out,
        b"a bit 7 once the first is summed",
        s.table.new_bit(Label(7)),
    )?;
    show_opened(
        out,
        b"a bit 0 on a fresh table",
        Table::fresh().new_bit(Label(0)),
    )?;
    let pair = wider(wider(Table::fresh(), 1), 2);
    show_joined(
        out,
        b"1 and 2 joined with 2",
        pair.join(wider(Table::fresh(), 2)),
    )?;
    show_joined(
        out,
        b"1 and 2 joined with 5",
        pair.join(wider(Table::fresh(), 5)),
    )?;
    let body = [0u8; 23];
    show_reading(
        out,
        b"two slots from 65534 on",
        book_tables::read_bytes(&body, 2, Label(65534)),
    )?;
    show_reading(
        out,
        b"two slots from 65535 on",
        book_tables::read_bytes(&body, 2, Label(65535)),
    )?;
    let none = [0u8; 5];
    show_reading(
        out,
        b"no slots from 65535 on",
        book_tables::read_bytes(&none, 0, Label(65535)),
    )?;
    round(out)
}

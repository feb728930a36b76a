// The line of a body in a listing.
#![tactic(auto)]

ghost use Rattle.std.specs.Prelude.{◌≡◌};
ghost use Rattle.lines_words.specs.Inner.Writer.{Lays};
ghost use Rattle.listing_line.specs.Line.{table_amount, body_line};

use book_bodies::{Body, Said};
use exact::Amount;
use lines_words::Text;
use state::State;

// What a table's line shows as its amount: zero, or its power and its phase.
pub fn table_amount(t: State) -> Amount
    ensures { result ≡ table_amount t }
{
    if t.zero {
        return Amount::Zero;
    }
    let power = t.power;
    let form = t.form;
    let phase = form.phase;
    Amount::Some(power, phase)
}

// The line of body j.
pub fn body_line(text: &mut Text, j: u8, b: Body)
    ensures { Lays text.old (body_line j b.said b.table) text.new }
{
    let t = b.table;
    let s = b.said;
    match s {
        Said::Refused(k) => lines::refused_body_line(text, j, k),
        Said::Circuit(a) => lines::circuit_line(text, j, a),
        Said::Record(c) => lines::record_line(text, j, c),
        Said::Whole => {
            let live = bits::count(t.live);
            let ties = t.ties.count;
            lines::table_line(text, j, live, ties, table_amount(t))
        }
    }
}

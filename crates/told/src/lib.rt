// Inner: what C is told: an amount, a chance, an answer or a body of a book, put behind pointers. Asks of its callers that a record's power is at most 65,536.
#![tactic(auto)]

ghost use Rattle.std.specs.Prelude.{◌≡◌, ◌≤◌};
ghost use Rattle.exact.specs.Chance.{chance_amount, power_of};
ghost use Rattle.book_bodies.specs.Answer.{said_chance};
ghost use Rattle.told.specs.Told.{behind, told, AnswerTold, odds, ChanceTold, six, BodyTold};
ghost use Rattle.told.specs.Inner.Power.{minus_twice};

use book_bodies::{Body, Said};
use exact::{Amount, Chance, Eighth, Power};

// An amount as three numbers: zero or not, power, phase.
pub fn tell(a: Amount, zero: &mut u8, power: &mut i32, phase: &mut u8)
    ensures { behind zero.new power.new phase.new ≡ told a }
{
    match a {
        Amount::Zero => {
            *zero = 1;
            *power = 0;
            *phase = 0;
        }
        Amount::Some(Power(s), Eighth(c)) => {
            *zero = 0;
            *power = s;
            *phase = c;
        }
    }
}

// An answer told: its number, and its amount behind the pointers where it is not refused.
pub fn answer(a: Result<Amount, u8>, zero: &mut u8, power: &mut i32, phase: &mut u8) -> u8
    ensures { AnswerTold a (behind zero.old power.old phase.old) result (behind zero.new power.new phase.new) }
{
    match a {
        Err(n) => n,
        Ok(m) => {
            tell(m, zero, power, phase);
            0
        }
    }
}

// The power of root two that one over two to the `e` is.
fn power_over(e: u32) -> Power
    requires { e ≤ 65536 }
    ensures { result.0 ≡ minus_twice e }
{
    Power(0 - (2 * e) as i32)
}

// A chance as an amount.
fn amount_of(c: Chance) -> Amount
    requires { power_of c ≤ 65536 }
    ensures { result ≡ chance_amount c }
{
    match c {
        Chance::Never => Amount::Zero,
        Chance::OneOver(e) => Amount::Some(power_over(e), Eighth(0)),
    }
}

// A record's answer told: its number, and its chance behind the pointers where it is not refused.
pub fn chance(a: Result<Chance, u8>, never: &mut u8, power: &mut u32) -> u8
    ensures { ChanceTold a (odds never.old power.old) result (odds never.new power.new) }
{
    match a {
        Err(number) => number,
        Ok(Chance::Never) => {
            *never = 1;
            *power = 0;
            0
        }
        Ok(Chance::OneOver(e)) => {
            *never = 0;
            *power = e;
            0
        }
    }
}

// What reading a body answered told: its number, and behind the pointers its kind, for a table its live bits and ties, and its amount where it is not refused.
pub fn tell_body(
    b: Body,
    kind: &mut u8,
    live: &mut usize,
    ties: &mut usize,
    zero: &mut u8,
    power: &mut i32,
    phase: &mut u8,
) -> u8
    requires { power_of (said_chance b.said) ≤ 65536 }
    ensures { BodyTold b (six kind.old live.old ties.old zero.old power.old phase.old) result (six kind.new live.new ties.new zero.new power.new phase.new) }
{
    let t = b.table;
    let s = b.said;
    match s {
        Said::Refused(n) => n,
        Said::Circuit(a) => {
            *kind = 1;
            *live = 0;
            *ties = 0;
            tell(a, zero, power, phase);
            0
        }
        Said::Record(c) => {
            *kind = 3;
            *live = 0;
            *ties = 0;
            tell(amount_of(c), zero, power, phase);
            0
        }
        Said::Whole => {
            *kind = 2;
            *live = bits::count(t.live);
            *ties = t.ties.count;
            tell(listing_line::table_amount(t), zero, power, phase);
            0
        }
    }
}

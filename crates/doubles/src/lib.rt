// An amount as two doubles: document 01's "Doubles".
#![tactic(auto)]

ghost use Rattle.std.specs.Prelude.{◌≡◌};
ghost use Rattle.doubles.specs.Inner.Steps.{repeated, start_at, stepped, raised};
ghost use Rattle.doubles.specs.Answer.{answer, parts_of, answer_of};
ghost use Rattle.doubles.specs.Inner.Answer.{answer_for};
ghost use Rattle.doubles.specs.Entry.{DoublesAt};

use exact::{Amount, Eighth, Power, Refusal};
use state::State;

// An entry's value: why it is refused, plain zero, or two doubles, the real part first.
#[derive(Clone, Copy)]
pub enum Doubles {
    Refused(Refusal),
    Zero,
    Value(f64, f64),
}

// 6369051672525773 / 2^52, the double nearest to the root of two.
const ROOT: f64 = 1.4142135623730951;

// x after n products with the factor: n doublings where it is 2, n halvings where it is 1/2.
fn repeat(x: f64, factor: f64, n: u32) -> f64
    ensures { result ≡ repeated x factor n }
{
    let mut r = x;
    for i in 0..n {
        r = r * factor;
    }
    r
}

// The power as a count from 2 to 4,002: held within −2,000..2,000, and 2,002 more.
fn raise(power: i32) -> u32
    ensures { result ≡ raised power }
{
    (power.clamp(exact::LEAST_POWER, exact::MOST_POWER) + 2002) as u32
}

// What is doubled or halved: 1 for an even power, the root of two for an odd one.
fn start(u: u32) -> f64
    ensures { result ≡ start_at u }
{
    if u % 2 == 0 { 1.0 } else { ROOT }
}

// The root of two to the power u − 2,002.
fn root_power(u: u32) -> f64
    ensures { result ≡ stepped u }
{
    let k = u / 2;
    if k < 1001 {
        return repeat(start(u), 0.5, 1001 - k);
    }
    repeat(start(u), 2.0, k - 1001)
}

// The two components of √2^power · ω^phase.
fn parts(power: i32, phase: u8) -> Doubles
    ensures { answer result ≡ parts_of power phase }
{
    let u = raise(power);
    let r = root_power(u);
    let h = root_power(u - 1);
    match phase % 8 {
        0 => Doubles::Value(r, 0.0),
        1 => Doubles::Value(h, h),
        2 => Doubles::Value(0.0, r),
        3 => Doubles::Value(-h, h),
        4 => Doubles::Value(-r, 0.0),
        5 => Doubles::Value(-h, -h),
        6 => Doubles::Value(0.0, -r),
        _ => Doubles::Value(h, -h),
    }
}

// An amount's value. A power beyond ±2,000 counts as the nearer end, a phase above 7 modulo 8.
#[tactic(auto, unfolding(crate::specs::Answer::answer_of, crate::specs::Answer::answer))]
pub fn of_amount(a: Amount) -> Doubles
    ensures { answer result ≡ answer_of a }
{
    match a {
        Amount::Zero => Doubles::Zero,
        Amount::Some(Power(power), Eighth(phase)) => parts(power, phase),
    }
}

// An answer's value: refused as it is, or the amount's.
#[tactic(auto, unfolding(crate::specs::Inner::Answer::answer_for, crate::specs::Answer::answer))]
fn of_answer(a: Result<Amount, Refusal>) -> Doubles
    ensures { answer result ≡ answer_for a }
{
    match a {
        Err(refusal) => Doubles::Refused(refusal),
        Ok(amount) => of_amount(amount),
    }
}

// A table's entry at an assignment as two doubles.
pub fn of_entry(t: State, x: u64) -> Doubles
    ensures { DoublesAt t x result }
{
    of_answer(call_asking::entry(t, x))
}

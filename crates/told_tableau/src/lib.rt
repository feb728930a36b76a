// The Leuven tableau for bench software in C: a verdict or signs behind a pointer, and the number of refusal as the answer. The exported calls of `topazfern` hand on to these.
#![tactic(auto)]

ghost use Rattle.told_tableau.specs.Told.{VerdictTold, PairTold};
ghost use Rattle.told_tableau.specs.Inner.Tells.{TellsVerdict, TellsPair};

use exact::Refusal;

// A verdict told: its number, and where it is not refused 1 or 0 behind the pointer.
fn tell(verdict: Result<bool, Refusal>, holds: &mut u8) -> u8
    ensures { TellsVerdict verdict holds.old result holds.new }
{
    if let Ok(yes) = verdict {
        *holds = u8::from(yes);
    }
    exact::number_of(&verdict)
}

// Whether the rows and signs are the Leuven tableau of a circuit of an edition.
pub fn check(edition: u8, width: u8, gates: &[u8], rows: &[u64], h: u64, holds: &mut u8) -> u8
    ensures { VerdictTold edition width gates.now rows.now h holds.old result holds.new }
{
    tell(tableau::check(edition, width, gates, rows, h), holds)
}

// Signs told: their number, and where they are not refused the signs behind the pointer.
fn tell_pair(signs: Result<u64, Refusal>, h: &mut u64) -> u8
    ensures { TellsPair signs h.old result h.new }
{
    if let Ok(s) = signs {
        *h = s;
    }
    exact::number_of(&signs)
}

// The Leuven tableau of a circuit of an edition: its rows at the front of a list, its signs behind the pointer.
pub fn of(edition: u8, width: u8, gates: &[u8], rows: &mut [u64], h: &mut u64) -> u8
    ensures { PairTold edition width gates.now rows.old h.old result rows.new h.new }
{
    tell_pair(tableau::of(edition, width, gates, rows), h)
}

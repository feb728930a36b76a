// Circuits as operators for bench software in C: answers behind pointers, and the number of refusal as the answer. The exported calls of `topazfern` hand on to these.
#![tactic(auto)]

ghost use Rattle.told_operator.specs.Told.{TellsSame, TellsPhase, SameTold, PhaseTold};

use exact::{Eighth, Refusal};

// An answer told: its number, and where it is not refused 1 or 0 behind the pointer.
fn tell_same(answer: Result<bool, Refusal>, same: &mut u8) -> u8
    ensures { TellsSame answer same.old result same.new }
{
    if let Ok(yes) = answer {
        *same = u8::from(yes);
    }
    exact::number_of(&answer)
}

// Whether two circuits of one width are the same operator.
pub fn same(
    edition: u8,
    width: u8,
    gates: &[u8],
    edition2: u8,
    width2: u8,
    gates2: &[u8],
    same: &mut u8,
) -> u8
    ensures { SameTold edition width gates.now edition2 width2 gates2.now same.old result same.new }
{
    let answer = operator::same(edition, width, gates, edition2, width2, gates2);
    tell_same(answer, same)
}

// The same beside the eighth turns, 0 where there are none.
fn tell_phase(answer: Result<Option<Eighth>, Refusal>, same: &mut u8, phase: &mut u8) -> u8
    ensures { TellsPhase answer same.old phase.old result same.new phase.new }
{
    match answer {
        Err(refusal) => u8::from(refusal),
        Ok(Some(p)) => {
            *same = 1;
            *phase = p.0;
            0
        }
        Ok(None) => {
            *same = 0;
            *phase = 0;
            0
        }
    }
}

// The eighth turns by which the first circuit's entries must be multiplied to give the second's.
pub fn common_phase(
    edition: u8,
    width: u8,
    gates: &[u8],
    edition2: u8,
    width2: u8,
    gates2: &[u8],
    same: &mut u8,
    phase: &mut u8,
) -> u8
    ensures { PhaseTold edition width gates.now edition2 width2 gates2.now same.old phase.old result same.new phase.new }
{
    let answer = operator::common_phase(edition, width, gates, edition2, width2, gates2);
    tell_phase(answer, same, phase)
}

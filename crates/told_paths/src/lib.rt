// The paths of a table body for bench software in C: the four numbers and the power behind pointers, and the number of refusal as the answer. The exported call of `topazfern` hands on to this.
#![tactic(auto)]

ghost use Rattle.told_paths.specs.Told.{five, SumTold, PathsTold};

use exact::Refusal;
use path_sum::PathSum;

// A path sum told: its number, and behind the pointers the four numbers and the power where it is not refused.
fn tell(
    r: Result<PathSum, Refusal>,
    c0: &mut i32,
    c1: &mut i32,
    c2: &mut i32,
    c3: &mut i32,
    power: &mut i32,
) -> u8
    ensures { SumTold r (five c0.old c1.old c2.old c3.old power.old) result (five c0.new c1.new c2.new c3.new power.new) }
{
    match r {
        Err(refusal) => u8::from(refusal),
        Ok(s) => {
            let f = s.four;
            let a0 = f.c0;
            let a1 = f.c1;
            let a2 = f.c2;
            let a3 = f.c3;
            let p = s.power.0;
            *c0 = a0;
            *c1 = a1;
            *c2 = a2;
            *c3 = a3;
            *power = p;
            0
        }
    }
}

// Every path of a table body added up.
pub fn paths(
    body: &[u8],
    width: u8,
    c0: &mut i32,
    c1: &mut i32,
    c2: &mut i32,
    c3: &mut i32,
    power: &mut i32,
) -> u8
    ensures { PathsTold width body.now (five c0.old c1.old c2.old c3.old power.old) result (five c0.new c1.new c2.new c3.new power.new) }
{
    let r = body_read::read(body, width);
    let refusal = r.refusal;
    if refusal != 0 {
        return refusal;
    }
    let t = r.table;
    let s = path_sum::sum(t);
    tell(s, c0, c1, c2, c3, power)
}

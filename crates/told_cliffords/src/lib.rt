// The one-wire Cliffords for bench software in C: an element behind a pointer, and the number of refusal as the answer. The exported calls of `topazfern` hand on to these.
#![tactic(auto)]

ghost use Rattle.std.specs.Prelude.{◌≡◌};
ghost use Rattle.cliffords.specs.Closing.{product_number, inverse_number, closing_number, IsProduct, Undoes, Closes};
ghost use Rattle.told_cliffords.specs.Told.{ElementTold};
ghost use Rattle.told_cliffords.specs.Inner.Tells.{Tells};

use exact::Refusal;

// An answer told: its number, and its element behind the pointer where it is not refused.
fn tell(answer: Result<u8, Refusal>, element: &mut u8) -> u8
    ensures { Tells answer element.old result element.new }
{
    if let Ok(k) = answer {
        *element = k;
    }
    exact::number_of(&answer)
}

// Element i, then element j.
pub fn product(i: u8, j: u8, element: &mut u8) -> u8
    ensures { ElementTold (product_number i j) (IsProduct i j) element.old result element.new }
{
    tell(cliffords::product(i, j), element)
}

// The element that undoes element i.
pub fn inverse(i: u8, element: &mut u8) -> u8
    ensures { ElementTold (inverse_number i) (Undoes i) element.old result element.new }
{
    tell(cliffords::inverse(i), element)
}

// The element that undoes the numbers, applied in order.
pub fn closing(numbers: &[u8], element: &mut u8) -> u8
    ensures { ElementTold (closing_number numbers.now) (Closes numbers.now) element.old result element.new }
{
    tell(cliffords::closing(numbers), element)
}

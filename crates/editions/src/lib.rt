// The editions of a book: which there are, asked by its header, by its writer and by every direct call on a circuit.
#![tactic(auto)]

ghost use Rattle.std.specs.Prelude.{◌≡◌};
ghost use Rattle.editions.specs.Edition.{good_edition};

// Code 7 is H·S·H.
pub const FIRST: u8 = 1;
// Code 7 is the rotation.
pub const SECOND: u8 = 2;

// Whether an edition is one of the two.
#[tactic(auto, unfolding(crate::specs::Edition::good_edition))]
pub fn good_edition(edition: u8) -> bool
    ensures { result ≡ good_edition edition }
{
    matches!(edition, FIRST | SECOND)
}

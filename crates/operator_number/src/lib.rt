// Why a circuit without strings is refused, found without running it: 9 for its edition, then 11, 6, then item by item, then its blocks.
#![tactic(auto)]

ghost use Rattle.std.specs.Prelude.{◌≡◌};
ghost use Rattle.exact.specs.Code.{refusal_in};
ghost use Rattle.operator_number.specs.Number.{operator_number};

use exact::Refusal;

// Why a circuit of an edition is refused as an operator. Every circuit has the string 0, so it stands in for both.
pub fn test(edition: u8, width: u8, gates: &[u8]) -> Result<(), Refusal>
    ensures { refusal_in result ≡ operator_number edition width gates.now }
{
    circuit_number::test(edition, width, 0, 0, gates)
}

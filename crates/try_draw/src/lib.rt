// Pseudo-random numbers for the programs that compare: one for each stream and place, the same in every run.
#![tactic(auto)]

ghost use Rattle.std.specs.Prelude.{◌≡◌};
ghost use Rattle.try_draw.specs.Word.{round, word_of};

// A round of xorshift64.
fn shifted(s: u64) -> u64
    ensures { result ≡ round s }
{
    let a = s ^ (s << 13);
    let b = a ^ (a >> 7);
    b ^ (b << 17)
}

// Number `at` of stream `stream`.
pub fn word(stream: u64, at: u64) -> u64
    ensures { result ≡ word_of stream at }
{
    let a = std::num::wrapping_add_u64(shifted(stream ^ 0x9e3779b97f4a7c15), at);
    let b = shifted(shifted(a));
    let c = std::num::wrapping_add_u64(shifted(b), a << 32);
    shifted(shifted(c))
}

// The number of bits of a magnitude: the exponent tables of LOG, FLOATA, FLOATB and FMULT are this
// one table (specs/Length.antt). The processor's count of leading zeros finds it.
ghost use Rattle.std.specs.Prelude.{◌≡◌};
ghost use Rattle.words.specs.Length.{bit_length};

// Counted is 2 m + 1. It has one bit more than m, and is never 0: for 0 x86-64's `bsr` has no answer,
// and the compiler would have to add one. Narrowed by `as`, proved to lose nothing; TryFrom would add a failure that cannot come.
#[tactic(auto, using(crate::proofs::Length::length_counted))]
pub fn bit_length(m: u16) -> u16
    ensures { result ≡ bit_length m }
{
    (31 - (2 * u32::from(m) + 1).leading_zeros()) as u16
}

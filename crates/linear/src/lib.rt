// The linear end: 16-bit signed samples on the scale of the levels that EXPAND gives, -8,192 to 8,191.
#![tactic(auto)]

ghost use Rattle.std.specs.Prelude.{true, ◌≡◌};
ghost use Rattle.linear.specs.Linear.{is_level, SL, signed, held};

const LOWEST: i16 = -8192;

const HIGHEST: i16 = 8191;

#[tactic(auto, unfolding(crate::specs::Linear::is_level))]
pub fn is_level(x: i16) -> bool
    ensures { result ≡ is_level x }
{
    (LOWEST..=HIGHEST).contains(&x)
}

// The word that the encoder takes. A rule of the project asks that signed levels are negated here, so its low 14 bits are not just taken.
#[tactic(auto, using(crate::proofs::Signs::negated_fits, crate::proofs::Signs::negated_small, crate::proofs::Signs::negated_word, crate::proofs::Signs::word_kept))]
pub fn level(x: i16) -> u16
    requires { is_level x ≡ true }
    ensures { result ≡ SL x }
{
    if x < 0 {
        16384 - (-x).cast_unsigned()
    } else {
        x.cast_unsigned()
    }
}

// The sample that a reconstructed signal gives
#[tactic(auto, using(crate::proofs::Signs::clamped))]
pub fn sample(sr: u16) -> i16
    ensures { result ≡ held (signed 16 sr) }
{
    read_signed(sr).clamp(LOWEST, HIGHEST)
}

// The number that a word of 16 bits is in two's complement
#[tactic(auto, using(crate::proofs::Signs::read))]
pub fn read_signed(word: u16) -> i16
    ensures { result ≡ signed 16 word }
{
    word.cast_signed()
}

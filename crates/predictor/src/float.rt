// Float words: FLOATA, FLOATB and FMULT (G.727, section 6.2.7).
ghost use Rattle.std.specs.Prelude.{◌≡◌, ◌+◌, ◌*◌, ◌<◌, ◌≤◌};
ghost use Rattle.predictor.specs.Float.{EXP, MANT, FLOATA, FLOATB, WAnMAG, FMULT};
ghost use Rattle.predictor.specs.Inner.{IsFloat};

use words::bits::bit_length;
use words::choice::choose;

#[derive(Clone, Copy)]
struct Floating {
    exp: u16,
    mant: u16,
}

// A magnitude as exponent and mantissa, "a 1 in the most significant bit", which the three share
#[tactic(auto, using(words::proofs::Length::length_word, crate::proofs::Mantissa::mantissa_range), unfolding(crate::specs::Float::EXP, crate::specs::Float::MANT, crate::specs::Inner::float_of))]
fn float_of(mag: u16) -> Floating
    ensures { IsFloat mag result }
{
    let exp = bit_length(mag);
    let mant = choose(mag == 0, 32, u32::from(mag) * 64 >> exp);
    Floating {
        exp,
        // Narrowed by `as`, proved to lose nothing; TryFrom would add a failure that cannot come.
        mant: mant as u16,
    }
}

// A sign and a magnitude, the sign at the top
#[tactic(auto, unfolding(crate::specs::Inner::float_of))]
fn float_word(sign: u16, mag: u16) -> u16
    requires { sign < 4 }
    ensures { result ≡ sign * 1024 + EXP mag * 64 + MANT mag }
{
    let f = float_of(mag);
    sign * 1024 + f.exp * 64 + f.mant
}

#[tactic(auto, unfolding(crate::specs::Float::FLOATA))]
pub fn floata(dq: u16) -> u16
    ensures { result ≡ FLOATA 14 dq }
{
    float_word(dq >> 14, dq % 16384)
}

// Its magnitude as printed in this sub-block; LOG's, of another crate, is the same row.
#[tactic(auto, unfolding(crate::specs::Float::FLOATB))]
pub fn floatb(sr: u16) -> u16
    ensures { result ≡ FLOATB sr }
{
    float_word(
        sr >> 15,
        choose(sr >> 15 == 0, sr, sr.wrapping_neg() % 32768),
    )
}

// "Convert floating point to magnitude". Narrowed by `as`, proved to lose nothing; TryFrom would add a failure that cannot come.
#[tactic(auto, unfolding(crate::specs::Float::WAnMAG))]
fn product_magnitude(wanexp: u16, wanmant: u16) -> u16
    requires { (wanexp ≤ 31) × (wanmant ≤ 255) }
    ensures { result ≡ WAnMAG wanexp wanmant }
{
    let wide = u32::from(wanmant) * 128;
    if wanexp <= 26 {
        (wide >> (26 - wanexp)) as u16
    } else {
        ((wide << (wanexp - 26)) % 32768) as u16
    }
}

#[tactic(auto, unfolding(crate::specs::Float::FMULT, crate::specs::Inner::float_of))]
pub fn fmult(an: u16, srn: u16) -> u16
    ensures { result ≡ FMULT an srn }
{
    let anmag = choose(an >> 15 == 0, an >> 2, (16384 - (an >> 2)) % 8192);
    let a = float_of(anmag);
    let wanexp = (srn >> 6) % 16 + a.exp;
    let wanmant = ((srn % 64) * a.mant + 48) >> 4;
    let wanmag = product_magnitude(wanexp, wanmant);
    choose((srn >> 10) ^ (an >> 15) == 0, wanmag, wanmag.wrapping_neg())
}

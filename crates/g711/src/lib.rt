// G.711 as G.727 uses it: EXPAND (section 6.2.1), COMPRESS and SYNC's SP+ and SP- (section 6.2.10).
// Sixteen levels make a segment, whose steps are twice as wide as those of the one before it, so that
// no table is searched. Law 0 is mu-law, and any other reads as A-law: it stays the number that the Recommendation's signal LAW is,
// since EXPAND and COMPRESS are promised at every number.
#![tactic(auto)]

ghost use Rattle.std.specs.Prelude.{◌≡◌, ◌+◌, ◌-◌, ◌*◌, ◌/◌, ◌%◌, ◌^◌, ◌≤◌, ◌<◌, min, eqb, leb, get_or};
ghost use Rattle.words.specs.Notation.{pick, ◌when◌∣◌};
ghost use Rattle.words.specs.Length.{bit_length};
ghost use Rattle.g711.specs.G711.{decisions_mu, decisions_A, outputs_mu, outputs_A};
ghost use Rattle.g711.specs.Expand.{EXPAND};
ghost use Rattle.g711.specs.Compress.{level_of, COMPRESS};
ghost use Rattle.g711.specs.Neighbour.{above, below};

use words::bits::bit_length;
use words::choice::choose;

#[tactic(auto, using(crate::proofs::Outputs::output_mu_high, crate::proofs::Outputs::output_A_high, crate::proofs::Outputs::expand_is))]
pub fn expand(s: u8, law: u8) -> u16
    ensures { result ≡ EXPAND s law }
{
    if law == 0 {
        signed(s < 128, output_mu(u16::from((255 - s) % 128)))
    } else {
        let t = s ^ 85;
        signed(t < 128, output_a(u16::from(t % 128)) * 2)
    }
}

// SL: 14 bits, two's complement
fn signed(negative: bool, ssq: u16) -> u16
    requires { ssq ≤ 16384 }
    ensures { result ≡ pick negative ((16384 - ssq) % 16384) ssq }
{
    choose(negative, (16384 - ssq) % 16384, ssq)
}

#[tactic(auto, using(crate::proofs::Outputs::output_mu_is))]
fn output_mu(n: u16) -> u16
    requires { n < 128 }
    ensures { result ≡ get_or outputs_mu n 0 }
{
    middle(n) - 33
}

// The first segment's steps are as wide as the second's. That n is below 128 stays a clause of three private functions: a type of its
// own would be a field and two conversions, and no plainer.
#[tactic(auto, using(crate::proofs::Outputs::output_A_is))]
fn output_a(n: u16) -> u16
    requires { n < 128 }
    ensures { result ≡ get_or outputs_A n 0 }
{
    if n < 16 { n * 2 + 1 } else { middle(n) >> 1 }
}

// The two ends of the n-th interval of `chord`, added.
fn middle(n: u16) -> u16
    requires { n < 128 }
    ensures { result ≡ (n % 16 * 2 + 33) * 2 ^ (n / 16) }
{
    (n % 16 * 2 + 33) << (n >> 4)
}

#[tactic(auto, unfolding(crate::specs::Compress::COMPRESS))]
pub fn compress(sr: u16, law: u8) -> u8
    ensures { result ≡ COMPRESS sr law }
{
    if law == 0 {
        compress_mu(sr)
    } else {
        compress_a(sr)
    }
}

// Here and in compress_a an octet is narrowed by `as`, proved to lose nothing; TryFrom would add a failure that cannot come.
#[tactic(auto, using(crate::proofs::Decisions::level_mu_top), unfolding(crate::specs::Compress::COMPRESS))]
fn compress_mu(sr: u16) -> u8
    ensures { result ≡ COMPRESS sr 0 }
{
    if sr >> 15 == 0 {
        (255 - level_mu(sr)) as u8
    } else {
        (127 - level_mu(magnitude(sr))) as u8
    }
}

#[tactic(auto, using(crate::proofs::Decisions::level_A_top), unfolding(crate::specs::Compress::COMPRESS))]
fn compress_a(sr: u16) -> u8
    ensures { result ≡ COMPRESS sr 1 }
{
    if sr >> 15 == 0 {
        ((128 + level_a(sr >> 1)) as u8) ^ 85
    } else {
        let imag = (magnitude(sr) + 1) >> 1;
        (level_a(imag.saturating_sub(1)) as u8) ^ 85
    }
}

// IM of a negative SR. That of 32,768 is 0, and so its IMAG, of which COMPRESS takes 1 away, is 0 too.
fn magnitude(sr: u16) -> u16
    ensures { result ≡ (65536 - sr) % 32768 }
{
    sr.wrapping_neg() % 32768
}

#[tactic(auto, using(crate::proofs::Decisions::level_mu_is))]
fn level_mu(imag: u16) -> u16
    ensures { result ≡ level_of decisions_mu imag }
{
    chord((imag.min(8158) + 33) >> 1)
}

#[tactic(auto, using(crate::proofs::Decisions::level_A_is))]
fn level_a(imag: u16) -> u16
    ensures { result ≡ level_of decisions_A imag }
{
    if imag < 32 {
        imag >> 1
    } else {
        chord(imag.min(4095))
    }
}

// The number of the interval that m is in: m's bits tell the segment, and the four behind the leading
// one the place in it.
#[tactic(auto, using(crate::proofs::Segments::range))]
fn chord(m: u16) -> u16
    requires { 16 ≤ m }
    ensures { result ≡ (bit_length m - 5) * 16 + m / 2 ^ (bit_length m - 5) % 16 }
{
    let segment = bit_length(m) - 5;
    segment * 16 + (m >> segment) % 16
}

// Inverted back, a code word is its sign and the number of its level. mu-law's two zeros are one level,
// so that above the negative one there is level 1.
#[tactic(auto, using(crate::proofs::Steps::above_is))]
pub fn above(sp: u8, law: u8) -> u8
    ensures { result ≡ above sp law }
{
    if law == 0 {
        next(sp ^ 127, 129) ^ 127
    } else {
        next(sp ^ 85, 128) ^ 85
    }
}

// A level down is a level up on the other side of zero.
#[tactic(auto, using(crate::proofs::Steps::below_is))]
pub fn below(sp: u8, law: u8) -> u8
    ensures { result ≡ below sp law }
{
    above(sp ^ 128, law) ^ 128
}

// The negative levels count down to 0, above which `first` stands; the positive ones count up to 255.
fn next(t: u8, first: u8) -> u8
    ensures { result ≡ (255 when eqb t 255 ∣ t + 1 when leb 128 t ∣ first when eqb t 0 ∣ t - 1) }
{
    match t {
        255 => 255,
        128.. => t + 1,
        0 => first,
        _ => t - 1,
    }
}

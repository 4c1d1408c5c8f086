// From a level to the normalized logarithm of its difference, and back (G.727, sections 6.2.1, 6.2.2
// and 6.2.4). G.726 has the same sub-blocks, but its ANTILOG puts DQ's sign a place higher, at 15.
#![tactic(auto)]

ghost use Rattle.std.specs.Prelude.{◌≡◌, ◌+◌, ◌%◌, ◌<◌};
ghost use Rattle.logarithm.specs.Difference.{SUBTA};
ghost use Rattle.logarithm.specs.Logarithm.{LOG, SUBTB, ADDA, ANTILOG};

use words::bits::bit_length;
use words::choice::choose;
use words::wrap::minus;

#[derive(Clone, Copy)]
pub struct Logged {
    pub dl: u16,
    pub ds: u16,
}

// SEI as printed in this sub-block; SEI of predictor is the same row.
#[tactic(auto, unfolding(crate::specs::Difference::SUBTA))]
pub fn subta(sl: u16, se: u16) -> u16
    requires { (sl < 16384) × (se < 32768) }
    ensures { result ≡ SUBTA sl se }
{
    let sli = choose(sl >> 13 == 0, sl, 49152 + sl);
    let sei = choose(se >> 14 == 0, se, 32768 + se);
    minus(sli, sei)
}

// DQM as printed in this sub-block; FLOATB's magnitude is the same row.
#[tactic(auto, using(words::proofs::Length::length_word), unfolding(crate::specs::Logarithm::LOG))]
pub fn log(d: u16) -> Logged
    ensures { result ≡ LOG d }
{
    let ds = d >> 15;
    let dqm = choose(ds == 0, d, d.wrapping_neg() % 32768);
    let exp = bit_length(dqm >> 1);
    let mant = (u32::from(dqm) * 128 >> exp) % 128;
    Logged {
        // Narrowed by `as`, proved to lose nothing; TryFrom would add a failure that cannot come.
        dl: exp * 128 + (mant as u16),
        ds,
    }
}

pub fn subtb(dl: u16, y: u16) -> u16
    requires { (dl < 2048) × (y < 8192) }
    ensures { result ≡ SUBTB dl y }
{
    (dl + 4096 - (y >> 2)) % 4096
}

pub fn adda(dqln: u16, y: u16) -> u16
    requires { dqln < 4096 }
    ensures { result ≡ ADDA dqln y }
{
    (dqln + (y >> 2)) % 4096
}

// DQL is negative, or its exponent is at most 14.
#[tactic(auto, unfolding(crate::specs::Logarithm::ANTILOG))]
pub fn antilog(dql: u16, dqs: u16) -> u16
    requires { ((dql + 2048) % 4096 < 3968) × (dql < 4096) × (dqs < 2) }
    ensures { result ≡ ANTILOG 14 dql dqs }
{
    if 2048 <= dql {
        dqs * 16384
    } else {
        let dex = dql >> 7;
        let dqt = 128 + dql % 128;
        dqs * 16384 + (dqt * 128 >> (14 - dex))
    }
}

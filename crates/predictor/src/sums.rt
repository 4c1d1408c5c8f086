// The sums of the predictor: ACCUM, ADDB and ADDC (G.727, section 6.2.7). DQ is a sign bit at place 14 and a
// magnitude of 14 bits below it. That SE and SEZ have 15 bits stays a clause, here and in the crates above, as it does of other words of the
// Recommendation: these functions are public, and a narrower type would ask more of who calls them.
ghost use Rattle.std.specs.Prelude.{◌≡◌, ◌<◌};
ghost use Rattle.predictor.specs.Sums.{ACCUM, DQI, SEI, ADDB, ADDC};

use words::choice::choose;
use words::wrap::plus;

#[derive(Clone, Copy)]
pub struct Estimate {
    pub se: u16,
    pub sez: u16,
}

#[derive(Clone, Copy)]
pub struct Sign {
    pub pk0: u16,
    pub sigpk: u16,
}

// Its eight inputs stay parameters: the Recommendation adds them by name and in this order.
#[tactic(auto, unfolding(crate::specs::Sums::ACCUM))]
pub fn accum(
    wa1: u16,
    wa2: u16,
    wb1: u16,
    wb2: u16,
    wb3: u16,
    wb4: u16,
    wb5: u16,
    wb6: u16,
) -> Estimate
    ensures { result ≡ ACCUM wa1 wa2 wb1 wb2 wb3 wb4 wb5 wb6 }
{
    let sezi = plus(plus(plus(plus(plus(wb1, wb2), wb3), wb4), wb5), wb6);
    let sei = plus(plus(sezi, wa2), wa1);
    Estimate {
        se: sei >> 1,
        sez: sezi >> 1,
    }
}

// "Convert signed magnitude to two's complement"
#[tactic(auto, unfolding(crate::specs::Sums::DQI))]
fn dqi(dq: u16) -> u16
    ensures { result ≡ DQI 14 dq }
{
    choose(dq >> 14 == 0, dq, (dq % 16384).wrapping_neg())
}

// "Sign extension" of a 15-bit word, as printed in ADDB and ADDC; SUBTA, of another crate, has the same row.
#[tactic(auto, unfolding(crate::specs::Sums::SEI))]
fn sei(se: u16) -> u16
    requires { se < 32768 }
    ensures { result ≡ SEI se }
{
    choose(se >> 14 == 0, se, 32768 + se)
}

#[tactic(auto, unfolding(crate::specs::Sums::ADDB))]
pub fn addb(dq: u16, se: u16) -> u16
    requires { se < 32768 }
    ensures { result ≡ ADDB 14 dq se }
{
    plus(dqi(dq), sei(se))
}

#[tactic(auto, unfolding(crate::specs::Sums::ADDC))]
pub fn addc(dq: u16, sez: u16) -> Sign
    requires { sez < 32768 }
    ensures { result ≡ ADDC 14 dq sez }
{
    let dqsez = plus(dqi(dq), sei(sez));
    Sign {
        pk0: dqsez >> 15,
        sigpk: choose(dqsez == 0, 1, 0),
    }
}

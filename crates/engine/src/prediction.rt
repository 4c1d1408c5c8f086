// The adaptive predictor (Figures 10 and 12 of G.727): the signal estimate, and the next values of the coefficients.
ghost use Rattle.std.specs.Prelude.{◌≡◌, ◌<◌};
ghost use Rattle.predictor.specs.Sums.{ADDB};
ghost use Rattle.predictor.specs.Float.{FLOATB};
ghost use Rattle.engine.specs.Estimate.{predicted};
ghost use Rattle.engine.specs.Prediction.{poles_of, zero_of, zeros_of};

use predictor::coefficient::{limc, limd, trigb, upa1, upa2, upb, xor};
use predictor::float::{floatb, fmult};
use predictor::sums::{Estimate, accum, addb};
use predictor::tone::tone;
use state::memory::Memory;

#[derive(Clone, Copy)]
pub struct Poles {
    pub a1r: u16,
    pub a2r: u16,
    pub tdp: u16,
}

#[tactic(auto, unfolding(crate::specs::Estimate::predicted, crate::specs::Estimate::WA1, crate::specs::Estimate::WA2, crate::specs::Estimate::WB))]
pub fn signal_estimate(m: Memory) -> Estimate
    ensures { result ≡ predicted m }
{
    let [b1, b2, b3, b4, b5, b6] = m.b;
    let [dq1, dq2, dq3, dq4, dq5, dq6] = m.dq;
    accum(
        fmult(m.a1, m.sr1),
        fmult(m.a2, m.sr2),
        fmult(b1, dq1),
        fmult(b2, dq2),
        fmult(b3, dq3),
        fmult(b4, dq4),
        fmult(b5, dq5),
        fmult(b6, dq6),
    )
}

// The reconstructed signal, as the float word that the second order predictor delays
pub fn next_signal(dq: u16, se: u16) -> u16
    requires { se < 32768 }
    ensures { result ≡ FLOATB (ADDB 14 dq se) }
{
    floatb(addb(dq, se))
}

// The second order predictor and the tone that it shows. A2 is limited first, since it limits A1. PK0 and SIGPK by name, as UPA1 and UPA2 print
// them.
#[tactic(auto, unfolding(crate::specs::Prediction::poles_of))]
pub fn next_poles(m: Memory, pk0: u16, sigpk: u16, tr: u16) -> Poles
    ensures { result ≡ poles_of m pk0 sigpk tr }
{
    let a2p = limc(upa2(pk0, m.pk1, m.pk2, m.a1, m.a2, sigpk));
    let a1p = limd(upa1(pk0, m.pk1, m.a1, sigpk), a2p);
    Poles {
        a1r: trigb(tr, a1p),
        a2r: trigb(tr, a2p),
        tdp: tone(a2p),
    }
}

#[tactic(auto, unfolding(crate::specs::Prediction::zero_of))]
fn next_zero(tr: u16, dq: u16, bn: u16, dqn: u16) -> u16
    ensures { result ≡ zero_of tr dq bn dqn }
{
    trigb(tr, upb(xor(dqn, dq), bn, dq))
}

// The sixth order predictor. Two arrays side by side, and arrays have no zip.
#[tactic(auto, unfolding(crate::specs::Prediction::zeros_of))]
pub fn next_zeros(tr: u16, dq0: u16, b: [u16; 6], dq: [u16; 6]) -> [u16; 6]
    ensures { result ≡ zeros_of tr dq0 b dq }
{
    std::array::from_fn(|n| next_zero(tr, dq0, b[n], dq[n]))
}

// The two calls of the engine. `estimate` is asked before a codeword is known; `advance` takes what it answered, which
// the memory alone fixes, so that the predictor's products are formed once a sample.
ghost use Rattle.std.specs.Prelude.{◌≡◌, ◌≤◌};
ghost use Rattle.state.specs.InRange.{MemoryInRange};
ghost use Rattle.engine.specs.Estimate.{estimate_of};
ghost use Rattle.engine.specs.Advance.{advance_of};

use crate::Estimated;
use crate::adaptation::{next_scales, next_speeds, scale_factor};
use crate::prediction::{next_poles, next_signal, next_zeros, signal_estimate};
use predictor::coefficient::trigb;
use predictor::float::floata;
use predictor::sums::addc;
use predictor::tone::trans;
use state::memory::Memory;

#[tactic(auto, unfolding(crate::specs::Estimate::estimate_of, crate::specs::Estimate::SE, crate::specs::Estimate::SEZ))]
pub fn estimate(m: Memory) -> Estimated
    requires { MemoryInRange m }
    ensures { result ≡ estimate_of m }
{
    let sum = signal_estimate(m);
    Estimated {
        y: scale_factor(m),
        se: sum.se,
        sez: sum.sez,
    }
}

#[tactic(auto, using(crate::proofs::Estimates::y_is, crate::proofs::Estimates::se_is, crate::proofs::Estimates::sez_is, crate::proofs::Estimates::se_answered, crate::proofs::Estimates::sez_answered), unfolding(crate::specs::Advance::advance_of))]
pub fn advance(m: Memory, e: Estimated, dq: u16, wi: u16, fi: u16) -> Memory
    requires { MemoryInRange m × (e ≡ estimate_of m) × (fi ≤ 7) }
    ensures { result ≡ advance_of m dq wi fi }
{
    let tr = trans(m.td, m.yl, dq);
    let sign = addc(dq, e.sez);
    let poles = next_poles(m, sign.pk0, sign.sigpk, tr);
    let scales = next_scales(m, wi, e.y);
    let speeds = next_speeds(m, fi, poles.tdp, tr, e.y);
    let [dq1, dq2, dq3, dq4, dq5, _] = m.dq;
    Memory {
        yu: scales.yup,
        yl: scales.ylp,
        dms: speeds.dmsp,
        dml: speeds.dmlp,
        ap: speeds.apr,
        a1: poles.a1r,
        a2: poles.a2r,
        b: next_zeros(tr, dq, m.b, m.dq),
        dq: [floata(dq), dq1, dq2, dq3, dq4, dq5],
        sr1: next_signal(dq, e.se),
        sr2: m.sr1,
        pk1: sign.pk0,
        pk2: m.pk1,
        td: trigb(tr, poles.tdp),
    }
}

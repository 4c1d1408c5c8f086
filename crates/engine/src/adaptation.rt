// The scale factor and the speed at which it adapts (Figures 8 and 9 of G.727).
ghost use Rattle.std.specs.Prelude.{◌≡◌, ◌≤◌};
ghost use Rattle.state.specs.InRange.{MemoryInRange};
ghost use Rattle.engine.specs.Estimate.{Y};
ghost use Rattle.engine.specs.Adaptation.{scales_of, speeds_of};

use scale::{filtd, filte, limb, mix};
use speed::{filta, filtb, filtc, lima, subtc, triga};
use state::memory::Memory;

#[derive(Clone, Copy)]
pub struct Scales {
    pub yup: u16,
    pub ylp: u32,
}

#[derive(Clone, Copy)]
pub struct Speeds {
    pub dmsp: u16,
    pub dmlp: u16,
    pub apr: u16,
}

#[tactic(auto, using(speed::proofs::Range::lima_range), unfolding(crate::specs::Estimate::Y))]
pub fn scale_factor(m: Memory) -> u16
    requires { MemoryInRange m }
    ensures { result ≡ Y m }
{
    mix(lima(m.ap), m.yu, m.yl)
}

#[tactic(auto, using(scale::proofs::Range::filtd_word), unfolding(crate::specs::Adaptation::scales_of))]
pub fn next_scales(m: Memory, wi: u16, y: u16) -> Scales
    requires { MemoryInRange m }
    ensures { result ≡ scales_of m wi y }
{
    let yup = limb(filtd(wi, y));
    Scales {
        yup,
        ylp: filte(yup, m.yl),
    }
}

#[tactic(auto, using(speed::proofs::Range::filta_range, speed::proofs::Range::filtb_range, speed::proofs::Range::subtc_range), unfolding(crate::specs::Adaptation::speeds_of))]
pub fn next_speeds(m: Memory, fi: u16, tdp: u16, tr: u16, y: u16) -> Speeds
    requires { MemoryInRange m × (fi ≤ 7) }
    ensures { result ≡ speeds_of m fi tdp tr y }
{
    let dmsp = filta(fi, m.dms);
    let dmlp = filtb(fi, m.dml);
    let ax = subtc(dmsp, dmlp, tdp, y);
    Speeds {
        dmsp,
        dmlp,
        apr: triga(tr, filtc(ax, m.ap)),
    }
}

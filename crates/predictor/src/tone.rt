// The tone and transition detector: TONE and TRANS (G.727, section 6.2.9).
ghost use Rattle.std.specs.Prelude.{◌≡◌, ◌<◌};
ghost use Rattle.predictor.specs.Tone.{TONE, TRANS};

use words::choice::choose;

pub fn tone(a2p: u16) -> u16
    ensures { result ≡ TONE a2p }
{
    choose((32768..53760).contains(&a2p), 1, 0)
}

#[tactic(auto, unfolding(crate::specs::Tone::TRANS))]
pub fn trans(td: u16, yl: u32, dq: u16) -> u16
    requires { yl < 524288 }
    ensures { result ≡ TRANS td yl dq }
{
    let dqmag = u32::from(dq % 16384);
    let ylint = yl >> 15;
    let thr1 = (32 + (yl >> 10) % 32) << ylint;
    let thr2 = choose(8 < ylint, 15872, thr1);
    let dqthr = (thr2 + (thr2 >> 1)) >> 1;
    choose((dqthr < dqmag) & (td == 1), 1, 0)
}

// Adaptation speed control (G.727, section 6.2.6): how quickly the scale factor may follow the core
// codewords. G.726 has the same sub-blocks. That words have their widths stays a clause, as in predictor's sums: these functions are public.
#![tactic(auto)]

ghost use Rattle.std.specs.Prelude.{◌≡◌, ◌^◌, ◌<◌, ◌≤◌};
ghost use Rattle.speed.specs.Inner.{averaged};
ghost use Rattle.speed.specs.Speed.{FILTA, FILTB, FILTC, LIMA, SUBTC, TRIGA};

use words::choice::choose;

// What FILTA, FILTB and FILTC share: an average of so many bits, moved towards a target by 1/2 ^ SPEED of the difference.
#[tactic(auto, using(crate::proofs::Steps::whole_small, crate::proofs::Steps::fall_small, crate::proofs::Steps::moved_small), unfolding(crate::specs::Inner::averaged))]
fn averaged<const BITS: u32, const SPEED: u32>(target: u16, average: u16) -> u16
    requires { (1 ≤ SPEED) × (SPEED ≤ BITS) × (BITS ≤ 14) × (target < 16384) × (average < 2 ^ BITS) }
    ensures { result ≡ averaged BITS SPEED target average }
{
    let whole = 1u16 << BITS;
    let dif = (target + 2 * whole - average) % (2 * whole);
    let step = dif >> SPEED;
    let fall = whole - (2 * whole >> SPEED);
    (choose(dif >> BITS == 0, step, step + fall) + average) % whole
}

#[tactic(auto, unfolding(crate::specs::Speed::FILTA, crate::specs::Inner::averaged))]
pub fn filta(fi: u16, dms: u16) -> u16
    requires { (fi < 8) × (dms < 4096) }
    ensures { result ≡ FILTA fi dms }
{
    averaged::<12, 5>(fi * 512, dms)
}

#[tactic(auto, unfolding(crate::specs::Speed::FILTB, crate::specs::Inner::averaged))]
pub fn filtb(fi: u16, dml: u16) -> u16
    requires { (fi < 8) × (dml < 16384) }
    ensures { result ≡ FILTB fi dml }
{
    averaged::<14, 7>(fi * 2048, dml)
}

#[tactic(auto, unfolding(crate::specs::Speed::FILTC, crate::specs::Inner::averaged))]
pub fn filtc(ax: u16, ap: u16) -> u16
    requires { (ax < 2) × (ap < 1024) }
    ensures { result ≡ FILTC ax ap }
{
    averaged::<10, 4>(ax * 512, ap)
}

#[tactic(auto, unfolding(crate::specs::Speed::LIMA))]
pub fn lima(ap: u16) -> u16
    ensures { result ≡ LIMA ap }
{
    choose(256 <= ap, 64, ap >> 2)
}

#[tactic(auto, unfolding(crate::specs::Speed::SUBTC))]
pub fn subtc(dmsp: u16, dmlp: u16, tdp: u16, y: u16) -> u16
    requires { (dmsp < 4096) × (dmlp < 16384) }
    ensures { result ≡ SUBTC dmsp dmlp tdp y }
{
    let dif = (dmsp * 4 + 32768 - dmlp) % 32768;
    let difm = choose(dif >> 14 == 0, dif, (32768 - dif) % 16384);
    let dthr = dmlp >> 3;
    choose((1536 <= y) & (difm < dthr) & (tdp == 0), 0, 1)
}

// TRIGB, of another crate and section, is this brace with another constant: each stands as it is printed.
pub fn triga(tr: u16, app: u16) -> u16
    ensures { result ≡ TRIGA tr app }
{
    choose(tr == 0, app, 256)
}

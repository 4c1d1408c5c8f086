// Quantizer scale factor adaptation (G.727, section 6.2.5): how the scale of the quantizer follows the
// core codewords. G.726 has the same sub-blocks. That YL has 19 bits stays a clause, here and in TRANS: these functions are public, and a narrower type
// would ask more of who calls them.
#![tactic(auto)]

ghost use Rattle.std.specs.Prelude.{◌≡◌, ◌≤◌, ◌<◌};
ghost use Rattle.scale.specs.Scale.{FILTD, FILTE, LIMB, MIX};

use words::choice::choose;

// FILTD and FILTE are not one function: they differ in widths and in the order of their steps, not in a number alone. Nor is FILTD the average of
// `speed`: its difference has four bits more than Y and wants 32, so that one function would take a third size and a type. Here and in MIX a word
// is narrowed by `as`, proved to lose nothing; TryFrom would add a failure that cannot come.
#[tactic(auto, unfolding(crate::specs::Scale::FILTD))]
pub fn filtd(wi: u16, y: u16) -> u16
    ensures { result ≡ FILTD wi y }
{
    let dif = (u32::from(wi) * 32 + 131072 - u32::from(y)) % 131072;
    let difsx = choose(dif >> 16 == 0, dif >> 5, (dif >> 5) + 4096);
    ((u32::from(y) + difsx) % 8192) as u16
}

#[tactic(auto, unfolding(crate::specs::Scale::FILTE))]
pub fn filte(yup: u16, yl: u32) -> u32
    requires { yl < 524288 }
    ensures { result ≡ FILTE yup yl }
{
    let dif = (u32::from(yup) + ((1048576 - yl) >> 6)) % 16384;
    let difsx = choose(dif >> 13 == 0, dif, dif + 507904);
    (yl + difsx) % 524288
}

#[tactic(auto, unfolding(crate::specs::Scale::LIMB))]
pub fn limb(yut: u16) -> u16
    requires { yut < 8192 }
    ensures { result ≡ LIMB yut }
{
    let geul = ((yut + 11264) % 16384) >> 13;
    let gell = ((yut + 15840) % 16384) >> 13;
    choose(gell == 1, 544, choose(geul == 0, 5120, yut))
}

#[tactic(auto, unfolding(crate::specs::Scale::MIX))]
pub fn mix(al: u16, yu: u16, yl: u32) -> u16
    requires { (al ≤ 64) × (yl < 524288) }
    ensures { result ≡ MIX al yu yl }
{
    let slow = yl >> 6;
    let dif = (u32::from(yu) + 16384 - slow) % 16384;
    let difm = choose(dif >> 13 == 0, dif, (16384 - dif) % 8192);
    let prodm = difm * u32::from(al) >> 6;
    let prod = choose(dif >> 13 == 0, prodm, (16384 - prodm) % 16384);
    ((slow + prod) % 8192) as u16
}

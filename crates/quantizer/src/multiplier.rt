// FUNCTW and FUNCTF (G.727, sections 6.2.5 and 6.2.6), by the core alone.
ghost use Rattle.std.specs.Prelude.{◌≡◌, eqb, get_or};
ghost use Rattle.words.specs.Notation.{pick};
ghost use Rattle.quantizer.specs.Codeword.{CoreCodeword};
ghost use Rattle.quantizer.specs.Multiplier.{IM_core, FUNCTW, FUNCTF};

use crate::codeword::magnitude;

// WI and FI from the magnitude 0 upwards. They stay apart: two sub-blocks of two sections (6.2.5, 6.2.6).
const WI_2: [u16; 2] = [4074, 439];

const WI_3: [u16; 4] = [4092, 30, 137, 582];

const WI_4: [u16; 8] = [4084, 4, 27, 50, 98, 184, 340, 1108];

const FI_2: [u16; 2] = [0, 7];

const FI_3: [u16; 4] = [0, 1, 2, 7];

const FI_4: [u16; 8] = [0, 0, 0, 1, 1, 1, 3, 7];

#[tactic(auto, using(crate::proofs::Multipliers::functw_is))]
pub fn functw(core: u8, i: u8) -> u16
    requires { CoreCodeword core i }
    ensures { result ≡ FUNCTW core i }
{
    entry_of(core, i, &WI_2, &WI_3, &WI_4)
}

#[tactic(auto, using(crate::proofs::Multipliers::functf_is))]
pub fn functf(core: u8, i: u8) -> u16
    requires { CoreCodeword core i }
    ensures { result ≡ FUNCTF core i }
{
    entry_of(core, i, &FI_2, &FI_3, &FI_4)
}

#[tactic(auto, using(crate::proofs::Halves::magnitude_small, crate::proofs::Halves::codeword_of_core))]
fn entry_of(core: u8, i: u8, two: &[u16; 2], three: &[u16; 4], four: &[u16; 8]) -> u16
    requires { CoreCodeword core i }
    ensures { result ≡ get_or (pick (eqb core 2) two.now (pick (eqb core 3) three.now four.now)) (IM_core core i) 0 }
{
    let m = usize::from(magnitude(core, i));
    match core {
        2 => two[m],
        3 => three[m],
        _ => four[m],
    }
}

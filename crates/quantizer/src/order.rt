// The order of codewords that SYNC compares (G.727, section 6.2.10), from the most negative level upwards. Its ID, which
// Tables 17 to 20 give for a difference, is the place of the codeword that the difference is quantized to.
ghost use Rattle.std.specs.Prelude.{◌≡◌};
ghost use Rattle.quantizer.specs.Codeword.{Codeword};
ghost use Rattle.quantizer.specs.Sync.{IM};

use crate::codeword::half;

// IM
#[tactic(auto, using(crate::proofs::Halves::place_below, crate::proofs::Halves::place_from))]
pub fn order(width: u8, i: u8) -> u8
    requires { Codeword width i }
    ensures { result ≡ IM width i }
{
    let half = half(width);
    if i < half { i + half } else { i - half }
}

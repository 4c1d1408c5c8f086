// The adaptive quantizer and the inverse one (Figures 5 and 7 of G.727) at a scale factor: from a difference to its
// codeword at a width, and back to a quantized difference.
ghost use Rattle.std.specs.Prelude.{◌≡◌};
ghost use Rattle.words.specs.Within.{Within};
ghost use Rattle.quantizer.specs.Codeword.{Codeword};
ghost use Rattle.quantizer.specs.Adaptive.{codeword, difference};

use crate::decision::quan;
use crate::output::reconst;
use logarithm::{adda, antilog, log, subtb};

#[tactic(auto, unfolding(crate::specs::Adaptive::codeword))]
pub fn codeword(width: u8, y: u16, d: u16) -> u8
    requires { Within 544 5120 y }
    ensures { result ≡ codeword width y d }
{
    let l = log(d);
    quan(width, subtb(l.dl, y), l.ds)
}

#[tactic(auto, unfolding(crate::specs::Adaptive::difference))]
pub fn difference(width: u8, y: u16, i: u8) -> u16
    requires { Within 544 5120 y × Codeword width i }
    ensures { result ≡ difference width y i }
{
    let q = reconst(width, i);
    antilog(adda(q.dqln, y), q.dqs)
}

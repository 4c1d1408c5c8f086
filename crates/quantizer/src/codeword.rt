// The parts of a codeword (G.727, section 4.3): its sign is the bit at the top, and its magnitude counts
// from 0 on either side.
ghost use Rattle.std.specs.Prelude.{◌≡◌, ◌-◌, ◌^◌};
ghost use Rattle.quantizer.specs.Codeword.{Width, Codeword};
ghost use Rattle.quantizer.specs.Multiplier.{IM_core};

// How many codewords either sign has.
pub fn half(width: u8) -> u8
    requires { Width width }
    ensures { result ≡ 2 ^ (width - 1) }
{
    1u8 << (width - 1)
}

// The IM of FUNCTW and FUNCTF, at any width: RECONST's tables go by it too.
#[tactic(auto, using(crate::proofs::Halves::magnitude_below, crate::proofs::Halves::magnitude_from))]
pub fn magnitude(width: u8, i: u8) -> u8
    requires { Codeword width i }
    ensures { result ≡ IM_core width i }
{
    let half = half(width);
    if i < half { i } else { 2 * half - 1 - i }
}

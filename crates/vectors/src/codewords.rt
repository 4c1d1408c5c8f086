// The codewords that a decoder takes with no encoder before it: the I-inputs, and the held codeword.
ghost use Rattle.std.specs.Prelude.{◌≡◌, ◌-◌, ◌^◌, ◌<◌, All, replicate};
ghost use Rattle.arrayvec.specs.ArrayVec.{array_vec_len};
ghost use Rattle.quantizer.specs.Codeword.{Width, Codeword};

use crate::magnitudes::{PLACES, at_width, magnitudes};
use crate::signs::signs;
use arrayvec::ArrayVec;
use quantizer::codeword::half;

// How many bits the codewords of a run have
#[derive(Clone, Copy)]
pub struct CodewordWidth {
    pub bits: u8,
    ghost is_width: { Width bits },
}

// The list is lent, as in `magnitudes` and `signs`: one that is returned is on the stack twice.
//
// `Codeword` stands in the contracts here and where codewords are played: it ties a codeword to the width of the run that
// it is for. Of a struct that held both it would be left to say that its width is that run's, so that form is no plainer.
pub fn i_input(codewords: &mut ArrayVec<u8, PLACES>, width: CodewordWidth)
    ensures codewords { All (Codeword width.bits) codewords.new.items }
    ensures count { array_vec_len codewords.new ≡ 16384 }
{
    let mut sizes = ArrayVec::new();
    magnitudes(&mut sizes);
    let mut negatives = ArrayVec::new();
    signs(&mut negatives);
    codewords.clear();
    for (magnitude, negative) in sizes.iter().zip(&negatives) {
        codewords.push(signed(width, at_width(width, *magnitude), *negative));
    }
}

fn signed(width: CodewordWidth, magnitude: u8, negative: bool) -> u8
    requires { magnitude < 2 ^ (width.bits - 1) }
    ensures { Codeword width.bits result }
{
    if negative {
        2 * half(width.bits) - 1 - magnitude
    } else {
        magnitude
    }
}

// The greatest magnitude, positive
pub fn held(width: CodewordWidth) -> [u8; 2000]
    ensures codewords { All (Codeword width.bits) result }
    ensures items { result ≡ replicate 2000 (2 ^ (width.bits - 1) - 1) }
{
    [half(width.bits) - 1; 2000]
}

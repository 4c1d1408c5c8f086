// The G.711 end: EXPAND before the encoder, COMPRESS and SYNC behind the decoder (Figures 4 and 13 of G.727).
ghost use Rattle.std.specs.Prelude.{◌≡◌, ◌<◌, eqb};
ghost use Rattle.words.specs.Notation.{pick};
ghost use Rattle.words.specs.Within.{Within};
ghost use Rattle.g711.specs.Expand.{EXPAND};
ghost use Rattle.quantizer.specs.Codeword.{Codeword};
ghost use Rattle.quantizer.specs.Pair.{Pair};
ghost use Rattle.quantizer.specs.Sync.{IM};
ghost use Rattle.state.specs.InRange.{MemoryInRange};
ghost use Rattle.sample.specs.Encode.{encode_of};
ghost use Rattle.sample.specs.Pcm.{move_of, requantized, play_of};

use crate::end::Heard;
use crate::level::{Encoded, decode_level, encode_level};
use g711::{above, below, compress, expand};
use logarithm::subta;
use quantizer::adaptive::codeword;
use quantizer::order::order;
use state::memory::Memory;
use std::cmp::Ordering;

#[tactic(auto, using(g711::proofs::Extent::expand_lt))]
pub fn encode_byte(m: Memory, core: u8, law: u8, width: u8, byte: u8) -> Encoded
    requires { MemoryInRange m × Pair width core }
    ensures { result ≡ encode_of core width m (EXPAND byte law) }
{
    encode_level(m, core, width, expand(byte, law))
}

pub fn decode_byte(m: Memory, core: u8, law: u8, width: u8, i: u8) -> Heard<u8>
    requires { MemoryInRange m × Pair width core × Codeword width i }
    ensures { result ≡ play_of law core width m i }
{
    let d = decode_level(m, core, width, i);
    let sp = compress(d.sr, law);
    let j = requantized(law, width, d.y, d.se, sp);
    let sd = adjusted(law, width, j, i, sp);
    Heard {
        sample: sd,
        disagreement: u8::from(j != i),
        memory: d.memory,
    }
}

// The codeword that an encoder at this scale factor and estimate would make of the byte
#[tactic(auto, using(g711::proofs::Extent::expand_lt), unfolding(crate::specs::Pcm::DX, crate::specs::Pcm::requantized))]
pub fn requantized(law: u8, width: u8, y: u16, se: u16, sp: u8) -> u8
    requires { Within 544 5120 y × (se < 32768) }
    ensures { result ≡ requantized law width y se sp }
{
    codeword(width, y, subta(expand(sp, law), se))
}

// SYNC's move, by the codeword that the byte requantizes to and the received one. Most bytes requantize to the received one, and no place is looked up.
#[tactic(auto, using(crate::proofs::Adjusting::stays))]
fn adjusted(law: u8, width: u8, j: u8, i: u8, sp: u8) -> u8
    requires { Codeword width j × Codeword width i }
    ensures { result ≡ move_of (IM width j) (IM width i) sp law }
{
    if j == i {
        return sp;
    }
    moved_byte(order(width, j), order(width, i), sp, law)
}

#[tactic(auto, unfolding(crate::specs::Pcm::move_of))]
fn moved_byte(id: u8, im: u8, sp: u8, law: u8) -> u8
    ensures { result ≡ move_of id im sp law }
{
    match id.cmp(&im) {
        Ordering::Less => above(sp, law),
        Ordering::Equal => sp,
        Ordering::Greater => below(sp, law),
    }
}

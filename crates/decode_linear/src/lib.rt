// The call decode_linear: a decoder with the linear end (specs/Decode.antt of codewords).
// It stays beside decode, its twin at the other end: users call both by name, and each is one line over the call at any end.
#![tactic(auto)]

ghost use Rattle.sample.specs.End.{linear};
ghost use Rattle.codewords.specs.Decode.{Decodes};

use codewords::{Decoded, decode_samples};
use sample::end::Linear;
use state::State;
use state::answer::Answer;

pub fn decode_linear(s: State, frame: &[u8], out: &mut [i16]) -> Answer<Decoded>
    ensures { Decodes linear s frame.now out.old out.new result.done result.state }
{
    decode_samples(Linear, s, frame, out)
}

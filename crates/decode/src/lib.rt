// The call decode: a decoder with the G.711 end (specs/Decode.antt of codewords).
// It stays beside decode_linear, its twin at the other end: users call both by name, and each is one line over the call at any end.
#![tactic(auto)]

ghost use Rattle.sample.specs.End.{pcm};
ghost use Rattle.codewords.specs.Decode.{Decodes};

use codewords::{Decoded, decode_samples};
use sample::end::Pcm;
use state::State;
use state::answer::Answer;

// The law stays a number: anyone may hand in any, and an unfit one is refused with 9.
pub fn decode(s: State, law: u8, frame: &[u8], out: &mut [u8]) -> Answer<Decoded>
    ensures { Decodes (pcm law) s frame.now out.old out.new result.done result.state }
{
    decode_samples(Pcm { law }, s, frame, out)
}

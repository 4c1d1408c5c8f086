// The call encode_linear: an encoder with the linear end (specs/Encode.antt of levels).
// It stays beside encode, its twin at the other end: users call both by name, and each is one line over the call at any end.
#![tactic(auto)]

ghost use Rattle.sample.specs.End.{linear};
ghost use Rattle.levels.specs.Encode.{Encodes};

use levels::encode_samples;
use sample::end::Linear;
use state::State;
use state::answer::Answer;

// What is done is how many octets of out are the frame. Edition and width stay numbers: anyone may hand in any, and an unfit one is refused with 5 or 1.
pub fn encode_linear(
    s: State,
    edition: u8,
    width: u8,
    samples: &[i16],
    out: &mut [u8],
) -> Answer<usize>
    ensures { Encodes linear s edition width samples.now out.old out.new result.done result.state }
{
    encode_samples(Linear, s, edition, width, samples, out)
}

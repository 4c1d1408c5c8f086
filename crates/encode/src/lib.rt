// The call encode: an encoder with the G.711 end (specs/Encode.antt of levels).
// It stays beside encode_linear, its twin at the other end: users call both by name, and each is one line over the call at any end.
#![tactic(auto)]

ghost use Rattle.sample.specs.End.{pcm};
ghost use Rattle.levels.specs.Encode.{Encodes};

use levels::encode_samples;
use sample::end::Pcm;
use state::State;
use state::answer::Answer;

// What is done is how many octets of out are the frame. Law, edition and width stay numbers: anyone may hand in any, and an unfit one is refused with 9, 5 or 1.
pub fn encode(
    s: State,
    law: u8,
    edition: u8,
    width: u8,
    samples: &[u8],
    out: &mut [u8],
) -> Answer<usize>
    ensures { Encodes (pcm law) s edition width samples.now out.old out.new result.done result.state }
{
    encode_samples(Pcm { law }, s, edition, width, samples, out)
}

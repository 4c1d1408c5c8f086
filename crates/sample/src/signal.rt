// The linear end behind the decoder: the reconstructed signal, held to the levels. No byte is adjusted, so
// that nothing disagrees. An encoder's linear end is a sample's level.
ghost use Rattle.std.specs.Prelude.{◌≡◌};
ghost use Rattle.quantizer.specs.Codeword.{Codeword};
ghost use Rattle.quantizer.specs.Pair.{Pair};
ghost use Rattle.state.specs.InRange.{MemoryInRange};
ghost use Rattle.sample.specs.Signal.{sampled_of};

use crate::end::Heard;
use crate::level::decode_level;
use state::memory::Memory;

#[tactic(auto, unfolding(crate::specs::Signal::sampled_of))]
pub fn decode_sample(m: Memory, core: u8, width: u8, i: u8) -> Heard<i16>
    requires { MemoryInRange m × Pair width core × Codeword width i }
    ensures { result ≡ sampled_of core width m i }
{
    let d = decode_level(m, core, width, i);
    Heard {
        sample: linear::sample(d.sr),
        disagreement: 0,
        memory: d.memory,
    }
}

// A level encoded, a codeword decoded. Both move their memory by the core bits of the codeword, through the engine; the
// whole codeword feeds the frame and the output path alone.
ghost use Rattle.std.specs.Prelude.{◌≡◌, ◌<◌};
ghost use Rattle.words.specs.Within.{Within};
ghost use Rattle.quantizer.specs.Codeword.{Codeword, CoreCodeword};
ghost use Rattle.quantizer.specs.Pair.{Pair};
ghost use Rattle.state.specs.InRange.{MemoryInRange};
ghost use Rattle.engine.specs.Estimate.{estimate_of};
ghost use Rattle.sample.specs.Core.{Ic, step_of};
ghost use Rattle.sample.specs.Encode.{encode_of};
ghost use Rattle.sample.specs.Decode.{SR_FF, decode_of};

use engine::Estimated;
use engine::step::{advance, estimate};
use logarithm::subta;
use predictor::sums::addb;
use quantizer::adaptive::{codeword, difference};
use quantizer::multiplier::{functf, functw};
use state::memory::Memory;

#[derive(Clone, Copy)]
pub struct Encoded {
    pub codeword: u8,
    pub memory: Memory,
}

// The signal of the output path, with the scale factor and the estimate that it was made with
#[derive(Clone, Copy)]
pub struct Decoded {
    pub y: u16,
    pub se: u16,
    pub sr: u16,
    pub memory: Memory,
}

pub fn encode_level(m: Memory, core: u8, width: u8, sl: u16) -> Encoded
    requires { MemoryInRange m × Pair width core × (sl < 16384) }
    ensures { result ≡ encode_of core width m sl }
{
    let e = estimate(m);
    let i = codeword(width, e.y, subta(sl, e.se));
    let next = step(m, e, core, core_bits(core, width, i));
    Encoded {
        codeword: i,
        memory: next,
    }
}

pub fn decode_level(m: Memory, core: u8, width: u8, i: u8) -> Decoded
    requires { MemoryInRange m × Pair width core × Codeword width i }
    ensures { result ≡ decode_of core width m i }
{
    let e = estimate(m);
    let next = step(m, e, core, core_bits(core, width, i));
    Decoded {
        y: e.y,
        se: e.se,
        sr: output_signal(width, e.y, e.se, i),
        memory: next,
    }
}

// The bit masking of section 6.2.3: what alone moves the memory
#[tactic(auto, unfolding(crate::specs::Core::Ic))]
fn core_bits(core: u8, width: u8, i: u8) -> u8
    requires { Pair width core }
    ensures { result ≡ Ic core width i }
{
    i >> (width - core)
}

// The engine's step, by what G.727's tables read off the core codeword
fn step(m: Memory, e: Estimated, core: u8, ic: u8) -> Memory
    requires { MemoryInRange m × (e ≡ estimate_of m) × CoreCodeword core ic }
    ensures { result ≡ step_of core m ic }
{
    advance(
        m,
        e,
        difference(core, e.y, ic),
        functw(core, ic),
        functf(core, ic),
    )
}

#[tactic(auto, unfolding(crate::specs::Decode::SR_FF))]
fn output_signal(width: u8, y: u16, se: u16, i: u8) -> u16
    requires { Within 544 5120 y × (se < 32768) × Codeword width i }
    ensures { result ≡ SR_FF width y se i }
{
    addb(difference(width, y, i), se)
}

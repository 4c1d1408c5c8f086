// The end at which speech enters an encoder and leaves a decoder, as a type: G.711 octets of a law, or linear samples. A call
// is written once for every end, over what its end makes of a sample; specs/End.antt has both ends as one value.
ghost use Rattle.std.specs.Prelude.{Bool, true, ◌≡◌, ℕ, ◌≤◌, ◌<◌};
ghost use Rattle.g711.proofs.Extent.{expand_lt};
ghost use Rattle.linear.proofs.Levels.{level_short};
ghost use Rattle.quantizer.specs.Codeword.{Codeword};
ghost use Rattle.quantizer.specs.Pair.{Pair};
ghost use Rattle.state.specs.declared.memory.Memory.{Memory};
ghost use Rattle.state.specs.InRange.{MemoryInRange};
ghost use Rattle.sample.specs.Decode.{decoder_next};
ghost use Rattle.sample.specs.End.{pcm, linear, is_end, is_taken, level_of, heard_of, count_of};

use crate::pcm::decode_byte;
use crate::signal::decode_sample;
use g711::expand;
use linear::{is_level, level};
use replies::is_law;
use state::memory::Memory;

// A codeword heard: the sample that is put out, 1 where it disagrees with the codeword, and the next memory. A number: `disagreement` of
// specs/Pcm.antt is 1 or 0, and a run sums it.
#[derive(Clone, Copy)]
pub struct Heard<S> {
    pub sample: S,
    pub disagreement: u8,
    pub memory: Memory,
}

pub trait End: Copy {
    type Sample: Copy;

    // Whether there is such an end, whether an encoder takes the sample, and the level that it is given
    ghost known: { Self → Bool };

    ghost taken: { Self → Self.Sample → Bool };

    ghost level_is: { Self → Self.Sample → ℕ };

    // What a decoder puts out for a codeword at a core and a width, and what it counts
    ghost heard: { Self → ℕ → ℕ → Memory → ℕ → Self.Sample };

    ghost counted: { Self → ℕ → ℕ → Memory → ℕ → ℕ };

    fn is_known(self) -> bool
        ensures { result ≡ known self };

    fn takes(self, sample: Self::Sample) -> bool
        ensures { result ≡ taken self sample };

    fn level(self, sample: Self::Sample) -> u16
        requires { taken self sample ≡ true }
        ensures { result ≡ level_is self sample };

    fn hear(self, m: Memory, core: u8, width: u8, i: u8) -> Heard<Self::Sample>
        requires { MemoryInRange m × Pair width core × Codeword width i }
        ensures sample { result.sample ≡ heard self core width m i }
        ensures disagreement { result.disagreement ≡ counted self core width m i }
        ensures few { result.disagreement ≤ 1 }
        ensures memory { result.memory ≡ decoder_next core width m i };

    // A level has 14 bits
    ghost short: { (end : Self) (x : Self.Sample) → taken end x ≡ true → level_is end x < 16384 };
}

// Octets of G.711, by the law that its number names
#[derive(Clone, Copy)]
pub struct Pcm {
    pub law: u8,
}

impl End for Pcm {
    type Sample = u8;

    ghost known = { λ end. is_end (pcm end.law) };

    ghost taken = { λ end. is_taken (pcm end.law) };

    ghost level_is = { λ end. level_of (pcm end.law) };

    ghost heard = { λ end. heard_of (pcm end.law) };

    ghost counted = { λ end. count_of (pcm end.law) };

    ghost short = { λ end S taken. expand_lt S end.law };

    fn is_known(self) -> bool {
        is_law(self.law)
    }

    // Every octet is a sample
    fn takes(self, _sample: u8) -> bool {
        true
    }

    fn level(self, sample: u8) -> u16 {
        expand(sample, self.law)
    }

    #[tactic(auto, using(crate::proofs::Disagreements::disagreement_bit), unfolding(crate::specs::Pcm::play_of))]
    fn hear(self, m: Memory, core: u8, width: u8, i: u8) -> Heard<u8> {
        decode_byte(m, core, self.law, width, i)
    }
}

// Numbers of 16 bits, of which the levels are taken
#[derive(Clone, Copy)]
pub struct Linear;

impl End for Linear {
    type Sample = i16;

    ghost known = { λ end. is_end linear };

    ghost taken = { λ end. is_taken linear };

    ghost level_is = { λ end. level_of linear };

    ghost heard = { λ end. heard_of linear };

    ghost counted = { λ end. count_of linear };

    ghost short = { λ end. level_short };

    fn is_known(self) -> bool {
        true
    }

    fn takes(self, sample: i16) -> bool {
        is_level(sample)
    }

    fn level(self, sample: i16) -> u16 {
        level(sample)
    }

    #[tactic(auto, unfolding(crate::specs::Signal::sampled_of))]
    fn hear(self, m: Memory, core: u8, width: u8, i: u8) -> Heard<i16> {
        decode_sample(m, core, width, i)
    }
}

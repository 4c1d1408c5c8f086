// The state that an encoder and a decoder carry from frame to frame: the memory, which a step moves on, the core, which
// nothing moves on, and the next number, which a frame that bears one moves on. A struct by value: a call takes one and
// hands the next one back.
#![tactic(auto)]

pub mod answer;
pub mod memory;
pub mod numbers;

ghost use Rattle.std.specs.Prelude.{◌≡◌};
ghost use Rattle.words.specs.Within.{within};
ghost use Rattle.state.specs.Reset.{reset_of};
ghost use Rattle.state.specs.Moved.{moved_on};
ghost use Rattle.state.specs.Range.{in_range};

use crate::memory::{Memory, memory_in_range, reset_memory};

#[derive(Clone, Copy, PartialEq, Eq, Debug)]
pub struct State {
    pub memory: Memory,
    pub core: u8,
    pub number: u8,
}

#[tactic(auto, unfolding(crate::specs::Reset::reset_of))]
pub fn reset(core: u8) -> State
    ensures { result ≡ reset_of core }
{
    State {
        memory: reset_memory(),
        core,
        number: 0,
    }
}

// The state whose memory and number a frame has moved on; the core stays.
pub fn moved_on(s: State, memory: Memory, number: u8) -> State
    ensures { result ≡ moved_on s memory number }
{
    State {
        memory,
        number,
        ..s
    }
}

// The rules' table of ranges, the core's row too. The number may be any octet, so it has no test.
#[tactic(auto, unfolding(crate::specs::Range::in_range, words::specs::Every::every))]
pub fn in_range(s: State) -> bool
    ensures { result ≡ in_range s }
{
    memory_in_range(s.memory) && is_core(s.core)
}

// The core's row, by which reset goes too
pub fn is_core(core: u8) -> bool
    ensures { result ≡ within 2 4 core }
{
    (2..=4).contains(&core)
}

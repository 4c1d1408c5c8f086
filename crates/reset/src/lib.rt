// The call reset: its reply and the state that it hands out (specs/Reset.antt).
#![tactic(auto)]

ghost use Rattle.reset.specs.Reset.{Resets};

use replies::Refusal;
use state::State;
use state::answer::Answer;

// The core stays a number: anyone may hand in any, and an unfit one is refused with 1.
#[tactic(auto, unfolding(crate::specs::Reset::reset_number, crate::specs::Reset::reset_state, words::specs::First::first))]
pub fn reset(core: u8) -> Answer<usize>
    ensures { Resets core result }
{
    if state::is_core(core) {
        Answer {
            state: state::reset(core),
            // Octets, always 0, as docs/RULES.md lists its answer
            done: Ok(0),
        }
    } else {
        Answer {
            state: state::reset(2),
            done: Err(Refusal::Pair),
        }
    }
}

// What a command does with each piece of its input, and what it makes of one.
ghost use Rattle.std.specs.Prelude.{◌≡◌, Err, IfErr, IfOk, take};
ghost use Rattle.replies.specs.Reply.{number_of, reported};
ghost use Rattle.reset.specs.Reset.{reset_state};
ghost use Rattle.tool.specs.Beginning.{first_core};

use crate::decoding::decoded;
use crate::dropping::{dropped, width_of};
use crate::encoding::encoded;
use crate::inspecting::inspected;
use crate::list::{LIST_ROOM, read_list};
use crate::stop::{Place, Stop};
use arrayvec::ArrayVec;
use command_line::Command;
use command_line::coding::Coding;
use command_line::cutting::Widths;
use command_line::law::Speech;
use frame::header::MOST_SAMPLES;
use replies::Refusal;
use reset::reset;
use state::State;
use state::answer::Answer;

// Octets of the longest piece: linear samples have two each, and a frame or a line is shorter.
pub const ROOM: usize = 2 * MOST_SAMPLES;

// The command, with the widths that it asks for, which lie in the task's room; a list is gone through over and over.
#[derive(Clone, Copy)]
pub enum Work<'a> {
    Encode(Coding),
    Drop { most: bool, widths: &'a [u8] },
    Decode(Speech),
    Inspect,
}

// What is to be written, and the state that the next piece meets
#[derive(Drop)]
pub struct Made {
    pub octets: ArrayVec<u8, ROOM>,
    pub state: State,
}

// Why a piece is refused, and of decode the state that the refused call hands back. Of the others it is the one before, which nobody is told.
#[derive(Clone, Copy)]
pub struct Refused {
    pub refusal: Refusal,
    pub state: State,
}

impl Refused {
    // What was done, or the refusal with the state that comes back
    pub fn or_done<T: Copy>(answer: Answer<T>) -> Result<T, Refused>
        ensures { IfErr result (λ refused. (answer.done ≡ Err refused.refusal) × (refused.state ≡ answer.state)) }
    {
        let Answer { state, done } = answer;
        match done {
            Ok(done) => Ok(done),
            Err(refusal) => Err(Refused { refusal, state }),
        }
    }
}

impl Made {
    // What a call has put into the buffer, as many octets as it answers
    pub fn of(mut octets: ArrayVec<u8, ROOM>, answer: Answer<usize>) -> Result<Made, Refusal>
        ensures refused { number_of result ≡ number_of answer.done }
        ensures taken { IfOk result (λ made. made.octets.items ≡ take (reported (λ n. n) answer.done) octets.items) }
        ensures state { IfOk result (λ made. made.state ≡ answer.state) }
    {
        octets.truncate(answer.done?);
        let state = answer.state;
        Ok(Made { octets, state })
    }
}

impl<'a> Work<'a> {
    pub fn of(
        rt: &HostRuntime,
        command: Command,
        room: &'a mut [u8; LIST_ROOM],
    ) -> Result<Work<'a>, Stop> {
        match command {
            Command::Encode(coding) => Ok(Work::Encode(coding)),
            Command::Decode(speech) => Ok(Work::Decode(speech)),
            Command::Inspect => Ok(Work::Inspect),
            Command::Drop(cut) => {
                let widths = match cut.widths {
                    Widths::One(width) => {
                        room[0] = width;
                        &room[..1]
                    }
                    Widths::Listed(place) => read_list(rt, place, room)?,
                };
                Ok(Work::Drop {
                    most: cut.most,
                    widths,
                })
            }
        }
    }

    // The state that the first piece meets. decode takes the first frame's core instead, and drop and inspect have no state.
    pub fn first_state(&self) -> State
        ensures { result ≡ reset_state (first_core self.now) }
    {
        let core = match self {
            Work::Encode(coding) => coding.pair.core,
            _ => 2,
        };
        let started = reset(core);
        started.state
    }

    pub fn make(&self, place: Place, state: State, piece: &[u8]) -> Result<Made, Refused> {
        let made = match self {
            Work::Encode(coding) => encoded(*coding, state, piece),
            Work::Drop { most, widths } => {
                dropped(width_of(*most, widths, place.frame, piece), state, piece)
            }
            Work::Decode(speech) => return decoded(*speech, place.frame, state, piece),
            Work::Inspect => inspected(place.frame, state, piece),
        };
        made.map_err(|refusal| Refused { refusal, state })
    }
}

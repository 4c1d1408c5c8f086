// What a call that carries a state answers: the state that the next call meets, and what was done, or why it was refused. A refusal hands back
// the state that it was given, and a refused reset that of core 2: so it stands outside the Result.
use crate::State;
use replies::Refusal;

#[derive(Clone, Copy)]
pub struct Answer<T> {
    pub state: State,
    pub done: Result<T, Refusal>,
}

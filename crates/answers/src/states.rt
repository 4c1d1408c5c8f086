// A state's numbers between commas, in the order of state::numbers.
use crate::fields::Parts;
use crate::forms::Form;
use crate::shown::Shown;
use state::State;
use state::memory::Memory;
use std::fmt;
use std::fmt::{Display, Formatter};
use text::variables::Variables;

// Each number fits its variable; whether it is in the range of the rules' table is the calls' to say.
impl Form for State {
    fn read(text: &[u8]) -> Option<State> {
        let mut numbers = Parts::of(text, b',');
        let memory = memory_in(&mut numbers)?;
        let state = State {
            memory,
            core: numbers.next()?,
            number: numbers.next()?,
        };
        numbers.is_over().then_some(state)
    }
}

fn memory_in(numbers: &mut Parts<'_>) -> Option<Memory> {
    Some(Memory {
        yu: numbers.next()?,
        yl: numbers.next()?,
        dms: numbers.next()?,
        dml: numbers.next()?,
        ap: numbers.next()?,
        a1: numbers.next()?,
        a2: numbers.next()?,
        b: six_in(numbers)?,
        dq: six_in(numbers)?,
        sr1: numbers.next()?,
        sr2: numbers.next()?,
        pk1: numbers.next()?,
        pk2: numbers.next()?,
        td: numbers.next()?,
    })
}

fn six_in(numbers: &mut Parts<'_>) -> Option<[u16; 6]> {
    Some([
        numbers.next()?,
        numbers.next()?,
        numbers.next()?,
        numbers.next()?,
        numbers.next()?,
        numbers.next()?,
    ])
}

impl Display for Shown<State> {
    fn fmt<W: fmt::Write>(&self, f: &mut Formatter<W>) -> fmt::Result {
        let variables = Variables {
            state: self.0,
            mark: ",",
        };
        write!(f, "{variables}")
    }
}

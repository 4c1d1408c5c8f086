// The numbers of a state, in the order of the rules' table.
use state::State;
use state::numbers::numbers;
use std::fmt;
use std::fmt::{Display, Formatter};

// With the mark between two of them
#[derive(Clone, Copy)]
pub struct Variables<'a> {
    pub state: State,
    pub mark: &'a str,
}

impl Display for Variables<'_> {
    fn fmt<W: fmt::Write>(&self, f: &mut Formatter<W>) -> fmt::Result {
        f.write_joined(numbers(self.state).iter(), self.mark)
    }
}

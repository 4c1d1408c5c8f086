// The state after each frame: with -v on standard error, with -states in a file, under a heading.
use state::State;
use std::fmt;
use std::fmt::{Display, Formatter};
use streams::failure::Failure;
use streams::files::Stream;
use streams::writing::write_line;
use text::variables::Variables;

const HEADING: &str =
    "frame YU YL DMS DML AP A1 A2 B1 B2 B3 B4 B5 B6 DQ1 DQ2 DQ3 DQ4 DQ5 DQ6 SR1 SR2 PK1 PK2 TD core number";

pub fn begin(rt: &HostRuntime, file: &Option<Stream>) -> Result<(), Failure> {
    match file {
        None => Ok(()),
        Some(file) => write_line(rt, file, HEADING),
    }
}

// The frame's index, and the numbers in the order of the table of ranges
#[derive(Clone, Copy)]
pub struct Row {
    pub frame: u64,
    pub state: State,
}

impl Display for Row {
    fn fmt<W: fmt::Write>(&self, f: &mut Formatter<W>) -> fmt::Result {
        let numbers = Variables {
            state: self.state,
            mark: " ",
        };
        write!(f, "{} {numbers}", self.frame)
    }
}

pub fn show(
    rt: &HostRuntime,
    verbose: bool,
    file: &Option<Stream>,
    row: Row,
) -> Result<(), Failure> {
    if verbose {
        let _ = rt.eprintln(row);
    }
    match file {
        None => Ok(()),
        Some(file) => write_line(rt, file, row),
    }
}

// Why the tool stops before the end of its input, as it is said on standard error.
ghost use Rattle.std.specs.Prelude.{◌≡◌};
ghost use Rattle.tool.specs.Stop.{is_unwritten};

use command_line::program::Program;
use command_line::quoting::say_quoting;
use command_line::status::Stopping;
use replies::Refusal;
use std::fmt;
use std::fmt::{Display, Formatter};
use streams::failure::Failure;

// Where a piece begins: the index of its frame, and the octet of the stream
#[derive(Clone, Copy)]
pub struct Place {
    pub frame: u64,
    pub octet: u64,
}

impl Display for Place {
    fn fmt<W: fmt::Write>(&self, f: &mut Formatter<W>) -> fmt::Result {
        write!(f, "frame {} at octet {}", self.frame, self.octet)
    }
}

#[derive(Clone, Copy)]
pub enum Stop {
    Stream(Failure),
    // The list of the word there
    List(usize, ListFault),
    Piece(Place, Fault),
}

#[derive(Clone, Copy)]
pub enum ListFault {
    TooLong,
    NoWidth,
    // A line, counted from 1, that has something else than widths
    Line(usize),
}

#[derive(Clone, Copy)]
pub enum Fault {
    Refused(Refusal),
    // Of a frame, and the one that was due
    Number(u8, u8),
    // Of a sample the place in the stream, and the value
    Sample(u64, i16),
    // So many octets of the frame are there
    CutFrame(usize),
    CutSample,
}

impl From<Failure> for Stop {
    fn from(failure: Failure) -> Stop {
        Stop::Stream(failure)
    }
}

// What stands behind the list's name in quotes
impl Display for ListFault {
    fn fmt<W: fmt::Write>(&self, f: &mut Formatter<W>) -> fmt::Result {
        match self {
            ListFault::TooLong => f.write_str(": longer than 65535 octets"),
            ListFault::NoWidth => f.write_str(": no width in it"),
            ListFault::Line(line) => write!(f, ", line {line}: no width from 2 to 5"),
        }
    }
}

impl Display for Fault {
    fn fmt<W: fmt::Write>(&self, f: &mut Formatter<W>) -> fmt::Result {
        match self {
            Fault::Refused(refusal) => {
                write!(f, "refused with {}: {refusal}", u8::from(*refusal))
            }
            Fault::Number(found, due) => {
                let reply = u8::from(Refusal::Number);
                write!(
                    f,
                    "refused with {reply}: number {found} where {due} was due"
                )
            }
            Fault::Sample(place, value) => {
                let reply = u8::from(Refusal::Sample);
                write!(
                    f,
                    "refused with {reply}: sample {place} is {value}, not from -8192 to 8191"
                )
            }
            Fault::CutFrame(octets) => {
                write!(
                    f,
                    "the stream ends inside the frame; octets of it: {octets}"
                )
            }
            Fault::CutSample => f.write_str("the stream ends inside a sample"),
        }
    }
}

impl Stopping for Stop {
    fn say(self, rt: &HostRuntime) {
        let program = Program::Parchfennel;
        match self {
            Stop::Stream(failure) => failure.say(rt, program),
            Stop::List(place, fault) => {
                say_quoting(rt, format_args!("{program}: list "), &[place], fault);
            }
            Stop::Piece(place, fault) => {
                let _ = eprintln!(rt; "{program}: {place}: {fault}");
            }
        }
    }
}

impl Stop {
    // Whether what was made could not be written
    pub fn is_unwritten(self) -> bool
        ensures { result ≡ is_unwritten self }
    {
        matches!(self, Stop::Stream(Failure::Unwritten(_, _)))
    }
}

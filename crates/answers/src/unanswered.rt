// Why a line has no answer.
use arrayvec::CapacityError;
use std::fmt::{Display, Formatter};
use std::{fmt, io};

// Fields are counted from 1, which is the call's word.
#[derive(Clone, Copy)]
pub enum Unanswered {
    NoSuchCall,
    Unreadable(usize),
    TooMany(usize),
    TooLong,
}

// What is listed in a line that is not too long fits its room, and so does the answer.
impl From<CapacityError> for Unanswered {
    fn from(_: CapacityError) -> Unanswered {
        Unanswered::TooLong
    }
}

impl From<io::Error> for Unanswered {
    fn from(_: io::Error) -> Unanswered {
        Unanswered::TooLong
    }
}

impl Display for Unanswered {
    fn fmt<W: fmt::Write>(&self, f: &mut Formatter<W>) -> fmt::Result {
        match self {
            Unanswered::NoSuchCall => f.write_str("no such call"),
            Unanswered::Unreadable(field) => write!(f, "cannot be read: field {field}"),
            Unanswered::TooMany(field) => write!(f, "too many: field {field}"),
            Unanswered::TooLong => f.write_str("too long"),
        }
    }
}

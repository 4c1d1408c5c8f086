// What is said in an answer, in the forms in which it is read.
use crate::forms::Place;
use arrayvec::ArrayVec;
use std::fmt;
use std::fmt::{Display, Formatter};
use text::hexadecimal::Hexadecimal;

// Room for an answer: a list as long as a line, and the numbers beside it
pub type Said = ArrayVec<u8, 131584>;

#[derive(Clone, Copy)]
pub struct Shown<T>(pub T);

impl Display for Shown<&[u8]> {
    fn fmt<W: fmt::Write>(&self, f: &mut Formatter<W>) -> fmt::Result {
        if self.0.is_empty() {
            return f.write_str("-");
        }
        write!(f, "{}", Hexadecimal(self.0))
    }
}

impl Display for Shown<&[i16]> {
    fn fmt<W: fmt::Write>(&self, f: &mut Formatter<W>) -> fmt::Result {
        if self.0.is_empty() {
            return f.write_str("-");
        }
        for sample in self.0 {
            write!(f, "{:04x}", sample.cast_unsigned())?;
        }
        Ok(())
    }
}

impl Display for Place {
    fn fmt<W: fmt::Write>(&self, f: &mut Formatter<W>) -> fmt::Result {
        write!(f, "{:016x}", self.0)
    }
}

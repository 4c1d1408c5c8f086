// The names of the sequences, made as in the ITU's description: R or H, the input, x and y of the pair, and the laws.
use crate::runs::{Kind, Run};
use std::fmt;
use std::fmt::{Display, Formatter, InlineText};

// No sequence's name is longer.
const LONGEST: usize = "HELD22_M".len();

impl Display for Run {
    fn fmt<W: fmt::Write>(&self, f: &mut Formatter<W>) -> fmt::Result {
        let start = match self.kind {
            Kind::Held => "",
            _ if self.homed => "H",
            _ => "R",
        };
        let input = match self.kind {
            Kind::Normal => "N",
            Kind::Overload => "V",
            Kind::Codewords => "I",
            Kind::Jump => "J",
            Kind::Held => "HELD",
        };
        write!(f, "{start}{input}{}{}_{}", self.width, self.core, self.laws)
    }
}

pub fn is_named(run: &Run, name: &[u8]) -> bool {
    InlineText::<LONGEST>::of(*run).as_str().as_bytes() == name
}

pub const HELP: &str =
    "a name is R or H, N, V or I, a pair of 52 42 32 22 53 43 33 54 44, _, and M, A, C or X, but \
    M or A after I; or RJ, one of 52 53 54, _, and M or A; or HELD22_M, HELD33_M, HELD44_M";

// A writer's stage and numbers between commas.
use crate::fields::Parts;
use crate::forms::Form;
use crate::shown::Shown;
use sequence_writer::{Stage, Writer};
use std::fmt;
use std::fmt::{Display, Formatter};

impl Form for Writer {
    fn read(text: &[u8]) -> Option<Writer> {
        let mut parts = Parts::of(text, b',');
        let writer = Writer {
            stage: parts.next()?,
            column: parts.next()?,
            value: parts.next()?,
            sum: parts.next()?,
        };
        parts.is_over().then_some(writer)
    }
}

// Both ways in the forms' traits, as a refusal (readers)
impl Form for Stage {
    fn read(text: &[u8]) -> Option<Stage> {
        match text {
            b"0" => Some(Stage::Values),
            b"1" => Some(Stage::Closing),
            b"2" => Some(Stage::Remainder),
            b"3" => Some(Stage::Done),
            _ => None,
        }
    }
}

impl Display for Shown<Stage> {
    fn fmt<W: fmt::Write>(&self, f: &mut Formatter<W>) -> fmt::Result {
        f.write_str(match self.0 {
            Stage::Values => "0",
            Stage::Closing => "1",
            Stage::Remainder => "2",
            Stage::Done => "3",
        })
    }
}

impl Display for Shown<Writer> {
    fn fmt<W: fmt::Write>(&self, f: &mut Formatter<W>) -> fmt::Result {
        let w = self.0;
        let stage = Shown(w.stage);
        write!(f, "{stage},{},{},{}", w.column, w.value, w.sum)
    }
}

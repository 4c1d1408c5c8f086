// A reader's verdict, place and numbers between commas.
use crate::fields::Parts;
use crate::forms::{Form, Place};
use crate::shown::Shown;
use sequence::reader::{Fault, Reader, Refusal};
use std::fmt;
use std::fmt::{Display, Formatter};

impl Form for Reader {
    fn read(text: &[u8]) -> Option<Reader> {
        let mut parts = Parts::of(text, b',');
        let reader = Reader {
            verdict: verdict_in(&mut parts)?,
            line: parts.next::<Place>()?.0,
            column: parts.next()?,
            high: parts.next()?,
            holds: parts.next()?,
            held: parts.next()?,
            sum: parts.next()?,
        };
        parts.is_over().then_some(reader)
    }
}

// A sound verdict has no place but 0.
fn verdict_in(parts: &mut Parts<'_>) -> Option<Result<(), Fault>> {
    let sound: Result<(), Refusal> = parts.next()?;
    let Place(place) = parts.next()?;
    match sound {
        Ok(()) => (place == 0).then_some(Ok(())),
        Err(why) => Some(Err(Fault { why, place })),
    }
}

// Both ways in the forms' traits: the refusals and the numbers are other crates' types, between which no From can stand here.
impl Form for Result<(), Refusal> {
    fn read(text: &[u8]) -> Option<Result<(), Refusal>> {
        match text {
            b"0" => Some(Ok(())),
            b"1" => Some(Err(Refusal::BadCharacter)),
            b"2" => Some(Err(Refusal::LineTooLong)),
            b"3" => Some(Err(Refusal::WrongRemainder)),
            b"4" => Some(Err(Refusal::MissingRemainder)),
            _ => None,
        }
    }
}

impl Display for Shown<Result<(), Refusal>> {
    fn fmt<W: fmt::Write>(&self, f: &mut Formatter<W>) -> fmt::Result {
        f.write_str(match self.0 {
            Ok(()) => "0",
            Err(Refusal::BadCharacter) => "1",
            Err(Refusal::LineTooLong) => "2",
            Err(Refusal::WrongRemainder) => "3",
            Err(Refusal::MissingRemainder) => "4",
        })
    }
}

// The verdict's number and its place
fn parts_of(verdict: Result<(), Fault>) -> (Shown<Result<(), Refusal>>, Place) {
    match verdict {
        Ok(()) => (Shown(Ok(())), Place(0)),
        Err(fault) => (Shown(Err(fault.why)), Place(fault.place)),
    }
}

impl Display for Shown<Result<(), Fault>> {
    fn fmt<W: fmt::Write>(&self, f: &mut Formatter<W>) -> fmt::Result {
        let (verdict, place) = parts_of(self.0);
        write!(f, "{verdict} {place}")
    }
}

impl Display for Shown<Reader> {
    fn fmt<W: fmt::Write>(&self, f: &mut Formatter<W>) -> fmt::Result {
        let r = self.0;
        let (verdict, place) = parts_of(r.verdict);
        let line = Place(r.line);
        let holds = u8::from(r.holds);
        write!(
            f,
            "{verdict},{place},{line},{},{},{holds},{},{}",
            r.column, r.high, r.held, r.sum
        )
    }
}

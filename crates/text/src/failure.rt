// Why the system refused something, as it is said behind what failed.
use std::fmt;
use std::fmt::{Display, Formatter, InlineText};
use std::io::Error;

// Of an error of the system its text alone: behind that std writes its number.
#[derive(Clone, Copy)]
pub struct Why(pub Error);

impl Display for Why {
    fn fmt<W: fmt::Write>(&self, f: &mut Formatter<W>) -> fmt::Result {
        let said = InlineText::<256>::of(self.0);
        let words = said.as_str();
        match words.split_once(" (os error ") {
            Some((text, _)) => f.write_str(text),
            None => f.write_str(words),
        }
    }
}

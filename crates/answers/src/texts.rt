// The calls on texts of test sequences.
use crate::fields::Fields;
use crate::forms::Octets;
use crate::shown::{Said, Shown};
use crate::unanswered::Unanswered;
use sequence::reader;
use std::io::Write;

#[inline(never)]
pub fn read(mut fields: Fields<'_>, said: &mut Said) -> Result<(), Unanswered> {
    let from = fields.next()?;
    let mut text = Octets::new();
    fields.list(&mut text)?;
    let mut values = Octets::new();
    fields.list(&mut values)?;
    fields.end()?;
    let answer = reader::read(from, &text, &mut values);
    let values = Shown(values.as_slice());
    let reader = Shown(answer.state);
    Ok(write!(
        said,
        "{} {} {values} {reader}",
        answer.taken, answer.written
    )?)
}

pub fn end_text(mut fields: Fields<'_>, said: &mut Said) -> Result<(), Unanswered> {
    let reader = fields.next()?;
    fields.end()?;
    let verdict = Shown(reader::end(reader));
    Ok(write!(said, "{verdict}")?)
}

#[inline(never)]
pub fn write(mut fields: Fields<'_>, said: &mut Said) -> Result<(), Unanswered> {
    let from = fields.next()?;
    let mut values = Octets::new();
    fields.list(&mut values)?;
    let mut text = Octets::new();
    fields.list(&mut text)?;
    fields.end()?;
    let answer = sequence_writer::write(from, &values, &mut text);
    let text = Shown(text.as_slice());
    let writer = Shown(answer.state);
    Ok(write!(said, "{} {} {text} {writer}", answer.taken, answer.written)?)
}

pub fn end_values(mut fields: Fields<'_>, said: &mut Said) -> Result<(), Unanswered> {
    let writer = fields.next()?;
    fields.end()?;
    let ended = Shown(sequence_writer::end(writer));
    Ok(write!(said, "{ended}")?)
}

// The calls of the codec.
use crate::fields::Fields;
use crate::forms::{Law, Octets, Samples};
use crate::shown::{Said, Shown};
use crate::unanswered::Unanswered;
use codewords::Decoded;
use replies::{Refusal, number_of};
use state::answer::Answer;
use std::fmt;
use std::fmt::{Display, Formatter};
use std::io::Write;

pub fn reset(mut fields: Fields<'_>, said: &mut Said) -> Result<(), Unanswered> {
    let core = fields.next()?;
    fields.end()?;
    let Answer { state, done } = reset::reset(core);
    Ok(write!(said, "{} {}", Shown(done), Shown(state))?)
}

// The encoders and the decoders stay four: each reads the parameters of a public call of its own, and no two calls have the same. What they
// share is in `say`.
#[inline(never)]
pub fn encode(mut fields: Fields<'_>, said: &mut Said) -> Result<(), Unanswered> {
    let s = fields.next()?;
    let law = fields.next()?;
    let edition = fields.next()?;
    let width = fields.next()?;
    let mut samples = Octets::new();
    fields.list(&mut samples)?;
    let mut out = Octets::new();
    fields.list(&mut out)?;
    fields.end()?;
    let answer = encode::encode(s, law, edition, width, &samples, &mut out);
    say(said, answer, out.as_slice())
}

#[inline(never)]
pub fn encode_linear(mut fields: Fields<'_>, said: &mut Said) -> Result<(), Unanswered> {
    let s = fields.next()?;
    let edition = fields.next()?;
    let width = fields.next()?;
    let mut samples = Samples::new();
    fields.list(&mut samples)?;
    let mut out = Octets::new();
    fields.list(&mut out)?;
    fields.end()?;
    let answer = encode_linear::encode_linear(s, edition, width, &samples, &mut out);
    say(said, answer, out.as_slice())
}

#[inline(never)]
pub fn decode(mut fields: Fields<'_>, said: &mut Said) -> Result<(), Unanswered> {
    let s = fields.next()?;
    let law = fields.next()?;
    let mut frame = Octets::new();
    fields.list(&mut frame)?;
    let mut out = Octets::new();
    fields.list(&mut out)?;
    fields.end()?;
    let answer = decode::decode(s, law, &frame, &mut out);
    say(said, answer, out.as_slice())
}

#[inline(never)]
pub fn decode_linear(mut fields: Fields<'_>, said: &mut Said) -> Result<(), Unanswered> {
    let s = fields.next()?;
    let mut frame = Octets::new();
    fields.list(&mut frame)?;
    let mut out = Samples::new();
    fields.list(&mut out)?;
    fields.end()?;
    let answer = decode_linear::decode_linear(s, &frame, &mut out);
    say(said, answer, out.as_slice())
}

// What was done, the whole buffer as the call left it, and the state
fn say<D: Copy, O: Copy>(said: &mut Said, answer: Answer<D>, out: O) -> Result<(), Unanswered>
where
    Shown<Result<D, Refusal>>: Display,
    Shown<O>: Display,
{
    let done = Shown(answer.done);
    let state = Shown(answer.state);
    Ok(write!(said, "{done} {} {state}", Shown(out))?)
}

#[inline(never)]
pub fn drop_planes(mut fields: Fields<'_>, said: &mut Said) -> Result<(), Unanswered> {
    let mut frame = Octets::new();
    fields.list(&mut frame)?;
    let width = fields.next()?;
    let mut out = Octets::new();
    fields.list(&mut out)?;
    fields.end()?;
    let done = drop_planes::drop_planes(&frame, width, &mut out);
    Ok(write!(said, "{} {}", Shown(done), Shown(out.as_slice()))?)
}

// The level of an octet, and the octets one level above and below, as SYNC takes them
pub fn level(mut fields: Fields<'_>, said: &mut Said) -> Result<(), Unanswered> {
    let Law(law) = fields.next()?;
    let octet = fields.next()?;
    fields.end()?;
    let level = g711::expand(octet, law);
    let above = g711::above(octet, law);
    let below = g711::below(octet, law);
    Ok(write!(said, "{level} {above} {below}")?)
}

// The reply's number and the counts, which are 0 where the call refused
impl Display for Shown<Result<usize, Refusal>> {
    fn fmt<W: fmt::Write>(&self, f: &mut Formatter<W>) -> fmt::Result {
        let number = number_of(&self.0);
        match self.0 {
            Ok(octets) => write!(f, "{number} {octets}"),
            Err(_) => write!(f, "{number} 0"),
        }
    }
}

impl Display for Shown<Result<Decoded, Refusal>> {
    fn fmt<W: fmt::Write>(&self, f: &mut Formatter<W>) -> fmt::Result {
        let number = number_of(&self.0);
        match self.0 {
            Ok(decoded) => write!(f, "{number} {} {}", decoded.samples, decoded.disagreements),
            Err(_) => write!(f, "{number} 0 0"),
        }
    }
}

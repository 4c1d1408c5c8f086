// Reading a text in pieces: its values go into a second buffer, and what is wrong with it is told by name and place.
ghost use Rattle.std.specs.Prelude.{◌≡◌, ◌≤◌, Some};
ghost use Rattle.sequence.specs.Message.{message};
ghost use Rattle.sequence.specs.Reading.{beginning, Reads, back, remainder_verdict, end_of, last_place};

use crate::modular::remainder_of;
use crate::progress::Progress;
use crate::step::step;
use std::fmt;
use std::fmt::{Display, Formatter};

#[derive(Clone, Copy, PartialEq, Eq, Debug)]
pub enum Refusal {
    BadCharacter,
    LineTooLong,
    WrongRemainder,
    MissingRemainder,
}

impl Display for Refusal {
    ghost output = { λ why. Some (message why) };

    fn fmt<W: fmt::Write>(&self, f: &mut Formatter<W>) -> fmt::Result {
        f.write_str(match self {
            Refusal::BadCharacter => "bad character",
            Refusal::LineTooLong => "line too long",
            Refusal::WrongRemainder => "wrong remainder",
            Refusal::MissingRemainder => "missing remainder",
        })
    }
}

// What is wrong with a text, and its place, counted in characters from 0
#[derive(Clone, Copy, PartialEq, Eq, Debug)]
pub struct Fault {
    pub why: Refusal,
    pub place: u64,
}

// Between two characters: what was found wrong, where the line starts, how many characters of it were read, its last digit where that is
// half a value, the value that is held back, and the sum of those that were handed out, modulo 255.
// `high`, `holds` and `held` are no Option: a program hands in and prints a reader, and any numbers may stand in them (docs/ANSWERS.md).
#[derive(Clone, Copy)]
pub struct Reader {
    pub verdict: Result<(), Fault>,
    pub line: u64,
    pub column: u8,
    pub high: u8,
    pub holds: bool,
    pub held: u8,
    pub sum: u8,
}

// Before the first character
pub fn begin() -> Reader
    ensures { result ≡ beginning }
{
    Reader {
        verdict: Ok(()),
        line: 0,
        column: 0,
        high: 0,
        holds: false,
        held: 0,
        sum: 0,
    }
}

// Takes characters until they end, until one is refused, or until one hands out a value for which there is no room. The one that
// it stops at is not taken. By index: of a write through get_mut a proof knows the length only. `written` is counted by hand: it is
// answered, and not each character moves it, as an index that `enumerate` gives would.
#[tactic(auto, using(crate::proofs::Going::going_refused, crate::proofs::Going::going_full, crate::proofs::Going::going_done))]
pub fn read(from: Reader, text: &[u8], values: &mut [u8]) -> Progress<Reader>
    ensures { Reads from text.now values.old values.new result }
{
    let mut reader = from;
    let mut written = 0;
    for (taken, character) in text.iter().enumerate() {
        let next = step(reader, *character);
        if next.reader.verdict.is_err() {
            return Progress {
                state: next.reader,
                taken,
                written,
            };
        }
        if let Some(value) = next.value {
            if values.len() <= written {
                return Progress {
                    state: reader,
                    taken,
                    written,
                };
            }
            values[written] = value;
            written += 1;
        }
        reader = next.reader;
    }
    Progress {
        state: reader,
        taken: text.len(),
        written,
    }
}

// The text ends here
#[tactic(auto, unfolding(crate::specs::Reading::end_of))]
pub fn end(r: Reader) -> Result<(), Fault>
    ensures { result ≡ end_of r }
{
    r.verdict?;
    if r.column == 0 && r.holds {
        return remainder_verdict(r);
    }
    Err(Fault {
        why: Refusal::MissingRemainder,
        place: r.line,
    })
}

// Its line, two digits and a line feed, is behind.
fn remainder_verdict(r: Reader) -> Result<(), Fault>
    ensures { result ≡ remainder_verdict r }
{
    if r.held == remainder_of(r.sum) {
        return Ok(());
    }
    Err(Fault {
        why: Refusal::WrongRemainder,
        place: back(3, r.line),
    })
}

// A place so many characters before another
fn back(n: u64, at: u64) -> u64
    requires { n ≤ 6 }
    ensures { result ≡ back n at }
{
    at.wrapping_sub(n)
}

// Where the value stands that was handed out last. In its line, or as the last of the line before; a value that is held back
// alone in its line stands between.
#[tactic(auto, unfolding(crate::specs::Reading::last_place))]
pub fn last_place(r: Reader) -> u64
    ensures { result ≡ last_place r }
{
    if 3 <= r.column {
        let values = u64::from(r.column / 2);
        return r.line.wrapping_add(2 * values - 2);
    }
    if r.column == 0 && r.holds {
        return back(6, r.line);
    }
    back(3, r.line)
}

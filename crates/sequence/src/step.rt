// One character: what it makes of the reader, and the value that it hands out.
ghost use Rattle.std.specs.Prelude.{◌≡◌, ◌<◌};
ghost use Rattle.sequence.specs.Limits.{longest, is_whole};
ghost use Rattle.sequence.specs.Reading.{place, refused, line_ended, kept, handed, first_digit, second_digit, joined, with_digit, step_of};

use crate::digits::digit_of;
use crate::limits::{LINE_FEED, LONGEST};
use crate::modular::added;
use crate::reader::{Fault, Reader, Refusal};

#[derive(Clone, Copy)]
pub struct Stepped {
    pub reader: Reader,
    pub value: Option<u8>,
}

#[tactic(auto, unfolding(crate::specs::Reading::step_of))]
pub fn step(r: Reader, character: u8) -> Stepped
    ensures { result ≡ step_of r character }
{
    if r.verdict.is_err() {
        return kept(r);
    }
    if character == LINE_FEED && is_whole(r.column) {
        return kept(line_ended(r));
    }
    let Some(digit) = digit_of(character) else {
        return kept(refused(r, Refusal::BadCharacter));
    };
    if LONGEST <= r.column {
        return kept(refused(r, Refusal::LineTooLong));
    }
    with_digit(r, digit)
}

// Nothing is handed out
fn kept(reader: Reader) -> Stepped
    ensures { result ≡ kept reader }
{
    Stepped {
        reader,
        value: None,
    }
}

// So many characters are whole values, and not none
fn is_whole(column: u8) -> bool
    ensures { result ≡ is_whole column }
{
    column % 2 == 0 && 2 <= column
}

// Where the next character stands
fn place_of(r: Reader) -> u64
    ensures { result ≡ place r }
{
    r.line.wrapping_add(u64::from(r.column))
}

fn refused(r: Reader, why: Refusal) -> Reader
    ensures { result ≡ refused r why }
{
    Reader {
        verdict: Err(Fault {
            why,
            place: place_of(r),
        }),
        ..r
    }
}

// What is held stays: alone in its line, it may be the remainder.
fn line_ended(r: Reader) -> Reader
    ensures { result ≡ line_ended r }
{
    Reader {
        line: place_of(r).wrapping_add(1),
        column: 0,
        ..r
    }
}

// Its line has room, which this and the next two require: a Reader itself may hold any numbers (docs/RULES.md).
#[tactic(auto, unfolding(crate::specs::Reading::with_digit))]
fn with_digit(r: Reader, digit: u8) -> Stepped
    requires { r.column < longest }
    ensures { result ≡ with_digit r digit }
{
    if r.column % 2 == 0 {
        first_digit(r, digit)
    } else {
        second_digit(r, joined(r.high, digit))
    }
}

// It shows that what is held is no remainder, since something follows it.
#[tactic(auto, unfolding(crate::specs::Reading::first_digit))]
fn first_digit(r: Reader, digit: u8) -> Stepped
    requires { r.column < longest }
    ensures { result ≡ first_digit r digit }
{
    let begun = Reader {
        column: r.column + 1,
        high: digit,
        holds: false,
        ..r
    };
    if r.holds {
        handed(begun, r.held)
    } else {
        kept(begun)
    }
}

// The first value of a line is held back, every other one is handed out.
#[tactic(auto, unfolding(crate::specs::Reading::second_digit))]
fn second_digit(r: Reader, value: u8) -> Stepped
    requires { r.column < longest }
    ensures { result ≡ second_digit r value }
{
    let completed = Reader {
        column: r.column + 1,
        ..r
    };
    if r.column == 1 {
        kept(Reader {
            holds: true,
            held: value,
            ..completed
        })
    } else {
        handed(completed, value)
    }
}

// A value that is handed out is summed
fn handed(r: Reader, value: u8) -> Stepped
    ensures { result ≡ handed r value }
{
    Stepped {
        reader: Reader {
            sum: added(r.sum, value),
            ..r
        },
        value: Some(value),
    }
}

fn joined(high: u8, low: u8) -> u8
    ensures { result ≡ joined high low }
{
    high.wrapping_mul(16).wrapping_add(low)
}

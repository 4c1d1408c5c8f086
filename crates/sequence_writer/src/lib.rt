// Values written as the text of a test sequence, in pieces: one character at a time, so that any buffer will do.
#![tactic(auto)]

mod digits;

ghost use Rattle.std.specs.Prelude.{◌≡◌};
ghost use Rattle.sequence_writer.specs.Writing.{blank, closed, closing, behind_line, is_done, awaits, ends_line, second_digit_of, fed_of, first_digit_of, remainder_of, due_of, Writes};

use crate::digits::capital;
use sequence::limits::{LINE_FEED, LONGEST};
use sequence::modular::{added, remainder_of};
use sequence::progress::Progress;

// What is written: values; the rest of their last line; the remainder's line; nothing more
#[derive(Clone, Copy, PartialEq, Eq, Debug)]
pub enum Stage {
    Values,
    Closing,
    Remainder,
    Done,
}

// Between two characters: how many of the line were written, the value whose second digit is due where that is one, and the sum of
// all values, modulo 255. `value` is no Option: a program hands in and prints a writer, and any number may stand there (docs/ANSWERS.md).
#[derive(Clone, Copy)]
pub struct Writer {
    pub stage: Stage,
    pub column: u8,
    pub value: u8,
    pub sum: u8,
}

// Before the first value
pub fn begin() -> Writer
    ensures { result ≡ blank }
{
    Writer {
        stage: Stage::Values,
        column: 0,
        value: 0,
        sum: 0,
    }
}

// No value follows
pub fn end(w: Writer) -> Writer
    ensures { result ≡ closing w }
{
    Writer {
        stage: closed(w.stage),
        ..w
    }
}

fn closed(stage: Stage) -> Stage
    ensures { result ≡ closed stage }
{
    match stage {
        Stage::Values => Stage::Closing,
        later => later,
    }
}

// Writes characters until there is no room, or none is due. `taken` is counted by hand: it is answered, and not each character moves
// it, as an index that `enumerate` gives would.
pub fn write(from: Writer, values: &[u8], text: &mut [u8]) -> Progress<Writer>
    ensures { Writes from values.now text.old text.new result }
{
    let mut writer = from;
    let mut taken = 0;
    for (written, character) in text.iter_mut().enumerate() {
        let Some(next) = next(writer, values.get(taken).copied()) else {
            return Progress {
                state: writer,
                taken,
                written,
            };
        };
        *character = next.character;
        taken += usize::from(awaits(writer));
        writer = next.writer;
    }
    Progress {
        state: writer,
        taken,
        written: text.len(),
    }
}

// A character, and the writer behind it
#[derive(Clone, Copy)]
struct Written {
    pub character: u8,
    pub writer: Writer,
}

// The next character. None is due behind the end, nor where a value is to be begun and none is handed in.
#[tactic(auto, unfolding(crate::specs::Writing::next_of))]
fn next(w: Writer, value: Option<u8>) -> Option<Written>
    ensures { result ≡ due_of w value }
{
    if is_done(w) {
        return None;
    }
    if awaits(w) {
        return Some(first_digit(w, value?));
    }
    if w.column % 2 == 1 {
        return Some(second_digit(w));
    }
    if ends_line(w) {
        return Some(fed(w));
    }
    Some(remainder_begun(w))
}

fn second_digit(w: Writer) -> Written
    ensures { result ≡ second_digit_of w }
{
    Written {
        character: capital(w.value % 16),
        writer: Writer {
            column: w.column.wrapping_add(1),
            ..w
        },
    }
}

// A line feed
fn fed(w: Writer) -> Written
    ensures { result ≡ fed_of w }
{
    Written {
        character: LINE_FEED,
        writer: Writer {
            stage: behind_line(w.stage),
            column: 0,
            ..w
        },
    }
}

fn behind_line(stage: Stage) -> Stage
    ensures { result ≡ behind_line stage }
{
    match stage {
        Stage::Remainder => Stage::Done,
        other => other,
    }
}

fn first_digit(w: Writer, value: u8) -> Written
    ensures { result ≡ first_digit_of w value }
{
    Written {
        character: capital(value / 16),
        writer: Writer {
            column: w.column.wrapping_add(1),
            value,
            sum: added(w.sum, value),
            ..w
        },
    }
}

fn remainder_begun(w: Writer) -> Written
    ensures { result ≡ remainder_of w }
{
    let value = remainder_of(w.sum);
    Written {
        character: capital(value / 16),
        writer: Writer {
            stage: Stage::Remainder,
            column: 1,
            value,
            ..w
        },
    }
}

// Whether the next character is the first of a value that is still to be handed in
fn awaits(w: Writer) -> bool
    ensures { result ≡ awaits w }
{
    w.stage == Stage::Values && w.column % 2 == 0 && w.column < LONGEST
}

// Whether a line feed is due, the column being even
fn ends_line(w: Writer) -> bool
    ensures { result ≡ ends_line w }
{
    w.stage == Stage::Remainder || LONGEST <= w.column || w.stage == Stage::Closing && w.column != 0
}

pub fn is_done(w: Writer) -> bool
    ensures { result ≡ is_done w.stage }
{
    w.stage == Stage::Done
}

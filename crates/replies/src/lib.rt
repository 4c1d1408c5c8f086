// Why a call refuses what it is handed, and the number of each refusal; specs/Reply.antt has the numbers.
#![tactic(auto)]

ghost use Rattle.std.specs.Prelude.{◌≡◌};
ghost use Rattle.replies.specs.Reply.{is_law, number_of, refusal_number};

use std::error::Error;
use std::fmt;

#[derive(Clone, Copy, Debug, PartialEq, Eq)]
pub enum Refusal {
    Pair = 1,
    Count,
    Room,
    Range,
    Header,
    Length,
    Core,
    Target,
    Law,
    Number,
    Sample,
}

// Its number, for whoever prints or sends it. By `as`, since its cases have their numbers by their places.
impl From<Refusal> for u8 {
    ghost from_gives = { λ refusal number. number ≡ refusal_number refusal };

    fn from(refusal: Refusal) -> u8 {
        refusal as u8
    }
}

// Its row of the table of replies
impl fmt::Display for Refusal {
    fn fmt<W: fmt::Write>(&self, f: &mut fmt::Formatter<W>) -> fmt::Result {
        f.write_str(match self {
            Refusal::Pair => "width or core not one of the nine pairs",
            Refusal::Count => "sample count not a multiple of 8 from 8 to 320, or g not 1 to 40",
            Refusal::Room => "out buffer shorter than the result",
            Refusal::Range => "a state variable outside its range",
            Refusal::Header => "fewer than 2 octets, or edition neither 01 nor 10",
            Refusal::Length => "length not 2 + x times g in edition 1, 3 + x times g in edition 2",
            Refusal::Core => "frame's core differs from the state's",
            Refusal::Target => "target width below y or above x",
            Refusal::Law => "law not 0 (mu) or 1 (A)",
            Refusal::Number => "frame's number is not the next one of the state",
            Refusal::Sample => "a linear sample not from -8192 to 8191",
        })
    }
}

impl Error for Refusal {}

// The number of a reply: 0 where what was asked is done
pub fn number_of<T: Drop>(done: &Result<T, Refusal>) -> u8
    ensures { result ≡ number_of done.now }
{
    match done {
        Ok(_) => 0,
        Err(refusal) => u8::from(*refusal),
    }
}

pub fn is_law(law: u8) -> bool
    ensures { result ≡ is_law law }
{
    law <= 1
}

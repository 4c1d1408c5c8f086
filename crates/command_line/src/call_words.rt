// The words that a program is called with. The runtime has them, by their places from 1 on.
ghost use Rattle.std.specs.Prelude.{◌≡◌, ◌≤◌, ◌⊎◌, ◌↔◌, length, is_some, IfSome, IfOk, IfErr, SomeIff, IsTrue};
ghost use Rattle.command_line.specs.CallWords.{place_behind, place_after, with_digit, value_of, is_digit, IsNumber, IsFileName};

use crate::wrong::{Name, Wrong};
use arrayvec::ArrayVec;
use std::env::FillError;
use std::rt::Env;

// Of a word these octets are all that counts.
const MOST: usize = 4096;

// A word, which need not be UTF-8
#[derive(Drop)]
pub struct Word {
    pub place: usize,
    octets: ArrayVec<u8, MOST>,
}

impl Word {
    // None where the words end before the place
    pub fn at(rt: &HostRuntime, place: usize) -> Option<Word>
        ensures { IfSome result (λ word. word.place ≡ place) }
    {
        let mut octets = ArrayVec::from([0; MOST]);
        match rt.arg(place, octets.as_mut_slice()) {
            Ok(count) => octets.truncate(count),
            Err(FillError::TooLong) => {}
            Err(FillError::NotPresent) => return None,
        }
        Some(Word { place, octets })
    }

    pub fn as_bytes(&self) -> &[u8]
        ensures octets { result.now ≡ self.now.octets.items }
        ensures most { length result.now ≤ 4096 }
    {
        self.octets.as_slice()
    }

    // Of decimal digits only. One that is too great is the greatest: every limit of the calls lies far below.
    pub fn number(&self) -> Option<u16>
        ensures { SomeIff result (IsNumber self.now.octets.items) (value_of self.now.octets.items) }
    {
        let digits = self.as_bytes();
        if digits.is_empty() {
            return None;
        }
        digits
            .iter()
            .try_fold(0, |number, digit| grown(number, *digit))
    }

    // Whether it can name a file: it is not empty, no number and no option
    pub fn is_name(&self) -> bool
        ensures { IsTrue result ↔ IsFileName self.now.octets.items }
    {
        match self.as_bytes() {
            [] | [b'-', ..] => false,
            _ => self.number().is_none(),
        }
    }
}

fn grown(number: u16, letter: u8) -> Option<u16>
    ensures { SomeIff result (IsTrue (is_digit letter)) (with_digit number letter) }
{
    let digit = char::from(letter).to_digit(10)?;
    // Narrowed by `as`, proved to lose nothing; TryFrom would add a failure that cannot come.
    Some(number.saturating_mul(10).saturating_add(digit as u16))
}

// The words from a place on, read from the left
#[derive(Drop)]
pub struct Words<'a> {
    rt: &'a HostRuntime,
    pub place: usize,
}

impl Words<'_> {
    pub fn new(rt: &HostRuntime) -> Words<'_>
        ensures { result.place ≡ 1 }
    {
        Words { rt, place: 1 }
    }

    fn peek(&self) -> Option<Word>
        ensures { IfSome result (λ word. word.place ≡ self.now.place) }
    {
        Word::at(self.rt, self.place)
    }

    fn skip(&mut self)
        ensures { self.new.place ≡ place_behind self.old.place }
    {
        self.place = self.place.wrapping_add(1);
    }

    // Goes past the word where it is this one
    pub fn skip_if(&mut self, text: &[u8]) -> bool
        ensures { self.new.place ≡ place_after result self.old.place }
    {
        let is_text = match self.peek() {
            Some(word) => word.as_bytes() == text,
            None => false,
        };
        if is_text {
            self.skip();
        }
        is_text
    }

    pub fn next(&mut self) -> Option<Word>
        ensures moves { self.new.place ≡ place_behind self.old.place }
        ensures here { IfSome result (λ word. word.place ≡ self.old.place) }
    {
        let word = self.peek();
        self.skip();
        word
    }

    // The next word where it is a number
    pub fn next_number(&mut self) -> Option<u16>
        ensures { self.new.place ≡ place_after (is_some result) self.old.place }
    {
        let number = self.peek()?.number()?;
        self.skip();
        Some(number)
    }

    pub fn is_at_end(&self) -> bool {
        self.peek().is_none()
    }

    // Nothing may follow.
    pub fn end(&self) -> Result<(), Wrong>
        ensures { IfErr result (λ wrong. wrong ≡ Wrong.Unknown self.now.place) }
    {
        if self.is_at_end() {
            return Ok(());
        }
        Err(Wrong::Unknown(self.place))
    }

    // A word that has to be there
    pub fn named(&mut self, name: Name) -> Result<Word, Wrong>
        ensures moves { self.new.place ≡ place_behind self.old.place }
        ensures here { IfOk result (λ word. word.place ≡ self.old.place) }
        ensures missing { IfErr result (λ wrong. wrong ≡ Wrong.Missing name) }
    {
        self.next().ok_or(Wrong::Missing(name))
    }

    pub fn number(&mut self, name: Name) -> Result<u16, Wrong>
        ensures moves { self.new.place ≡ place_behind self.old.place }
        ensures wrong { IfErr result (λ wrong. (wrong ≡ Wrong.Missing name) ⊎ (wrong ≡ Wrong.NoNumber self.old.place)) }
    {
        let word = self.named(name)?;
        word.number().ok_or(Wrong::NoNumber(word.place))
    }

    // The place of a file's name
    pub fn file(&mut self) -> Result<usize, Wrong>
        ensures moves { self.new.place ≡ place_behind self.old.place }
        ensures here { IfOk result (λ place. place ≡ self.old.place) }
        ensures wrong { IfErr result (λ wrong. (wrong ≡ Wrong.Missing Name.File) ⊎ (wrong ≡ Wrong.NoFileName self.old.place)) }
    {
        let word = self.named(Name::File)?;
        if word.is_name() {
            return Ok(word.place);
        }
        Err(Wrong::NoFileName(word.place))
    }
}

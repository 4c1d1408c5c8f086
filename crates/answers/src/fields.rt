// A line's fields stand between single spaces, the parts of some fields between commas.
ghost use Rattle.std.specs.Prelude.{◌≡◌, ◌+◌, ◌↔◌, min, IsTrue, IsNone, IsOk, IfErr};
ghost use Rattle.std.specs.Option.{option_copied};
ghost use Rattle.answers.specs.Parts.{IsPart};

use crate::forms::{Form, Listed};
use crate::unanswered::Unanswered;

// What stands between single marks
#[derive(Clone, Copy)]
pub struct Parts<'a> {
    rest: Option<&'a [u8]>,
    mark: u8,
}

impl<'a> Parts<'a> {
    pub fn of(text: &'a [u8], mark: u8) -> Parts<'a> {
        Parts {
            rest: Some(text),
            mark,
        }
    }

    pub fn part(&mut self) -> Option<&'a [u8]>
        ensures mark { self.new.mark ≡ self.old.mark }
        ensures part { IsPart self.old.mark (option_copied self.old.rest) (option_copied result) (option_copied self.new.rest) }
    {
        let text = self.rest?;
        let mark = self.mark;
        match text.iter().position(|octet| *octet == mark) {
            Some(n) => {
                self.rest = Some(&text[n + 1..]);
                Some(&text[..n])
            }
            None => {
                self.rest = None;
                Some(text)
            }
        }
    }

    pub fn next<F: Form>(&mut self) -> Option<F> {
        F::read(self.part()?)
    }

    pub fn is_over(&self) -> bool
        ensures { IsTrue result ↔ IsNone self.now.rest }
    {
        self.rest.is_none()
    }
}

#[derive(Clone, Copy)]
pub struct Fields<'a> {
    parts: Parts<'a>,
    // of the field that was read last
    number: usize,
}

impl<'a> Fields<'a> {
    pub fn of(line: &'a [u8]) -> Fields<'a> {
        Fields {
            parts: Parts::of(line, b' '),
            number: 0,
        }
    }

    // The next one, empty where there is none; no form is.
    pub fn text(&mut self) -> &'a [u8] {
        self.number = self.number.saturating_add(1);
        self.parts.part().unwrap_or(&[])
    }

    pub fn next<F: Form>(&mut self) -> Result<F, Unanswered> {
        let text = self.text();
        F::read(text).ok_or(Unanswered::Unreadable(self.number))
    }

    pub fn list<L: Listed>(&mut self, list: &mut L) -> Result<(), Unanswered> {
        let text = self.text();
        L::read(text, list)?.ok_or(Unanswered::Unreadable(self.number))
    }

    pub fn end(&self) -> Result<(), Unanswered>
        ensures over { IsOk result ↔ IsNone self.now.parts.rest }
        ensures next { IfErr result (λ why. why ≡ Unanswered.TooMany (min (self.now.number + 1) usize.MAX)) }
    {
        if self.parts.is_over() {
            Ok(())
        } else {
            Err(Unanswered::TooMany(self.number.saturating_add(1)))
        }
    }
}

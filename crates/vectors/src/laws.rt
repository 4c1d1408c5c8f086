// The laws of a run's two ends.
ghost use Rattle.std.specs.Prelude.{◌≡◌};
ghost use Rattle.vectors.specs.Laws.{law_sent, law_heard};

use std::fmt;
use std::fmt::{Display, Formatter};
use text::law::Law;

#[derive(Clone, Copy)]
pub enum Laws {
    Mu,
    A,
    MuToA,
    AToMu,
}

impl Laws {
    // The encoder's, and that of the homing sequence
    pub fn sent(self) -> Law
        ensures { result ≡ law_sent self }
    {
        match self {
            Laws::Mu | Laws::MuToA => Law::Mu,
            Laws::A | Laws::AToMu => Law::A,
        }
    }

    // The decoder's
    pub fn heard(self) -> Law
        ensures { result ≡ law_heard self }
    {
        match self {
            Laws::Mu | Laws::AToMu => Law::Mu,
            Laws::A | Laws::MuToA => Law::A,
        }
    }
}

// The letter in a sequence's name
impl Display for Laws {
    fn fmt<W: fmt::Write>(&self, f: &mut Formatter<W>) -> fmt::Result {
        f.write_str(match *self {
            Laws::Mu => "M",
            Laws::A => "A",
            Laws::MuToA => "C",
            Laws::AToMu => "X",
        })
    }
}

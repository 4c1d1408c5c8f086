// What may be wrong with the words, and how it is said: the first wrong one, and the usage.
use crate::program::Program;
use crate::quoting::say_quoting;
use std::fmt;
use std::fmt::{Display, Formatter};

// A word that may be missing, as the usage calls it
#[derive(Clone, Copy)]
pub enum Name {
    Command,
    Law,
    Width,
    Core,
    File,
}

// Words by their places
#[derive(Clone, Copy)]
pub enum Wrong {
    Missing(Name),
    Unknown(usize),
    NoLaw(usize),
    NoNumber(usize),
    NoWidth(usize),
    NoPair(usize, usize),
    NoCount(usize),
    NoEdition(usize),
    NoStates(usize),
    NoFileName(usize),
    TwoForOneFile(usize),
}

impl Display for Name {
    fn fmt<W: fmt::Write>(&self, f: &mut Formatter<W>) -> fmt::Result {
        f.write_str(match self {
            Name::Command => "COMMAND",
            Name::Law => "LAW",
            Name::Width => "WIDTH",
            Name::Core => "CORE",
            Name::File => "FILE",
        })
    }
}

// What stands before the word
impl Display for Wrong {
    fn fmt<W: fmt::Write>(&self, f: &mut Formatter<W>) -> fmt::Result {
        f.write_str(match self {
            Wrong::Missing(_) => "a word is missing",
            Wrong::Unknown(_) => "unknown word",
            Wrong::NoLaw(_) => "no law",
            Wrong::NoNumber(_) => "not a number",
            Wrong::NoWidth(_) => "no width",
            Wrong::NoPair(_, _) => "no pair of WIDTH and CORE",
            Wrong::NoCount(_) => "no count of samples",
            Wrong::NoEdition(_) => "no edition",
            Wrong::NoStates(_) => "no states to write",
            Wrong::NoFileName(_) => {
                "not a file name (one called so is written with ./ before it)"
            }
            Wrong::TwoForOneFile(_) => "two words for one file",
        })
    }
}

impl Wrong {
    pub fn say(self, rt: &HostRuntime, program: Program) {
        match self {
            Wrong::Missing(name) => {
                let usage = program.usage();
                let _ = eprintln!(rt; "{program}: wrong words: {self}: {name}\n{usage}");
            }
            Wrong::NoPair(width, core) => self.say_of(rt, program, &[width, core]),
            Wrong::Unknown(place)
            | Wrong::NoLaw(place)
            | Wrong::NoNumber(place)
            | Wrong::NoWidth(place)
            | Wrong::NoCount(place)
            | Wrong::NoEdition(place)
            | Wrong::NoStates(place)
            | Wrong::NoFileName(place)
            | Wrong::TwoForOneFile(place) => self.say_of(rt, program, &[place]),
        }
    }

    fn say_of(self, rt: &HostRuntime, program: Program, places: &[usize]) {
        let usage = program.usage();
        say_quoting(
            rt,
            format_args!("{program}: wrong words: {self}: "),
            places,
            format_args!("\n{usage}"),
        );
    }
}

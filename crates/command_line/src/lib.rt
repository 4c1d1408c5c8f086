// The tool's words (docs/TOOL.md), read from the left into a task, up to the first wrong one. Which widths, pairs and counts
// there are is asked of the crates that the calls ask. The words of the other program, `sequences`, are read in sequences.rt, out
// of the same kinds of word.
#![tactic(auto)]

pub mod call_words;
pub mod coding;
pub mod cutting;
mod ends;
pub mod law;
mod options;
pub mod pages;
pub mod program;
pub mod quoting;
pub mod sequences;
pub mod status;
pub mod wrong;

use crate::call_words::Words;
use crate::coding::{Coding, read_coding};
use crate::cutting::{Cut, Widths, read_cut};
use crate::ends::{are_apart, read_ends};
use crate::law::{Speech, read_speech};
use crate::options::{Options, read_options};
use crate::wrong::{Name, Wrong};

#[derive(Clone, Copy)]
pub enum Command {
    Encode(Coding),
    Drop(Cut),
    Decode(Speech),
    Inspect,
}

// What the words ask. Files are the places of their words, none for standard input, standard output and no states.
#[derive(Clone, Copy)]
pub struct Task {
    pub command: Command,
    pub verbose: bool,
    pub states: Option<usize>,
    pub input: Option<usize>,
    pub output: Option<usize>,
}

pub fn read(rt: &HostRuntime) -> Result<Task, Wrong> {
    let mut words = Words::new(rt);
    let Options { verbose, states } = read_options(&mut words)?;
    let command = read_command(&mut words, states)?;
    let ends = read_ends(&mut words)?;
    // What is written, OUT and the states, is no other word's file.
    are_apart(rt, ends.output, ends.input)?;
    are_apart(rt, ends.output, command.list())?;
    are_apart(rt, states, ends.input)?;
    are_apart(rt, states, ends.output)?;
    Ok(Task {
        command,
        verbose: verbose && command.has_states(),
        states,
        input: ends.input,
        output: ends.output,
    })
}

// drop and inspect have no states to write.
fn read_command(words: &mut Words, states: Option<usize>) -> Result<Command, Wrong> {
    let word = words.named(Name::Command)?;
    match word.as_bytes() {
        b"encode" => Ok(Command::Encode(read_coding(words)?)),
        b"decode" => Ok(Command::Decode(read_speech(words)?)),
        b"drop" | b"inspect" if states.is_some() => Err(Wrong::NoStates(word.place)),
        b"drop" => Ok(Command::Drop(read_cut(words)?)),
        b"inspect" => Ok(Command::Inspect),
        _ => Err(Wrong::Unknown(word.place)),
    }
}

impl Command {
    fn has_states(self) -> bool {
        matches!(self, Command::Encode(_) | Command::Decode(_))
    }

    // The place of the list's word
    fn list(self) -> Option<usize> {
        match self {
            Command::Drop(
                Cut {
                    widths: Widths::Listed(place),
                    ..
                },
            ) => Some(place),
            _ => None,
        }
    }
}

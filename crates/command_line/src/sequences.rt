// The words of the program `sequences`, read from the left into a task: COMMAND, and of encode and decode LAW WIDTH CORE
// [HOMING].
use crate::call_words::Words;
use crate::coding::{Pair, read_pair};
use crate::law::read_law;
use crate::wrong::{Name, Wrong};
use text::law::Law;

// How values are coded, and the place of HOMING's word
#[derive(Clone, Copy)]
pub struct Coding {
    pub law: Law,
    pub pair: Pair,
    pub homing: Option<usize>,
}

// What the words ask
#[derive(Clone, Copy)]
pub enum Task {
    Read,
    Write,
    Encode(Coding),
    Decode(Coding),
}

pub fn read(rt: &HostRuntime) -> Result<Task, Wrong> {
    let mut words = Words::new(rt);
    let command = words.named(Name::Command)?;
    let task = match command.as_bytes() {
        b"read" => Task::Read,
        b"write" => Task::Write,
        b"encode" => Task::Encode(read_coding(&mut words)?),
        b"decode" => Task::Decode(read_coding(&mut words)?),
        _ => return Err(Wrong::Unknown(command.place)),
    };
    words.end()?;
    Ok(task)
}

fn read_coding(words: &mut Words) -> Result<Coding, Wrong> {
    let law = read_law(words)?;
    let pair = read_pair(words)?;
    let homing = if words.is_at_end() {
        None
    } else {
        Some(words.file()?)
    };
    Ok(Coding { law, pair, homing })
}

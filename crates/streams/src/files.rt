// Files that a word of the call names, opened, and the standard streams kept apart from them.
use crate::failure::Failure;
use crate::names::{Access, unnamed};
use command_line::call_words::Word;
use std::fs::File;
use std::os::fd::{AsRawFd, IntoRawFd};
use std::{fs, io};

// Where octets come from or go to: the standard stream, or a file and the name that it is told of by
#[derive(Drop)]
pub enum Stream {
    Standard,
    Opened(File, &'static str),
}

// The number of standard error, the greatest of the standard streams
const STDERR: i32 = 2;

// A file gets the least number that is free. Where a standard stream is closed, its number is taken here, so that no line that is
// said lands in a file of the task.
pub fn hold_standard_streams(rt: &HostRuntime) {
    for _ in 0..=STDERR {
        hold_standard(rt);
    }
}

// A number that is no standard stream's is free again behind this.
fn hold_standard(rt: &HostRuntime) {
    let Ok(file) = fs::open(rt, "/dev/null") else {
        return;
    };
    if file.as_raw_fd() <= STDERR {
        let _held = file.into_raw_fd();
    }
}

// The file of the word there, to be read. The place and the name that the file is told of by go together through these three only: a
// struct of both would be made at each call, and taken apart here at once.
pub fn opened(rt: &HostRuntime, place: usize, name: &'static str) -> Result<Stream, Failure> {
    stream_of(open_word(rt, place, Access::Read), place, name)
}

// The file of the word there, made or emptied, to be written
pub fn created(rt: &HostRuntime, place: usize, name: &'static str) -> Result<Stream, Failure> {
    stream_of(open_word(rt, place, Access::Create), place, name)
}

fn stream_of(file: io::Result<File>, place: usize, name: &'static str) -> Result<Stream, Failure> {
    match file {
        Ok(file) => Ok(Stream::Opened(file, name)),
        Err(error) => Err(Failure::Unopened(place, error)),
    }
}

fn open_word(rt: &HostRuntime, place: usize, access: Access) -> io::Result<File> {
    let word = Word::at(rt, place).ok_or(io::ErrorKind::NotFound)?;
    let name = word.as_bytes();
    let Ok(path) = str::from_utf8(name) else {
        return Err(unnamed(rt, name, access));
    };
    match access {
        Access::Read => fs::open(rt, path),
        Access::Create => fs::create(rt, path),
    }
}

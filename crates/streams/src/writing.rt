// Octets that are written to a stream, and what a file system may refuse only at its end.
use crate::failure::Failure;
use crate::files::Stream;
use arrayvec::ArrayVec;
use std::fmt::Display;
use std::fs::{File, OpenOptions};
use std::io::{ErrorKind, Write};
use std::{fs, io};

const STANDARD: &str = "standard output";

// All of them
pub fn write_all(rt: &HostRuntime, stream: &Stream, octets: &[u8]) -> Result<(), Failure> {
    match stream {
        Stream::Standard => rt
            .write_all(octets)
            .map_err(|error| Failure::Unwritten(STANDARD, error)),
        Stream::Opened(file, name) => {
            let mut file = file;
            file.write_all(octets)
                .map_err(|error| Failure::Unwritten(*name, error))
        }
    }
}

// Room for the longest line that is written so
const ROOM: usize = 512;

// A line, put together before it is written, so that it goes out at once
pub fn write_line<T: Display + Drop>(
    rt: &HostRuntime,
    stream: &Stream,
    line: T,
) -> Result<(), Failure> {
    let mut octets = ArrayVec::<u8, ROOM>::new();
    let _ = writeln!(octets, "{line}");
    write_all(rt, stream, octets.as_slice())
}

// What a file system holds back it may refuse only now. std closes a file and has no answer of it, so it is asked before.
pub fn settle(rt: &HostRuntime, stream: &Stream) -> Result<(), Failure> {
    match stream {
        Stream::Standard => {
            settle_standard(rt).map_err(|error| Failure::Unwritten(STANDARD, error))
        }
        Stream::Opened(file, name) => {
            settle_file(file).map_err(|error| Failure::Unwritten(*name, error))
        }
    }
}

// Standard output cannot be asked, but a file that is opened by its name can. What is no file holds nothing back.
fn settle_standard(rt: &HostRuntime) -> io::Result<()> {
    const NAME: &str = "/dev/stdout";
    match fs::metadata(rt, NAME) {
        Ok(what) if what.is_file() => {}
        _ => return Ok(()),
    }
    match OpenOptions::new().write(true).open(rt, NAME) {
        Ok(file) => settle_file(&file),
        Err(_) => Ok(()),
    }
}

fn settle_file(file: &File) -> io::Result<()> {
    match file.sync_data() {
        Err(error) if can_be_asked(error.kind()) => Err(error),
        _ => Ok(()),
    }
}

// A pipe or a device has nothing that could be held back, and not every file system can be asked. The system says so by these kinds.
fn can_be_asked(kind: ErrorKind) -> bool {
    !matches!(
        kind,
        ErrorKind::InvalidInput | ErrorKind::Unsupported | ErrorKind::ReadOnlyFilesystem
    )
}

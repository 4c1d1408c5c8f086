// Octets that are read from a stream. ReadsAtMost is std's word for what a read promises, and so each of these says it.
ghost use Rattle.std.specs.Io.{ReadsAtMost};

use crate::failure::Failure;
use crate::files::Stream;
use std::fs;
use std::io::{ErrorKind, Read};

const STANDARD: &str = "standard input";

// Fills the part, or as much of it as there is before the stream ends, and counts that. std's read_exact counts nothing where the
// stream ends, and read_to_end takes memory.
pub fn read_full(rt: &HostRuntime, stream: &Stream, part: &mut [u8]) -> Result<usize, Failure>
    ensures { ReadsAtMost result part.new }
{
    let mut done = 0;
    while done < part.len() {
        match read_once(rt, stream, &mut part[done..])? {
            0 => break,
            more => done += more,
        }
    }
    Ok(done)
}

// As many as one read gives: at least one, where the stream has not ended
pub fn read_once(rt: &HostRuntime, stream: &Stream, part: &mut [u8]) -> Result<usize, Failure>
    ensures { ReadsAtMost result part.new }
{
    match stream {
        Stream::Standard => read_standard(rt, part),
        Stream::Opened(file, name) => {
            let mut file = file;
            file.read(part)
                .map_err(|error| Failure::Unread(*name, error))
        }
    }
}

fn read_standard(rt: &HostRuntime, part: &mut [u8]) -> Result<usize, Failure>
    ensures { ReadsAtMost result part.new }
{
    match rt.stdin().read(part) {
        Ok(count) => Ok(count),
        Err(error) if error.kind() == ErrorKind::WouldBlock => read_waiting(rt, part),
        Err(error) => Err(Failure::Unread(STANDARD, error)),
    }
}

// Standard input that does not wait is opened by its name: what is opened so waits.
fn read_waiting(rt: &HostRuntime, part: &mut [u8]) -> Result<usize, Failure>
    ensures { ReadsAtMost result part.new }
{
    let mut waiting = fs::open(rt, "/dev/stdin").map_err(Failure::Unwaiting)?;
    waiting
        .read(part)
        .map_err(|error| Failure::Unread(STANDARD, error))
}

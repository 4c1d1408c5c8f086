// The calls that standard input asks for, a line each, with their answers on standard output (docs/ANSWERS.md).
#![tactic(auto)]

mod answering;
mod codec;
mod fields;
mod forms;
mod input;
mod readers;
mod shown;
mod states;
mod texts;
mod unanswered;
mod writers;

use answering::answer;
use input::{Lines, ROOM};
use shown::Said;
use std::io;
use std::io::Write;
use unanswered::Unanswered;

// What cannot be written is left out, and the status is 0.
fn main(rt: HostRuntime) {
    let mut window = [0; ROOM];
    let mut lines = Lines::of(rt.stdin(), &mut window);
    let mut said = Said::new();
    // A proved loop has to end, and nothing says that the input does: no run reaches the last number.
    for number in 1..u64::MAX {
        said.clear();
        let _ = said.write_all(b" = ");
        let (line, answer) = match lines.next() {
            None => break,
            Some(Ok(line)) => (line, answer(line, &mut said)),
            Some(Err(why)) => (b"".as_slice(), Err(why)),
        };
        let _ = say(&mut rt.stdout(), number, line, answer, &mut said);
    }
}

// The line as it is where it asks nothing, or with its answer, or in its place a comment that says why it has none
fn say<W: Write>(
    out: &mut W,
    number: u64,
    line: &[u8],
    answer: Result<bool, Unanswered>,
    said: &mut Said,
) -> io::Result<()> {
    match answer {
        Ok(true) => out.write_all(line)?,
        Ok(false) => {
            out.write_all(line)?;
            said.clear();
        }
        Err(why) => {
            said.clear();
            write!(said, "# line {number}: {why}")?;
        }
    }
    said.write_all(b"\n")?;
    out.write_all(said)
}

// What is made of a stream's values, on standard output: octets, a text, or nothing while an end is homed.
use crate::streaming::Form;
use sequence_writer::Writer;
use streams::failure::Failure;
use streams::files::Stream;
use streams::writing;

// Characters of a piece's text: two of each of 4,096 values, a line feed behind 32 of them, and to spare
const ROOM: usize = 8448;

pub fn put(
    rt: &HostRuntime,
    to: Option<Form>,
    writer: &mut Writer,
    values: &[u8],
) -> Result<(), Failure> {
    match to {
        None => Ok(()),
        Some(Form::Octets) => writing::write_all(rt, &Stream::Standard, values),
        Some(Form::Text) => put_text(rt, writer, values),
    }
}

// The remainder, and what is left of the line before it
pub fn put_end(rt: &HostRuntime, to: Option<Form>, writer: Writer) -> Result<(), Failure> {
    let mut last = sequence_writer::end(writer);
    put(rt, to, &mut last, b"")
}

fn put_text(rt: &HostRuntime, writer: &mut Writer, values: &[u8]) -> Result<(), Failure> {
    let mut text = [0; ROOM];
    let answer = sequence_writer::write(*writer, values, &mut text);
    *writer = answer.state;
    writing::write_all(rt, &Stream::Standard, &text[..answer.written.min(ROOM)])
}

// What a file system holds back it may refuse only now.
pub fn settle(rt: &HostRuntime) -> Result<(), Failure> {
    writing::settle(rt, &Stream::Standard)
}

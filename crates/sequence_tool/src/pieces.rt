// A piece of a stream: its values are taken out, something is made of them, and that is written.
ghost use Rattle.std.specs.Prelude.{◌≡◌, ◌≤◌, length};
ghost use Rattle.sequence.specs.Reading.{beginning};
ghost use Rattle.sequence_writer.specs.Writing.{blank};

use crate::output::{put, put_end};
use crate::stop::Stop;
use crate::streaming::{Form, Stream};
use sequence::reader;
use sequence::reader::{Reader, last_place};
use sequence_writer::Writer;
use streams::failure::Failure;

// Octets that are read at once
pub const ROOM: usize = 4096;

// Between two pieces: the text that is read and the text that is written
#[derive(Clone, Copy)]
pub struct Turn {
    pub reader: Reader,
    pub writer: Writer,
}

impl Turn {
    pub fn new() -> Turn
        ensures { result ≡ record { reader = beginning; writer = blank } }
    {
        Turn {
            reader: reader::begin(),
            writer: sequence_writer::begin(),
        }
    }

    // `make` says what becomes of a value, or nothing, by the codec, which is () where values stay as they are. A text that is
    // refused stops its reader, and that it was is told at its end.
    pub fn pass<C, F: Fn(&mut C, u8) -> Option<u8>>(
        &mut self,
        rt: &HostRuntime,
        stream: &Stream,
        piece: &mut [u8],
        codec: &mut C,
        make: &F,
    ) -> Result<(), Stop>
        requires { F.IsAlwaysCallable make.now }
    {
        match stream.from {
            Form::Text => self.pass_text(rt, stream.to, piece, codec, make),
            Form::Octets => {
                self.work_on(rt, stream.to, piece, codec, make)?;
                Ok(())
            }
        }
    }

    // A value for each character at most, so there is room for all.
    fn pass_text<C, F: Fn(&mut C, u8) -> Option<u8>>(
        &mut self,
        rt: &HostRuntime,
        to: Option<Form>,
        piece: &[u8],
        codec: &mut C,
        make: &F,
    ) -> Result<(), Stop>
        requires { F.IsAlwaysCallable make.now }
    {
        let mut values = [0; ROOM];
        let from = self.reader;
        let answer = reader::read(from, piece, &mut values);
        self.reader = answer.state;
        let n = answer.written.min(ROOM);
        let made = self.work_on(rt, to, &mut values[..n], codec, make)?;
        if made < n {
            return Err(Stop::Codeword(place_at(from, piece, made)));
        }
        Ok(())
    }

    // Answers of how many values something was made.
    fn work_on<C, F: Fn(&mut C, u8) -> Option<u8>>(
        &mut self,
        rt: &HostRuntime,
        to: Option<Form>,
        values: &mut [u8],
        codec: &mut C,
        make: &F,
    ) -> Result<usize, Failure>
        requires { F.IsAlwaysCallable make.now }
    {
        let made = convert(values, codec, make);
        put(rt, to, &mut self.writer, &values[..made])?;
        Ok(made)
    }

    // What is left is written where all was well up to the end.
    pub fn end(self, rt: &HostRuntime, stream: &Stream) -> Result<(), Stop> {
        if stream.from == Form::Text {
            reader::end(self.reader).map_err(|fault| Stop::Text(stream.word, fault))?;
        }
        put_end(rt, stream.to, self.writer)?;
        Ok(())
    }
}

// Up to the first value of which nothing is made
fn convert<C, F: Fn(&mut C, u8) -> Option<u8>>(values: &mut [u8], codec: &mut C, make: &F) -> usize
    requires { F.IsAlwaysCallable make.now }
    ensures { result ≤ length values.new }
{
    for (i, value) in values.iter_mut().enumerate() {
        let Some(made) = make(codec, *value) else {
            return i;
        };
        *value = made;
    }
    values.len()
}

// Where the i-th value of a piece stands, counted from 0: it is the last one for which i + 1 octets have room.
fn place_at(from: Reader, piece: &[u8], i: usize) -> u64 {
    let mut values = [0; ROOM];
    let n = i.saturating_add(1).min(ROOM);
    let answer = reader::read(from, piece, &mut values[..n]);
    last_place(answer.state)
}

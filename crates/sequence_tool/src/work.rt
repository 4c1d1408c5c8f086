// What the words ask, done: HOMING first where there is one, then standard input, each of them piece by piece.
use crate::codec::Codec;
use crate::output::settle;
use crate::pieces::{ROOM, Turn};
use crate::stop::Stop;
use crate::streaming::{Form, Stream};
use command_line::sequences::{Coding, Task};
use command_line::status::Status;
use streams::files::hold_standard_streams;
use streams::reading::read_once;

pub fn perform(rt: &HostRuntime, task: Task) -> Status {
    hold_standard_streams(rt);
    match task {
        Task::Read => settled(rt, copy(rt, Form::Text, Form::Octets)),
        Task::Write => settled(rt, copy(rt, Form::Octets, Form::Text)),
        Task::Encode(coding) => code(rt, coding, encoded, encoded),
        Task::Decode(coding) => code(rt, coding, encoded_and_decoded, Codec::decode),
    }
}

fn settled(rt: &HostRuntime, ran: Result<(), Stop>) -> Status {
    Status::of(rt, ran).and(Status::of(rt, settle(rt).map_err(Stop::from)))
}

// Every value as it is
fn copy(rt: &HostRuntime, from: Form, to: Form) -> Result<(), Stop> {
    run(
        rt,
        &Stream::standard(from, to),
        &mut (),
        &|_: &mut (), value| Some(value),
    )
}

fn encoded(codec: &mut Codec, octet: u8) -> Option<u8> {
    Some(codec.encode(octet))
}

// What homes a decoder
fn encoded_and_decoded(codec: &mut Codec, octet: u8) -> Option<u8> {
    let codeword = codec.encode(octet);
    codec.decode(codeword)
}

// From reset, and with HOMING where that is asked for
fn code<H: Fn(&mut Codec, u8) -> Option<u8>, M: Fn(&mut Codec, u8) -> Option<u8>>(
    rt: &HostRuntime,
    coding: Coding,
    home: H,
    make: M,
) -> Status
    requires home { H.IsAlwaysCallable home }
    requires make { M.IsAlwaysCallable make }
{
    let mut codec = Codec::new(coding.law, coding.pair);
    match run_homing(rt, coding.homing, &mut codec, &home) {
        Ok(()) => {
            let stream = Stream::standard(Form::Text, Form::Text);
            settled(rt, run(rt, &stream, &mut codec, &make))
        }
        Err(stop) => Status::of(rt, Err(stop)),
    }
}

fn run_homing<H: Fn(&mut Codec, u8) -> Option<u8>>(
    rt: &HostRuntime,
    homing: Option<usize>,
    codec: &mut Codec,
    home: &H,
) -> Result<(), Stop>
    requires { H.IsAlwaysCallable home.now }
{
    match homing {
        None => Ok(()),
        Some(word) => run(rt, &Stream::homing(rt, word)?, codec, home),
    }
}

// A proved loop has to end, and nothing says that a stream does: it ends before a piece whose number no run reaches.
fn run<C, F: Fn(&mut C, u8) -> Option<u8>>(
    rt: &HostRuntime,
    stream: &Stream,
    codec: &mut C,
    make: &F,
) -> Result<(), Stop>
    requires { F.IsAlwaysCallable make.now }
{
    let mut turn = Turn::new();
    for _ in 0..u64::MAX {
        if !next(rt, stream, &mut turn, codec, make)? {
            break;
        }
    }
    turn.end(rt, stream)
}

// Answers whether there may be a next piece.
fn next<C, F: Fn(&mut C, u8) -> Option<u8>>(
    rt: &HostRuntime,
    stream: &Stream,
    turn: &mut Turn,
    codec: &mut C,
    make: &F,
) -> Result<bool, Stop>
    requires { F.IsAlwaysCallable make.now }
{
    let mut piece = [0; ROOM];
    let n = read_once(rt, &stream.source, &mut piece)?;
    if n == 0 {
        return Ok(false);
    }
    turn.pass(rt, stream, &mut piece[..n], codec, make)?;
    Ok(turn.reader.verdict.is_ok())
}

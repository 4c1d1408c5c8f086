// Test sequences as texts: read, written, and run through the codec. This is a library that answers the program's status.
//
// What the words ask is the crate `command_line`, how files are opened and read is `streams`, what a text is is `sequence`. One
// loop goes over a stream, HOMING or standard input (work.rt), in pieces: its values are taken out (pieces.rt), go through the
// codec (codec.rt) and are written (output.rt), as the stream asks (streaming.rt). What stops it is said in one place (stop.rt).
#![tactic(auto)]

mod codec;
mod output;
mod pieces;
mod stop;
mod streaming;
mod work;

use command_line::program::Program;
use command_line::status::Status;
use command_line::{pages, sequences};

// Does what the program's words ask
pub fn run(rt: &HostRuntime) -> Status {
    pages::run(rt, Program::Sequences, sequences::read, work::perform)
}

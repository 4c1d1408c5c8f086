// The codec in a pipe: encode, drop, decode and inspect (docs/TOOL.md). The tool is a library that answers the status its program
// ends with.
//
// What the words ask is the crate `command_line`. Files are opened (files.rt, list.rt) and read as the crate `streams` does it,
// and one loop goes over the stream (work.rt, stream.rt), with what each command makes of a piece in a file of its own. What stops
// it is said in one place (stop.rt).
#![tactic(auto)]

mod decoding;
mod dropping;
mod encoding;
mod files;
mod inspecting;
mod list;
mod making;
mod states;
mod stop;
mod stream;
mod work;

use command_line::pages;
use command_line::program::Program;
use command_line::status::Status;

// Does what the program's words ask
pub fn run(rt: &HostRuntime) -> Status {
    pages::run(rt, Program::Parchfennel, command_line::read, work::perform)
}

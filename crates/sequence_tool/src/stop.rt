// Why a stream is not gone through to its end, as it is said on standard error.
use command_line::program::Program;
use command_line::quoting::say_quoting;
use command_line::status::Stopping;
use sequence::reader::Fault;
use streams::failure::Failure;

#[derive(Clone, Copy)]
pub enum Stop {
    Stream(Failure),
    // The text of HOMING's word, or standard input
    Text(Option<usize>, Fault),
    // One above its width, and its place
    Codeword(u64),
}

impl From<Failure> for Stop {
    fn from(failure: Failure) -> Stop {
        Stop::Stream(failure)
    }
}

impl Stopping for Stop {
    fn say(self, rt: &HostRuntime) {
        let program = Program::Sequences;
        match self {
            Stop::Stream(failure) => failure.say(rt, program),
            Stop::Text(None, Fault { why, place }) => {
                let _ = eprintln!(rt; "{program}: {why} at {place}");
            }
            Stop::Text(Some(word), Fault { why, place }) => say_quoting(
                rt,
                format_args!("{program}: "),
                &[word],
                format_args!(": {why} at {place}"),
            ),
            Stop::Codeword(place) => {
                let _ = eprintln!(rt; "{program}: codeword above its width at {place}");
            }
        }
    }
}

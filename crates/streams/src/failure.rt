// Why a stream cannot be used, as it is said. One that is open is told of by a name.
use command_line::program::Program;
use command_line::quoting::say_quoting;
use std::io::Error;
use text::failure::Why;

#[derive(Clone, Copy)]
pub enum Failure {
    // The file of this word
    Unopened(usize, Error),
    Unread(&'static str, Error),
    // Standard input that does not wait, and cannot be opened so that it does
    Unwaiting(Error),
    Unwritten(&'static str, Error),
}

impl Failure {
    pub fn say(self, rt: &HostRuntime, program: Program) {
        match self {
            Failure::Unopened(place, error) => say_quoting(
                rt,
                format_args!("{program}: cannot open "),
                &[place],
                format_args!(": {}", Why(error)),
            ),
            Failure::Unread(name, error) => {
                let _ = eprintln!(rt; "{program}: cannot read {name}: {}", Why(error));
            }
            Failure::Unwaiting(error) => {
                let _ = eprintln!(rt;
                    "{program}: cannot read standard input, which does not wait: {}",
                    Why(error)
                );
            }
            Failure::Unwritten(name, error) => {
                let _ = eprintln!(rt; "{program}: cannot write {name}: {}", Why(error));
            }
        }
    }
}

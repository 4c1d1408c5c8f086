// The two programs whose words are read here: what each is called, and what it says where something fails.
use std::fmt;
use std::fmt::{Display, Formatter};
use std::io::Error;
use text::failure::Why;

#[derive(Clone, Copy)]
pub enum Program {
    Parchfennel,
    Sequences,
}

// Its name, which every line on standard error but the usage begins with
impl Display for Program {
    fn fmt<W: fmt::Write>(&self, f: &mut Formatter<W>) -> fmt::Result {
        f.write_str(match self {
            Program::Parchfennel => "parchfennel",
            Program::Sequences => "sequences",
        })
    }
}

impl Program {
    pub fn say_unwritten(self, rt: &HostRuntime, error: Error) {
        let _ = eprintln!(rt; "{self}: cannot write standard output: {}", Why(error));
    }
}

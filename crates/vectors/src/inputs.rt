// The PCM octets of the four inputs under both laws, from eight files in the folder that the program is run in.
ghost use Rattle.std.specs.Prelude.{◌≡◌};
ghost use Rattle.vectors.specs.Inputs.{octets_under};

use std::fmt;
use std::fmt::{Display, Formatter};
use std::fs::File;
use std::io::{Error, Read};
use text::failure::Why;
use text::law::Law;

#[derive(Drop)]
pub struct Inputs {
    pub normal: Input<16384>,
    pub overload: Input<2048>,
    pub homing: Input<3496>,
    pub jump: Input<4096>,
}

// The same N levels under each law
#[derive(Drop)]
pub struct Input<const N: usize> {
    mu: [u8; N],
    a: [u8; N],
}

// Why there are no inputs
#[derive(Drop)]
pub enum Unread {
    Unopened(&'static str, Error),
    WrongLength(&'static str),
}

impl Display for Unread {
    fn fmt<W: fmt::Write>(&self, f: &mut Formatter<W>) -> fmt::Result {
        match self {
            Unread::Unopened(name, error) => write!(f, "{name}: {}", Why(*error)),
            Unread::WrongLength(name) => write!(f, "{name}: not as long as docs/SEQUENCES.md says"),
        }
    }
}

impl<const N: usize> Input<N> {
    fn blank() -> Self {
        Input {
            mu: [0; N],
            a: [0; N],
        }
    }

    // From the two files, which are to be just so long
    fn read(&mut self, rt: &HostRuntime, mu: &'static str, a: &'static str) -> Result<(), Unread> {
        fill(rt, mu, &mut self.mu)?;
        fill(rt, a, &mut self.a)
    }

    pub fn under(&self, law: Law) -> &[u8]
        ensures { result.now ≡ octets_under law self.now }
    {
        match law {
            Law::Mu => &self.mu,
            Law::A => &self.a,
        }
    }
}

impl Inputs {
    // What `read` fills. Never inlined: what it takes of the stack beside its result is given back.
    #[inline(never)]
    pub fn blank() -> Inputs {
        Inputs {
            normal: Input::blank(),
            overload: Input::blank(),
            homing: Input::blank(),
            jump: Input::blank(),
        }
    }

    // Into what is lent, as 52,048 octets are not to be moved
    pub fn read(&mut self, rt: &HostRuntime) -> Result<(), Unread> {
        self.normal.read(rt, "nrm.m", "nrm.a")?;
        self.overload.read(rt, "ovr.m", "ovr.a")?;
        self.homing.read(rt, "init.m", "init.a")?;
        self.jump.read(rt, "jump.m", "jump.a")
    }
}

fn fill(rt: &HostRuntime, name: &'static str, octets: &mut [u8]) -> Result<(), Unread> {
    let mut file = File::open(rt, name).map_err(|error| Unread::Unopened(name, error))?;
    if is_just(&mut file, octets) {
        Ok(())
    } else {
        Err(Unread::WrongLength(name))
    }
}

// Whether the file has just as many octets as there is room for; one that cannot be read to its end has fewer.
fn is_just(file: &mut File, octets: &mut [u8]) -> bool {
    file.read_exact(octets).is_ok() && !matches!(file.read(&mut [0]), Ok(1..))
}

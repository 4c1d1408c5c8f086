// The lines that are written: one for each sequence, or in a dump one for each sample (docs/SEQUENCES.md).
ghost use Rattle.std.specs.Prelude.{◌≡◌};
ghost use Rattle.checksum.specs.Checksum.{added};

use crate::drive::{Performance, perform};
use crate::ends::Sample;
use crate::inputs::Inputs;
use crate::runs::Run;
use checksum::{add, of_state};
use state::numbers::same_state;
use std::fmt;
use std::fmt::{Display, Formatter};

// What a run's line tells of it
#[derive(Clone, Copy)]
pub struct Summary {
    performance: Performance,
    checksums: Checksums,
}

// Of the codewords and of the octets of the samples so far
#[derive(Clone, Copy)]
struct Checksums {
    codewords: u32,
    octets: u32,
}

impl Checksums {
    // One sample more
    fn add(&mut self, sample: Sample)
        ensures codewords { self.new.codewords ≡ added self.old.codewords sample.codeword }
        ensures octets { self.new.octets ≡ added self.old.octets sample.octet }
    {
        self.codewords = add(self.codewords, u32::from(sample.codeword));
        self.octets = add(self.octets, u32::from(sample.octet));
    }
}

impl Summary {
    pub fn of(run: Run, inputs: &Inputs) -> Summary {
        let mut checksums = Checksums {
            codewords: 0,
            octets: 0,
        };
        let performance = perform(run, inputs, |_, sample| checksums.add(sample));
        Summary {
            performance,
            checksums,
        }
    }
}

// What stands behind the sequence's name
impl Display for Summary {
    fn fmt<W: fmt::Write>(&self, f: &mut Formatter<W>) -> fmt::Result {
        let Performance {
            samples,
            encoder,
            decoder,
        } = self.performance;
        if encoder.is_some_and(|encoder| !same_state(encoder, decoder)) {
            return f.write_str("states differ");
        }
        let Checksums { codewords, octets } = self.checksums;
        write!(f, "{samples} {codewords} {octets} {}", of_state(decoder))
    }
}

// What stands behind the sample's index
impl Display for Sample {
    fn fmt<W: fmt::Write>(&self, f: &mut Formatter<W>) -> fmt::Result {
        match self.input {
            Some(octet) => write!(f, "{octet}")?,
            None => f.write_str("-")?,
        }
        write!(
            f,
            " {} {} {} {}",
            self.codeword,
            self.octet,
            self.disagreement,
            of_state(self.decoder)
        )
    }
}

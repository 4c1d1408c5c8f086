// One run: encoder and decoder, or a decoder alone, through a sequence, after the homing sequence where the run asks it.
ghost use Rattle.std.specs.Prelude.{◌≡◌, All, None, IsSome, length};
ghost use Rattle.quantizer.specs.Codeword.{Codeword};

use crate::codewords::{CodewordWidth, held, i_input};
use crate::ends::{Ends, Sample};
use crate::inputs::Inputs;
use crate::runs::{Kind, Run};
use arrayvec::ArrayVec;
use state::State;

// How many samples a run has, and the states behind the last. An I-input and the held codeword have no encoder.
#[derive(Clone, Copy)]
pub struct Performance {
    pub samples: usize,
    pub encoder: Option<State>,
    pub decoder: State,
}

// Each sample is handed on as it comes, by its index, so that no run is kept. Those of the homing sequence are not.
// Never inlined, so that the I-input's codewords are on the stack once.
#[inline(never)]
pub fn perform<F: FnMut(usize, Sample)>(run: Run, inputs: &Inputs, take: F) -> Performance
    requires { F.IsAlwaysCallable take }
{
    let mut ends = Ends::reset(run);
    let law = run.laws.sent();
    let width = CodewordWidth { bits: run.width };
    if run.homed {
        for octet in inputs.homing.under(law) {
            ends.code(*octet);
        }
    }
    match run.kind {
        Kind::Normal => coded(ends, inputs.normal.under(law), take),
        Kind::Overload => coded(ends, inputs.overload.under(law), take),
        Kind::Jump => coded(ends, inputs.jump.under(law), take),
        Kind::Codewords => {
            let mut codewords = ArrayVec::new();
            i_input(&mut codewords, width);
            played(ends, &codewords, take)
        }
        Kind::Held => played(ends, &held(width), take),
    }
}

// In `coded` and `played` the loop is a `for`, and what differs is the step in it. A function over the step would wrap
// that one line, and ask of its callers what `played` says of its step: that it keeps the run, whose width the codewords
// have.
fn coded<F: FnMut(usize, Sample)>(mut ends: Ends, octets: &[u8], mut take: F) -> Performance
    requires { F.IsAlwaysCallable take }
    ensures samples { result.samples ≡ length octets.now }
    ensures encoder { IsSome result.encoder }
{
    for (index, octet) in octets.iter().enumerate() {
        take(index, ends.code(*octet));
    }
    Performance {
        samples: octets.len(),
        encoder: Some(ends.encoder),
        decoder: ends.decoder,
    }
}

fn played<F: FnMut(usize, Sample)>(mut ends: Ends, codewords: &[u8], mut take: F) -> Performance
    requires codewords { All (Codeword ends.run.width) codewords.now }
    requires take { F.IsAlwaysCallable take }
    ensures samples { result.samples ≡ length codewords.now }
    ensures encoder { result.encoder ≡ None }
{
    for (index, codeword) in codewords.iter().enumerate() {
        take(index, ends.play(None, *codeword));
    }
    Performance {
        samples: codewords.len(),
        encoder: None,
        decoder: ends.decoder,
    }
}

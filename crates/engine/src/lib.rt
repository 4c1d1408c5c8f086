// The engine that both ends share: what a memory foretells of the next sample, and the step of the memory, which goes by
// the memory, the quantized difference and what the core codeword says to the adaptation. `step::advance` also takes the
// estimate, which the memory fixes. So no enhancement bit can reach the predictor. That a memory is in range stays a clause of each function: they are
// public, and a type that carries it would ask more of who calls them.
#![tactic(auto)]

pub mod adaptation;
pub mod prediction;
pub mod step;

// What a memory foretells of the next sample: SE and SEZ beside Y, as estimate_of has them
#[derive(Clone, Copy)]
pub struct Estimated {
    pub y: u16,
    pub se: u16,
    pub sez: u16,
}

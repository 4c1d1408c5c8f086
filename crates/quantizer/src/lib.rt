// The quantizer of G.727 by width (sections 6.2.2 and 6.2.4 to 6.2.6, and the order of codewords of 6.2.10): decision
// levels, output levels, and what the scale factor and the speed control read off a core codeword. That a width is one, a codeword is of it and a scale
// factor in range stays a clause of each function: they are public, and a type that carries it would ask more of who calls them.
#![tactic(auto)]

pub mod adaptive;
pub mod codeword;
pub mod decision;
pub mod multiplier;
pub mod order;
pub mod output;
pub mod pair;

// What RECONST gives: the sign and the logarithm of the quantized difference.
#[derive(Clone, Copy, PartialEq, Eq, Debug)]
pub struct Quantized {
    pub dqs: u16,
    pub dqln: u16,
}

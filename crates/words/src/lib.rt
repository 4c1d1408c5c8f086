// Sixteen-bit words: sums and differences that wrap, a choice between two values, and the number of
// bits of a magnitude, which LOG, FLOATA, FLOATB and FMULT take their exponents from.
#![tactic(auto)]

pub mod bits;
pub mod choice;
pub mod wrap;

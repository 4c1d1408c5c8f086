// The adaptive predictor, the reconstructed signal and the tone and transition detector (G.727,
// sections 6.2.7 to 6.2.9). Sums are kept modulo 65,536, as the sub-blocks write them.
#![tactic(auto)]

pub mod coefficient;
pub mod float;
pub mod sums;
pub mod tone;

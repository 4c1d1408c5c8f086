// What the programs print and read in one form: signed samples as pairs of octets (samples.rt), the numbers of a state
// (variables.rt), octets as digits (hexadecimal.rt), a law of G.711 (law.rt), and why the system refused something (failure.rt).
#![tactic(auto)]

pub mod failure;
pub mod hexadecimal;
pub mod law;
pub mod samples;
pub mod variables;

// One sample at a time. `end`: what a call knows of its end, by a trait. `level`: a level is encoded, a codeword is decoded to a
// signal, and no end is known there. `pcm`: the G.711 end, which expands a byte to a level and compresses a signal to a byte.
// `signal`: the linear end, which holds a signal. A core and a width stay two parameters: the one is a state's, the other a frame's, and a
// stream changes the width alone; so do a memory and a core, since a step hands back the memory alone. That a memory is in range, the two are a pair and a codeword is of its width stay clauses of public
// functions: a type would ask more of who calls them.
#![tactic(auto)]

pub mod end;
pub mod level;
pub mod pcm;
pub mod signal;

// Demand 3 over whole streams: theorems about the calls, stated of the definitions that their contracts promise (specs/Stream.antt and
// proofs/). There is no code here.

#![tactic(auto)]

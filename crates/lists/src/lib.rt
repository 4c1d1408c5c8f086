// Laws of lists that every loop over a lent buffer cites: runs of a step over samples (specs/Run.antt), and
// buffers that are filled from the front (proofs/Filled.antt). There is no code here.

#![tactic(auto)]

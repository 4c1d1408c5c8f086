// Standard streams and files as the programs use them: opened by a word, read in parts and written; what fails is told by a
// Failure.
#![tactic(auto)]

pub mod failure;
pub mod files;
mod names;
pub mod reading;
pub mod writing;

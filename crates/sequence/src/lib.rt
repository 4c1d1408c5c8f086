// The text of a test sequence, read in pieces (docs/RULES.md, "The text of a sequence"); sequence_writer writes it. It knows nothing
// of codecs.
#![tactic(auto)]

mod digits;
pub mod limits;
pub mod modular;
pub mod progress;
pub mod reader;
mod step;

// The text layer: a line's bytes become its record, or are refused.
#![tactic(auto)]

mod alphabet;
mod entry;
mod parts;
mod reader;
mod refusal;

pub use alphabet::Alphabet;
pub use entry::Entry;
pub use refusal::Refusal;

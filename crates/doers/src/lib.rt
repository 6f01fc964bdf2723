// Doers: what the codes of pieces drive. A doer has a state and a rule; the tape and the order slip are two of them.
#![tactic(auto)]

mod action;
mod doer;
mod slip;
mod tape;

pub use doer::Doer;
pub use slip::Slip;
pub use tape::Tape;

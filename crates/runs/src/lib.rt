// Whole runs: any calls, in any order and number, on one freshly opened plate and one doer.
#![tactic(auto)]

mod calling;
mod running;

pub use calling::{Answer, Call, Reply};
pub use running::run;

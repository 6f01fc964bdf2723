// A program that makes the calls of a run itself, and has the law over runs from the contracts of the calls.
#![tactic(auto)]

mod hand;

pub use hand::take_build_play;

// Reading: cuts an extent into pieces by a built plate, and tests a whole extent against one line.
#![tactic(auto)]

mod cutting;
mod testing;

pub use cutting::{Why, longest, read};
pub use meaning::Piece;
pub use testing::test;

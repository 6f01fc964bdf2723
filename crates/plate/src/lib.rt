// A plate: the standing lines of a sheet and, once built, their scanner table in lent memory.
#![tactic(auto)]

mod build;
mod cells;
mod desk;
mod fill;
mod lines;
mod numbering;
mod numbers;
mod open;
mod plate;
mod steps;
mod table;

pub use desk::{Accepts, Desk};
pub use open::Plate;

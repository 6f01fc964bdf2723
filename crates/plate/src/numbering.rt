// The states of a plate as they are met, each with its number.
ghost use Rattle.std.specs.Prelude.{◌≤◌};
ghost use Rattle.arrayvec.specs.ArrayVec.{array_vec_len};

use arrayvec::ArrayVec;
use positions::{MOST_LINES, MOST_STATES};

// A state: one set of positions for each line that a plate can have.
pub type State = [u64; MOST_LINES];

// The state without positions, from which no word goes on.
// Stays: a state as any other, as in the definitions, and no `None`: it is stepped to and compared.
pub const NOWHERE: State = [0; MOST_LINES];

// The states met so far; the number of each is its place.
#[derive(Drop)]
pub struct Numbering {
    pub states: ArrayVec<State, MOST_STATES>,
    ghost few: { array_vec_len states ≤ 64 },
}

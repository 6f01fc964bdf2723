// How many cells a plate uses of the memory that it is lent.
use meaning::Piece;
use positions::{MOST_CLASSES, MOST_LINES, MOST_STATES};
use sheet::Alphabet;

// of the moves, over bytes
pub(crate) const MOVES: usize = MOST_STATES * MOST_CLASSES;

// of the moves, over pieces
pub(crate) const PIECE_MOVES: usize = MOST_STATES * Piece::COUNT;

// of the sets
pub(crate) const SETS: usize = MOST_STATES * MOST_LINES;

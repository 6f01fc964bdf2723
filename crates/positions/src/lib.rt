// The expression layer: a line's symbols and its position sets, where a class leads from a set, and whether positions of different codes meet.
// Position p is bit p - 1 of a set; the end mark is the position behind the last symbol.
#![tactic(auto)]

mod draft;
mod limits;
mod masks;
mod meeting;
mod part;
mod sets;
mod symbols;

pub use draft::Draft;
pub use limits::{
    LONGEST_EXTENT, MOST_BYTES, MOST_CLASSES, MOST_CODE, MOST_LEVELS, MOST_LINES, MOST_POSITIONS,
    MOST_STATES, MOST_SYMBOLS, NO_MARK,
};
pub use part::Part;
pub use sets::Sets;

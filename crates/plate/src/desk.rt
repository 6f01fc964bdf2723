// The plain inner part of a plate: its table of line records and what was made of them.
ghost use Rattle.std.specs.Prelude.{◌≡◌, ◌≤◌, length};

use positions::{MOST_LINES, MOST_STATES};
use sheet::Entry;

// For each state, the earliest line that has a word there.
pub type Accepts = [Option<usize>; MOST_STATES];

#[derive(Clone, Copy)]
pub struct Desk {
    // the records of the standing lines, in the order taken, and behind them those that were struck or blank
    // Stays: an array with its count, since it is a rule that a plate's lines are a table of records in its plain inner struct, of which take fills one (docs/DECISIONS.md).
    pub entries: [Entry; MOST_LINES],
    // how many of them stand
    pub standing: usize,
    // the count of the alphabet that the plate was opened for, 0 on a shut plate
    // Stays: a shut plate has no class, so one comparison refuses it as it does any other count, and the bounds on cells need no case.
    pub count: usize,
    // Stays: a flag, and no `Option` of what follows. A read asks for the accepting line at each symbol and would ask each time whether there is one; and what `Plate::accepts` answers for
    // the states of a table that no longer counts would be another.
    pub built: bool,
    // those of the table that was built last
    pub accepts: Accepts,
    ghost few: { standing ≤ 8 },
    ghost counted: { count ≤ 256 },
    ghost full: { length entries ≡ 8 },
}

ghost use Rattle.std.specs.Prelude.{◌≡◌, ◌≤◌, length, drop};
ghost use Rattle.meaning.specs.Doers.{Tape as Taped, tape_rule, tape_first, Does};

use crate::doer::Doer;

// Keeps each code in the next of the caller's cells, and turns one away when they are full.
// Stays: the cells are lent memory with how many of them are used, since the engine has no heap and so no `Vec`.
#[derive(Debug, Drop)]
pub struct Tape<'c> {
    cells: &'c mut [u16],
    held: usize,
    ghost within: { held ≤ length cells.now },
}

impl<'c> Tape<'c> {
    ghost use Rattle.doers.specs.Tapes.{taped};

    // An empty tape on the caller's cells, which are as they were.
    pub fn new(cells: &'c mut [u16]) -> Tape<'c>
        ensures empty { taped result ≡ tape_first (length cells.old) }
        ensures cells { result.cells.now ≡ cells.old }
        ensures names { result.cells.ghost_name ≡ cells.entry.ghost_name }
    {
        Tape { cells, held: 0 }
    }

    // How many codes it holds.
    pub fn held(&self) -> usize
        ensures { result ≡ length (taped self.now).held }
    {
        self.held // of those that it was lent
    }
}

impl Doer for Tape<'_> {
    ghost use Rattle.doers.specs.Tapes.{taped};

    ghost State = { Taped };

    ghost state = { taped };

    ghost rule = { tape_rule };

    // The cells behind its codes keep their content.
    fn give(&mut self, code: u16, mark: u16) -> bool
        ensures rule { Does tape_rule (taped self.old) code mark result (taped self.new) }
        ensures behind { drop self.new.held self.new.cells.now ≡ drop self.new.held self.old.cells.now }
        ensures names { self.new.cells.ghost_name ≡ self.old.cells.ghost_name }
    {
        // Stays: with `get_mut` the proof did not close, since it knows no element of a slice once such a loan is over.
        if self.held >= self.cells.len() {
            return false;
        }
        self.cells[self.held] = code;
        self.held += 1;
        true
    }
}

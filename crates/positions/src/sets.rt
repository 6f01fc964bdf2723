// The symbols and position sets of a whole line.
ghost use Rattle.positions.specs.Masks.{held, ClassMasks};

use crate::draft::Draft;
use crate::limits::*;
use crate::masks::{has, union};
use crate::part::Part;
use crate::symbols::Symbols;

// A line's symbols, its first set, what follows each position, and where each class stands.
// Stays: which line it is of is no value of the program, so no ghost field can hold it, and each clause says `SetsOf l self.now` of any line `l`.
#[derive(Clone, Copy)]
pub struct Sets {
    pub(crate) symbols: Symbols,
    pub(crate) first: u64,
    pub(crate) follow: [u64; MOST_POSITIONS],
    // for each class, the positions whose range holds it
    pub(crate) holds: [u64; MOST_CLASSES],
    ghost masks: { ∥ ClassMasks (held symbols) holds ∥₁ },
}

impl Sets {
    ghost use Rattle.std.specs.Prelude.{◌≡◌, ℕ, ◌<◌};
    ghost use Rattle.meaning.specs.Words.{Line};
    ghost use Rattle.meaning.specs.Positions.{has as in_set, first_set, end_mark, move, symbol_at};
    ghost use Rattle.positions.specs.Of.{Drafted, SetsOf, Fitting, Lowest};

    // The sets of a line whose expression was read, with the end mark.
    pub fn new(mut draft: Draft, part: Part) -> Sets
        ensures { (l : Line) → Drafted l draft part → SetsOf l result }
    {
        let Part {
            nullable,
            first,
            last,
        } = part;
        let end = 1 << draft.symbols.len();
        draft.link(last, end);
        Sets {
            symbols: draft.symbols,
            first: if nullable { first | end } else { first },
            follow: draft.follow,
            holds: draft.symbols.class_masks(),
        }
    }

    pub fn first(&self) -> u64
        ensures { (l : Line) → SetsOf l self.now → result ≡ first_set l }
    {
        self.first
    }

    // Where a class leads from a set of positions.
    pub fn next(&self, set: u64, class: usize) -> u64
        ensures { (l : Line) → SetsOf l self.now → class < 256 → result ≡ move l set class }
    {
        union(&self.follow, self.fitting(set, class))
    }

    // Whether a set has the end mark.
    pub fn accepts(&self, set: u64) -> bool
        ensures { (l : Line) → SetsOf l self.now → result ≡ in_set set (end_mark l) }
    {
        has(set, self.symbols.len())
    }

    // The code of a class at a set of positions: that of the lowest position whose range holds the class, and 0 where there is none.
    // Stays: 0 and not `None`, since a call that never failed may not begin to; its callers ask only where a position fits, and would unwrap each answer.
    pub fn code(&self, set: u64, class: usize) -> u16
        ensures { (l : Line) (p : ℕ) → SetsOf l self.now → class < 256 → Lowest l set class p → result ≡ (symbol_at l p).code }
    {
        let fit = self.fitting(set, class);
        let symbols = self.symbols.as_slice();
        // Stays: `as`, since no `usize::from` takes a u32; the number is at most 64.
        symbols
            .get(fit.trailing_zeros() as usize)
            .map_or(0, |symbol| symbol.code)
    }

    // The positions of a set whose range holds a class: none for what is no class.
    fn fitting(&self, set: u64, class: usize) -> u64
        ensures { (l : Line) → SetsOf l self.now → class < 256 → Fitting l set class result }
    {
        self.holds.get(class).map_or(0, |holds| set & holds)
    }
}

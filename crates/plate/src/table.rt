// What the calls above a plate read of it.
ghost use Rattle.std.specs.Prelude.{◌≡◌, ◌+◌, ◌*◌, ◌<◌, ◌≤◌, true, length, Some, None, MatchOption, MatchResult, slice_index, slice_index_or};
ghost use Rattle.plate.specs.Desks.{is_built, accepts_of};
ghost use Rattle.plate.specs.Cells.{Unready, reached};

use crate::open::Plate;
use positions::{LONGEST_EXTENT, MOST_STATES};
use sheet::{Alphabet, Entry, Refusal};

impl Plate<'_> {
    // Refuses a call that needs a built plate, then one with a long extent.
    pub fn ready<A: Alphabet>(&self, extent: &[A]) -> Result<(), Refusal>
        ensures { MatchResult result (λ _. (self.now.desk.count ≡ A.COUNT) × (is_built self.now.desk ≡ true) × (length extent.now ≤ 32768)) (λ f. Unready A.COUNT self.now.desk (length extent.now) f) }
    {
        self.desk.hears::<A>()?;
        if !self.desk.built {
            return Err(Refusal::NotBuilt);
        }
        if extent.len() > LONGEST_EXTENT {
            return Err(Refusal::ExtentTooLong);
        }
        Ok(())
    }

    // The state behind `state` on a class.
    pub fn next(&self, state: usize, class: usize) -> Option<usize>
        ensures outside { (state < 64 → class < self.now.desk.count → ⊥) → result ≡ None }
        ensures inside { state < 64 → class < self.now.desk.count → result ≡ reached (slice_index self.now.moves.now (state * self.now.desk.count + class)) }
    {
        if state >= MOST_STATES || class >= self.desk.count {
            return None;
        }
        // Stays: a match, and no `checked_sub(1)`, whose subtraction with a carry every step of a read or play would wait for.
        match self.moves[state * self.desk.count + class] {
            0 => None,
            cell => Some(usize::from(cell) - 1),
        }
    }

    // The earliest line that has a word in a state.
    pub fn accepts(&self, state: usize) -> Option<usize>
        ensures inside { state < 64 → result ≡ slice_index_or (accepts_of self.now.desk) state None }
        ensures outside { 64 ≤ state → result ≡ None }
    {
        *self.desk.accepts.get(state)?
    }

    // A standing line.
    pub fn line(&self, k: usize) -> Option<&Entry>
        ensures { MatchOption result (self.now.desk.standing ≤ k) (λ e. (k < self.now.desk.standing) × (e.now ≡ slice_index_or self.now.desk.entries k e.now)) }
    {
        self.desk.lines().get(k)
    }
}

// Taking and striking lines on a desk.
ghost use Rattle.std.specs.Prelude.{◌≡◌, ℕ, ◌+◌, ◌≤◌, false, List, length, take, Ok, Err, MatchResult, ◌≢◌};
ghost use Rattle.meaning.specs.Doers.{Given};
ghost use Rattle.meaning.specs.Runs.{Taken, Struck};
ghost use Rattle.plate.specs.Desks.{account_of, answer_of, is_built};

use crate::desk::Desk;
use positions::{MOST_LINES, MOST_STATES};
use sheet::{Alphabet, Entry, Refusal};

impl Desk {
    // No lines, and not built; shut where `count` is 0.
    pub(crate) fn new(count: usize) -> Desk
        requires { count ≤ 256 }
        ensures standing { result.standing ≡ 0 }
        ensures counted { result.count ≡ count }
        ensures built { is_built result ≡ false }
    {
        Desk {
            entries: [Entry::blank(); MOST_LINES],
            standing: 0,
            count,
            built: false,
            accepts: [None; MOST_STATES],
        }
    }

    // The standing lines, in the order taken.
    pub(crate) fn lines(&self) -> &[Entry]
        ensures these { result.now ≡ take self.now.standing self.now.entries }
        ensures many { length result.now ≡ self.now.standing }
    {
        &self.entries[..self.standing]
    }

    // Refuses a call of another count than the plate's.
    // Stays: that this refusal comes first is the clause `away` of each call; a name for it would be no shorter than the clause.
    pub(crate) fn hears<A: Alphabet>(&self) -> Result<(), Refusal>
        ensures { MatchResult result (λ _. self.now.count ≡ A.COUNT) (λ f. (f ≡ Refusal.NotOpen) × (self.now.count ≢ A.COUNT)) }
    {
        if self.count == A::COUNT {
            Ok(())
        } else {
            Err(Refusal::NotOpen)
        }
    }

    // Adds a line behind those that stand.
    pub(crate) fn take<A: Alphabet>(&mut self, line: &[u8]) -> Result<usize, Refusal>
        ensures away { (self.old.count ≢ A.COUNT) → result ≡ Err Refusal.NotOpen }
        ensures taken { self.old.count ≡ A.COUNT → (moves sets : List ℕ) (h : List Given) → Taken A.COUNT (account_of self.old moves sets h) line.now (answer_of result) (account_of self.new moves sets h) }
        ensures refused { MatchResult result (λ _. is_built self.new ≡ false) (λ _. self.new ≡ self.old) }
        ensures counted { self.new.count ≡ self.old.count }
    {
        self.hears::<A>()?;
        let place = self.standing;
        if place >= MOST_LINES {
            return Err(Refusal::EightLines);
        }
        let entry = Entry::read::<A>(line)?;
        self.entries[place] = entry;
        self.standing = place + 1;
        self.built = false; // the table does not have the line
        Ok(place)
    }

    // Removes the line taken last.
    pub(crate) fn strike<A: Alphabet>(&mut self) -> Result<usize, Refusal>
        ensures away { (self.old.count ≢ A.COUNT) → result ≡ Err Refusal.NotOpen }
        ensures struck { self.old.count ≡ A.COUNT → (moves sets : List ℕ) (h : List Given) → Struck (account_of self.old moves sets h) (answer_of result) (account_of self.new moves sets h) }
        ensures refused { MatchResult result (λ _. is_built self.new ≡ false) (λ _. self.new ≡ self.old) }
        ensures counted { self.new.count ≡ self.old.count }
    {
        self.hears::<A>()?;
        if self.standing == 0 {
            return Err(Refusal::NoLine);
        }
        self.standing -= 1;
        self.built = false;
        Ok(self.standing)
    }
}

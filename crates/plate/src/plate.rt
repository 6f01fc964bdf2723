ghost use Rattle.std.specs.Prelude.{◌≡◌, ℕ, ◌*◌, ◌<◌, false, List, [], Ok, Err, MatchResult, ◌≢◌};
ghost use Rattle.meaning.specs.Doers.{Given};
ghost use Rattle.meaning.specs.Runs.{Room, Taken, Struck, cleared};
ghost use Rattle.plate.specs.Desks.{texts_of, account_of, answer_of, is_built};
ghost use Rattle.plate.specs.Plates.{SameCells, SameMemory};

use crate::cells::clear;
use crate::desk::Desk;
use crate::open::Plate;
use positions::{MOST_LINES, MOST_STATES};
use sheet::{Alphabet, Refusal};

// Stays: that cells or memory are as before is a clause of each call, since what holds before and after can be no invariant of a plate.
impl<'m> Plate<'m> {
    // The check before an opening: whether the memory has the cells that a plate uses.
    pub fn check<A: Alphabet>(moves: &[u16], sets: &[u64]) -> Result<(), Refusal>
        ensures { MatchResult result (λ _. Room A.COUNT moves.now sets.now) (λ f. (f ≡ Refusal.TooLittleMemory) × (Room A.COUNT moves.now sets.now → ⊥)) }
    {
        if moves.len() < MOST_STATES * A::COUNT || sets.len() < MOST_STATES * MOST_LINES {
            return Err(Refusal::TooLittleMemory);
        }
        Ok(())
    }

    // A plate on the lent memory, with its used cells zero; shut, and the memory as it was, where the check refuses.
    pub fn open<A: Alphabet>(moves: &'m mut [u16], sets: &'m mut [u64]) -> Plate<'m>
        ensures opens { Room A.COUNT moves.old sets.old → (result.desk.count ≡ A.COUNT) × (result.moves.now ≡ cleared moves.old (64 * A.COUNT)) × (result.sets.now ≡ cleared sets.old 512) }
        ensures shut { (Room A.COUNT moves.old sets.old → ⊥) → (result.desk.count ≡ 0) × (result.moves.now ≡ moves.old) × (result.sets.now ≡ sets.old) }
        ensures empty { (texts_of result.desk ≡ []) × (is_built result.desk ≡ false) }
        ensures names { (result.moves.ghost_name ≡ moves.entry.ghost_name) × (result.sets.ghost_name ≡ sets.entry.ghost_name) }
    {
        let mut count = 0;
        if Plate::check::<A>(moves, sets).is_ok() {
            count = A::COUNT;
            clear(moves, sets, count);
        }
        let desk = Desk::new(count);
        Plate { moves, sets, desk }
    }

    // Adds a line and answers its number.
    // Stays: this and `strike` hand on to the desk, the plain inner part, and add that no cell changes.
    pub fn take<A: Alphabet>(&mut self, line: &[u8]) -> Result<usize, Refusal>
        ensures away { (self.old.desk.count ≢ A.COUNT) → result ≡ Err Refusal.NotOpen }
        ensures taken { self.old.desk.count ≡ A.COUNT → (moves sets : List ℕ) (h : List Given) → Taken A.COUNT (account_of self.old.desk moves sets h) line.now (answer_of result) (account_of self.new.desk moves sets h) }
        ensures refused { MatchResult result (λ _. is_built self.new.desk ≡ false) (λ _. self.new.desk ≡ self.old.desk) }
        ensures counted { self.new.desk.count ≡ self.old.desk.count }
        ensures cells { SameCells self.old self.new }
        ensures names { SameMemory self.old self.new }
    {
        self.desk.take::<A>(line)
    }

    // Removes the line taken last and answers its number.
    pub fn strike<A: Alphabet>(&mut self) -> Result<usize, Refusal>
        ensures away { (self.old.desk.count ≢ A.COUNT) → result ≡ Err Refusal.NotOpen }
        ensures struck { self.old.desk.count ≡ A.COUNT → (moves sets : List ℕ) (h : List Given) → Struck (account_of self.old.desk moves sets h) (answer_of result) (account_of self.new.desk moves sets h) }
        ensures refused { MatchResult result (λ _. is_built self.new.desk ≡ false) (λ _. self.new.desk ≡ self.old.desk) }
        ensures counted { self.new.desk.count ≡ self.old.desk.count }
        ensures cells { SameCells self.old self.new }
        ensures names { SameMemory self.old self.new }
    {
        self.desk.strike::<A>()
    }
}

// Building a plate.
ghost use Rattle.std.specs.Prelude.{◌≡◌, ◌⊎◌, List, Err, ◌≢◌};
ghost use Rattle.meaning.specs.Doers.{Given};
ghost use Rattle.meaning.specs.Runs.{Built};
ghost use Rattle.plate.specs.Desks.{answer_of};
ghost use Rattle.plate.specs.Cells.{SameLines};
ghost use Rattle.plate.specs.Plates.{account, SameCells, SameMemory};

use crate::open::Plate;
use sheet::{Alphabet, Refusal};

impl Plate<'_> {
    // Fills the table for the standing lines and answers the number of their states.
    pub fn build<A: Alphabet>(&mut self) -> Result<usize, Refusal>
        ensures away { (self.old.desk.count ≢ A.COUNT) → result ≡ Err Refusal.NotOpen }
        ensures heard { self.old.desk.count ≡ A.COUNT → (h : List Given) → Built A.COUNT (account self.old h) (answer_of result) (account self.new h) }
        ensures unchanged { (result ≡ Err Refusal.NotOpen) ⊎ (result ≡ Err Refusal.NoLine) → (self.new.desk ≡ self.old.desk) × SameCells self.old self.new }
        ensures lines { SameLines self.old.desk self.new.desk }
        ensures names { SameMemory self.old self.new }
    {
        self.desk.hears::<A>()?;
        if self.desk.standing == 0 {
            return Err(Refusal::NoLine);
        }
        self.desk.built = false;
        let (met, accepts) = self.desk.fill(self.moves, self.sets)?;
        self.desk.accepts = accepts;
        self.desk.built = true;
        Ok(met)
    }
}

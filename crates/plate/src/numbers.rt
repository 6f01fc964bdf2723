// Numbers for the states of a plate as they are met.
ghost use Rattle.std.specs.Prelude.{◌≡◌, ℕ, ◌<◌, [], ◌∷◌, length, MatchOption, ◌≢◌, slice_index_or};
ghost use Rattle.meaning.specs.States.{nowhere};
ghost use Rattle.plate.specs.Filling.{met_of, Numbered};

use crate::numbering::{Numbering, State};
use arrayvec::ArrayVec;

impl Numbering {
    // The start is state 0.
    pub fn new(start: State) -> Numbering
        ensures { met_of result ≡ start ∷ [] }
    {
        let mut states = ArrayVec::new();
        states.push(start);
        Numbering { states }
    }

    // The number that a state has, if it was met.
    fn find(&self, state: State) -> Option<usize>
        ensures { MatchOption result ((i : ℕ) → i < length (met_of self.now) → slice_index_or (met_of self.now) i nowhere ≢ state) (λ s. (s < length (met_of self.now)) × (slice_index_or (met_of self.now) s nowhere ≡ state)) }
    {
        self.states.iter().position(|met| *met == state)
    }

    // The number of a state, which is met now if it was not before; none where the plate has no number for it.
    pub fn number(&mut self, state: State) -> Option<usize>
        ensures { Numbered (met_of self.old) state result (met_of self.new) }
    {
        if let Some(s) = self.find(state) {
            return Some(s);
        }
        let s = self.states.len();
        self.states.try_push(state).ok()?;
        Some(s)
    }
}

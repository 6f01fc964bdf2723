// Filling the table of a plate.
ghost use Rattle.std.specs.Prelude.{◌≡◌, ℕ, ◌+◌, ◌*◌, ◌<◌, ◌≤◌, List, length, None, MatchOption, IfOk, IfErr, slice_index, slice_index_or};
ghost use Rattle.meaning.specs.Words.{Line};
ghost use Rattle.meaning.specs.States.{nowhere};
ghost use Rattle.meaning.specs.Runs.{Mean, cleared};
ghost use Rattle.plate.specs.Desks.{texts_of};
ghost use Rattle.plate.specs.Cells.{Beyond};
ghost use Rattle.plate.specs.Tables.{BuiltTable, Earliest};
ghost use Rattle.plate.specs.Filling.{met_of, Filled, Laid, TooMany};

use crate::cells::clear;
use crate::desk::{Accepts, Desk};
use crate::numbering::{NOWHERE, Numbering};
use positions::{MOST_LINES, MOST_STATES};
use sheet::Refusal;

impl Desk {
    // For each state that has a number, the line that is taken there, and behind them what was known before.
    fn accepting_lines(&self, numbering: &Numbering) -> Accepts
        ensures { (ls : List Line) → Mean (texts_of self.now) ls → (s : ℕ) → s < length (met_of numbering.now) → Earliest ls (slice_index_or (met_of numbering.now) s nowhere) (slice_index_or result s None) }
    {
        let mut accepts = self.accepts;
        // Stays: written by place; `array::from_fn` would want a closure with a contract of its own, which is no plainer.
        for (s, state) in numbering.states.iter().enumerate() {
            accepts[s] = self.accepting(*state);
        }
        accepts
    }

    // The move cells of one state, and numbers for the states that its moves meet; none where these are too many.
    // Stays: which cells a step may change is a clause of each, since what holds before and after can be no invariant of a desk.
    fn fill_row(&self, moves: &mut [u16], numbering: &mut Numbering, s: usize) -> Option<()>
        requires room { 64 * self.now.count ≤ length moves.old }
        requires known { s < length (met_of numbering.old) }
        requires filled { Filled self.now.count (texts_of self.now) (met_of numbering.old) moves.old s 0 }
        ensures filled { MatchOption result (TooMany self.now.count (texts_of self.now)) (λ _. Filled self.now.count (texts_of self.now) (met_of numbering.new) moves.new (s + 1) 0) }
        ensures beyond { Beyond (64 * self.now.count) moves.old moves.new }
    {
        let state = numbering.states[s];
        // Stays: `c` is the class that `step` takes, and not only a place in the row.
        for c in 0..self.count {
            let next = self.step(state, c);
            if next != NOWHERE {
                let t = numbering.number(next)?;
                // Stays: `as`, since a state's number is at most 63.
                moves[s * self.count + c] = (t + 1) as u16;
            }
        }
        Some(())
    }

    // The states that moves meet from the start, and the move cells of all of them, which are 0 before; none where the states are too many.
    fn fill_moves(&self, moves: &mut [u16]) -> Option<Numbering>
        requires room { 64 * self.now.count ≤ length moves.old }
        requires zero { (i : ℕ) → i < 64 * self.now.count → slice_index moves.old i ≡ 0 }
        ensures filled { MatchOption result (TooMany self.now.count (texts_of self.now)) (λ n. Filled self.now.count (texts_of self.now) (met_of n) moves.new (length (met_of n)) 0) }
        ensures beyond { Beyond (64 * self.now.count) moves.old moves.new }
    {
        let mut numbering = Numbering::new(self.start());
        // Stays: the states become more while they are gone through, so no `for` can walk over them; this one goes to the most that there can be.
        for s in 0..MOST_STATES {
            if s >= numbering.states.len() {
                break;
            }
            self.fill_row(moves, &mut numbering, s)?;
        }
        Some(numbering)
    }

    // Fills the used cells: the number of states, and for each the line that is taken there. Where the states are too many, the used cells are 0.
    // Stays: two slices, as in `clear`.
    pub(crate) fn fill(
        &self,
        moves: &mut [u16],
        sets: &mut [u64],
    ) -> Result<(usize, Accepts), Refusal>
        requires some { 1 ≤ self.now.standing }
        requires moves { 64 * self.now.count ≤ length moves.old }
        requires sets { 512 ≤ length sets.old }
        ensures table { IfOk result (λ r. (b : BuiltTable self.now.count (texts_of self.now) moves.new sets.new r.1) × (r.0 ≡ length b.all)) }
        ensures many { IfErr result (λ f. (f ≡ Refusal.TooManyStates) × TooMany self.now.count (texts_of self.now) × (moves.new ≡ cleared moves.old (64 * self.now.count)) × (sets.new ≡ cleared sets.old 512)) }
        ensures moves { Beyond (64 * self.now.count) moves.old moves.new }
        ensures sets { Beyond 512 sets.old sets.new }
    {
        clear(moves, sets, self.count);
        let Some(numbering) = self.fill_moves(moves) else {
            clear(moves, sets, self.count);
            return Err(Refusal::TooManyStates);
        };
        numbering.fill_sets(sets);
        Ok((numbering.states.len(), self.accepting_lines(&numbering)))
    }
}

impl Numbering {
    // The set cells of the states that have a number.
    fn fill_sets(&self, sets: &mut [u64])
        requires { 512 ≤ length sets.old }
        ensures { Laid (met_of self.now) (length (met_of self.now)) sets.old sets.new }
    {
        // Stays: written by place, since after a loop over `sets.chunks_exact_mut(..)` the proof does not know what the cells hold, and cell by cell, so that the contract is seen to ask for each
        // line's own cell (docs/PLANTED.md, `other_lines_slot`).
        for (s, state) in self.states.iter().enumerate() {
            for (k, set) in state.iter().enumerate() {
                sets[s * MOST_LINES + k] = *set;
            }
        }
    }
}

// The start of a desk's lines, where a class leads from a state, and the line that is taken there.
ghost use Rattle.std.specs.Prelude.{◌≡◌, ◌<◌, List};
ghost use Rattle.meaning.specs.Words.{Line};
ghost use Rattle.meaning.specs.States.{start, step};
ghost use Rattle.meaning.specs.Runs.{Mean};
ghost use Rattle.plate.specs.Desks.{texts_of};
ghost use Rattle.plate.specs.Tables.{Earliest};

use crate::desk::Desk;
use crate::numbering::{NOWHERE, State};

// Stays: the meant lines are no value of the program, so no ghost field can hold them, and each clause is over any `ls` that the texts write.
impl Desk {
    // The first sets of the standing lines.
    pub(crate) fn start(&self) -> State
        ensures { (ls : List Line) → Mean (texts_of self.now) ls → result ≡ start ls }
    {
        let mut state = NOWHERE;
        // Stays: written by place, since after a loop over `state.iter_mut().zip(..)` the proof does not know what the state holds; `array::from_fn` would want a closure with a contract of
        // its own, which is no plainer.
        for (k, entry) in self.lines().iter().enumerate() {
            state[k] = entry.first();
        }
        state
    }

    // Where a class leads from a state.
    pub(crate) fn step(&self, state: State, class: usize) -> State
        ensures { (ls : List Line) → Mean (texts_of self.now) ls → class < 256 → result ≡ step ls class state }
    {
        let mut next = state;
        // Stays: written by place, as in `start`.
        for (k, entry) in self.lines().iter().enumerate() {
            next[k] = entry.next(state[k], class);
        }
        next
    }

    // The earliest line that has a word in a state.
    pub(crate) fn accepting(&self, state: State) -> Option<usize>
        ensures { (ls : List Line) → Mean (texts_of self.now) ls → Earliest ls state result }
    {
        self.lines()
            .iter()
            .zip(&state)
            .position(|(entry, set)| entry.accepts(*set))
    }
}

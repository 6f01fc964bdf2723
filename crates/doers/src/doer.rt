ghost use Rattle.std.specs.Prelude.{ℕ, Option};
ghost use Rattle.meaning.specs.Doers.{Does};

// A state, and a rule that for each state, code and mark gives a next state or turns the code away.
pub trait Doer {
    ghost State: { Type 0 };

    ghost state: { Self → State };

    ghost rule: { State → ℕ → ℕ → Option State };

    // Offers a code; true where it was taken, and the rule moved the state. A code is turned away only by the rule, and then the state is as it was.
    // Stays: a doer's rule is over numbers, and 65,535 is the mark of a word's two ends (docs/DOERS.md); the answer is whether the code was taken, which is a bool.
    fn give(&mut self, code: u16, mark: u16) -> bool
        ensures { Does rule (state self.old) code mark result (state self.new) };
}

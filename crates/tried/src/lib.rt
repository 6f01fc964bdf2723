#![tactic(auto)]

ghost use Rattle.tried.specs.Cases.{Worked, RuledOut};

// Twelve worked cases hold of the definitions, all at once, and what their one answer rules out does not.
pub fn worked_cases()
    ensures cases { Worked }
    ensures others { RuledOut }
{}

#![tactic(auto)]

ghost use Rattle.meaning.specs.Alphabets.{PieceBelow, AlphabetLaw};
ghost use Rattle.meaning.specs.TextLaws.{OneNumber, OneForm, OneList, OneLine, OneMeaning, NoFront, NothingBad, OneBad, Told, Balanced, OneWrong, OneFault, Judged, Limits};
ghost use Rattle.meaning.specs.Laws.{MaskLaw, RangeLaw, FollowposLaw, PathLaw, ClashLaw, ClearLaw, SizeLaw, MeetLaw, FirstClashLaw};
ghost use Rattle.meaning.specs.StateLaws.{NumberingLaw, CountLaw, ReachLaw, ExactLaw, LineLaw};
ghost use Rattle.meaning.specs.ReadLaws.{ReadingLaw, AdjoinLaw, PieceLaw, PlayLaw};
ghost use Rattle.meaning.specs.DoerLaws.{TapeLaw, SlipLaw};
ghost use Rattle.meaning.specs.RunLaws.{MeaningLaw, RefusalLaw, TextLaw, ShutLaw, RunLaw, AccountLaw, OutcomeLaw, TestLaw, VerdictLaw};

use std::fmt;

// The records that definitions and code share, and the laws between the definitions. Each law stands on
// the contract of a function that does nothing else: docs/LAWS.md tells them in plain words.

// A symbol of a line: the classes from `low` to `high`, and the action code that goes with each.
#[derive(Clone, Copy, PartialEq, Eq, Debug, Default)]
pub struct Symbol {
    pub low: u16,
    pub high: u16,
    pub code: u16,
}

// A piece of an extent: the number of the line that it is a word of, its place and its length.
#[derive(Clone, Copy, PartialEq, Eq, Debug, Default)]
pub struct Piece {
    pub line: usize,
    pub place: usize,
    pub len: usize,
}

// Line, place and length, as programs print a piece.
impl fmt::Display for Piece {
    ghost use Rattle.std.specs.Prelude.{Some};
    ghost use Rattle.meaning.specs.Printed.{piece_text};

    ghost output = { λ p. Some (piece_text p) };

    fn fmt<W: fmt::Write>(&self, f: &mut fmt::Formatter<W>) -> fmt::Result {
        write!(f, "{} {} {}", self.line, self.place, self.len)
    }
}

// ---- Alphabets

// The class of every piece is below the count of pieces.
pub fn class_law()
    ensures { PieceBelow }
{}

// Bytes and pieces are alphabets: a count from 1 to 256, and every class below it.
pub fn alphabet_law()
    ensures { AlphabetLaw }
{}

// ---- Texts

// A text is read in one way: it writes at most one line, and no line's text goes on to another's.
pub fn one_reading()
    ensures number { OneNumber }
    ensures form { OneForm }
    ensures list { OneList }
    ensures line { OneLine }
    ensures meaning { OneMeaning }
    ensures front { NoFront }
{}

// A well-formed text has no bad byte, and any other text has one.
pub fn one_bad_byte()
    ensures nothing { NothingBad }
    ensures single { OneBad }
    ensures told { Told }
{}

// The brackets of a well-formed text balance, and not before its end.
pub fn brackets_balance()
    ensures { Balanced }
{}

// A text has one first fault, or is a line with nothing wrong; and that is a line that keeps to the limits.
pub fn one_verdict()
    ensures alone { OneWrong }
    ensures single { OneFault }
    ensures judged { Judged }
    ensures limits { Limits }
{}

// That a text writes a line, or texts write lines, is known in at most one way.
pub fn meaning_law()
    ensures { MeaningLaw }
{}

// A text is refused on its own account or accepted, never both, and refused in one way.
pub fn text_law()
    ensures { TextLaw }
{}

// ---- Words and position sets

// A mask is a set of positions: union, the empty one, one position, and when two are one.
pub fn mask_law()
    ensures { MaskLaw }
{}

// The positions in the sets of an expression are its own.
pub fn range_law()
    ensures { RangeLaw }
{}

// A line's sets have no bit past its end mark.
pub fn size_law()
    ensures { SizeLaw }
{}

// The words of a line are exactly the labels of the paths along first, follow and last positions.
pub fn path_law()
    ensures { PathLaw }
{}

// A class string is that of a word exactly when the moves over it reach the end mark.
pub fn followpos_law()
    ensures { FollowposLaw }
{}

// ---- Clashes

// A line clashes exactly when two positions with different codes meet.
pub fn clash_law()
    ensures { ClashLaw }
{}

// Meeting is the closure of the pairs in the first set under moves.
pub fn meet_law()
    ensures { MeetLaw }
{}

// A line that clashes has a first clash; meeting and clashing are decided.
pub fn first_clash_law()
    ensures { FirstClashLaw }
{}

// In a line without a clash every reached set has one code for a class, and a class string one word.
pub fn clear_law()
    ensures { ClearLaw }
{}

// ---- States

// The numbering of states is one, and more than 64 excludes at most 64.
pub fn numbering_law()
    ensures { NumberingLaw }
{}

// Lines have at most 64 states or more than 64.
pub fn count_law()
    ensures { CountLaw }
{}

// A numbered state is reached by moves, and what moves reach is empty or numbered.
pub fn reach_law()
    ensures { ReachLaw }
{}

// The numbered states are exactly the non-empty ones that moves reach.
pub fn exact_law()
    ensures { ExactLaw }
{}

// The k-th set of a state is what the moves of line k give; there are eight sets.
pub fn line_law()
    ensures { LineLaw }
{}

// ---- Pieces and readings

// Cut, pieces and reading are one: pieces, place and why are determined.
pub fn reading_law()
    ensures { ReadingLaw }
{}

// Lengths of listed pieces add up to the place reached, inside the extent.
pub fn adjoin_law()
    ensures { AdjoinLaw }
{}

// Over lines without a clash there is a cut where a word fits, and a reading; a piece gives its line's one translation.
pub fn piece_law()
    ensures { PieceLaw }
{}

// ---- Doers

// What a piece gives, a doer does and a play leaves is one, and every play has an outcome.
pub fn play_law<S>()
    ensures { PlayLaw S }
{}

// The tape keeps every code in order within its cells, and turns one away exactly when full.
pub fn tape_law()
    ensures { TapeLaw }
{}

// The slip has eight registers, none above the highest value, wherever its rule leads.
pub fn slip_law()
    ensures { SlipLaw }
{}

// ---- Runs and tests

// A line has one first clash, and an opening and the check before it one outcome.
pub fn refusal_law()
    ensures { RefusalLaw }
{}

// On memory that is too small every call is refused 25, and nothing changes.
pub fn shut_law<S>()
    ensures { ShutLaw S }
{}

// The calls, and what is lent for them, decide every answer, every cell and the doer's state.
pub fn run_law<S>()
    ensures { RunLaw S }
{}

// The calls decide the account of a run.
pub fn account_law<S>()
    ensures { AccountLaw S }
{}

// Every run has an outcome, so with `run_law` exactly one.
pub fn outcome_law<S>()
    ensures { OutcomeLaw S }
{}

// A test has one verdict, and leaves the code cells in one way.
pub fn test_law()
    ensures { TestLaw }
{}

// Over texts that were accepted every test has a verdict, so with `test_law` exactly one.
pub fn verdict_law()
    ensures { VerdictLaw }
{}

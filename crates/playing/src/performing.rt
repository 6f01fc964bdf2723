ghost use Rattle.std.specs.Prelude.{◌≡◌, ◌≤◌, List, length, IfOk, Err, MatchResult, ◌≢◌};
ghost use Rattle.meaning.specs.Words.{Line, Word, Of, classes};
ghost use Rattle.meaning.specs.Alphabets.{seen};
ghost use Rattle.meaning.specs.Doers.{Given, Leads, gives};
ghost use Rattle.meaning.specs.Runs.{Means};
ghost use Rattle.sheet.specs.Entries.{text_of};
ghost use Rattle.plate.specs.Cells.{Unready};
ghost use Rattle.plate.specs.Plates.{account};
ghost use Rattle.reading.specs.Answers.{Ready};
ghost use Rattle.playing.specs.Performances.{Offered, Performed, play_answer};

use doers::Doer;
use plate::Plate;
use positions::NO_MARK;
use reading::{Why, longest};
use sheet::{Alphabet, Entry, Refusal};

// Gives the codes of a word of the line to the doer, in order, until one is turned away; answers how many it took.
// Stays: a count and no `Result<(), usize>`, since the definition `Offered` is over how many were taken, of whole words too.
fn give_word<A: Alphabet, D: Doer>(line: &Entry, word: &[A], doer: &mut D) -> usize
    requires { length word.now ≤ 32768 }
    ensures { (l : Line) (w : Word) → Means (text_of line.now) l → Of l.expr w → classes w ≡ seen A.classed word.now → Offered D.rule (D.state doer.old) (gives l w) result (D.state doer.new) }
{
    if !doer.give(line.open(), NO_MARK) {
        return 0;
    }
    let mut set = line.first();
    for (i, symbol) in word.iter().enumerate() {
        let class = symbol.class();
        // Stays: `as`, since a class is below 256.
        if !doer.give(line.code(set, class), class as u16) {
            return i + 1;
        }
        set = line.next(set, class);
    }
    if doer.give(line.close(), NO_MARK) {
        word.len() + 2
    } else {
        word.len() + 1
    }
}

// Finds pieces as read does and gives the codes of each to the doer. Answers the pieces played whole, the place behind them, the codes taken of a broken
// piece, and why.
pub fn play<A: Alphabet, D: Doer>(
    plate: &Plate,
    extent: &[A],
    doer: &mut D,
) -> Result<(usize, usize, usize, Why), Refusal>
    ensures away { (plate.now.desk.count ≢ A.COUNT) → (result ≡ Err Refusal.NotOpen) × (doer.new ≡ doer.old) }
    ensures heard { plate.now.desk.count ≡ A.COUNT → (h : List Given) → Performed D.rule (account plate.now h) (seen A.classed extent.now) (D.state doer.old) (play_answer result) (D.state doer.new) }
    ensures cases { MatchResult result (λ _. Ready A.COUNT plate.now.desk (length extent.now)) (λ f. Unready A.COUNT plate.now.desk (length extent.now) f) }
    ensures doer { MatchResult result (λ a. (gs : List Given) × Leads D.rule (D.state doer.old) gs (D.state doer.new)) (λ _. doer.new ≡ doer.old) }
    ensures bounds { IfOk result (λ a. (a.0 ≤ a.1) × (a.1 ≤ length extent.now)) }
{
    plate.ready(extent)?;
    // Stays: `place` moves by the length of the piece just played, as in `read`.
    let mut pieces = 0;
    let mut place = 0;
    while place < extent.len() {
        let Some(piece) = longest(plate, extent, place) else {
            return Ok((pieces, place, 0, Why::NoPiece));
        };
        // `longest` names only standing lines, so there is one.
        let Some(entry) = plate.line(piece.line) else {
            return Ok((pieces, place, 0, Why::NoPiece));
        };
        let end = place + piece.len;
        let taken = give_word(entry, &extent[place..end], doer);
        if taken < piece.len + 2 {
            return Ok((pieces, place, taken, Why::TurnedAway));
        }
        pieces += 1;
        place = end;
    }
    Ok((pieces, place, 0, Why::End))
}

ghost use Rattle.std.specs.Prelude.{◌≡◌, ◌+◌, ◌<◌, ◌≤◌, true, List, length, drop, IfSome, Err, MatchOption, MatchResult, ◌≢◌};
ghost use Rattle.meaning.specs.Words.{Line};
ghost use Rattle.meaning.specs.Alphabets.{seen};
ghost use Rattle.meaning.specs.Pieces.{Cut, NothingAt};
ghost use Rattle.meaning.specs.Doers.{Given};
ghost use Rattle.meaning.specs.Runs.{Mean, Listed};
ghost use Rattle.plate.specs.Desks.{texts_of, is_built};
ghost use Rattle.plate.specs.Cells.{Unready};
ghost use Rattle.plate.specs.Plates.{account};
ghost use Rattle.reading.specs.Answers.{why_number, read_answer, Ready};

use meaning::Piece;
use plate::Plate;
use sheet::{Alphabet, Refusal};
use std::fmt;

// Why a read or a play ends: at the extent's end, where no piece begins, where one begins and the list is full, or where the doer turned a code away.
#[derive(Clone, Copy, PartialEq, Eq, Debug)]
pub enum Why {
    End,
    NoPiece,
    ListFull,
    TurnedAway,
}

impl Why {
    // Stays: the number is what programs are told (docs/READING.md), one for each case, by name.
    pub fn number(&self) -> u8
        ensures { result ≡ why_number self.now }
    {
        match self {
            Why::End => 0,
            Why::NoPiece => 1,
            Why::ListFull => 2,
            Why::TurnedAway => 3,
        }
    }
}

// The number, as programs print it.
impl fmt::Display for Why {
    ghost use Rattle.std.specs.Prelude.{Some};
    ghost use Rattle.std.specs.Fmt.{decimal};

    ghost output = { λ w. Some (decimal (why_number w)) };

    fn fmt<W: fmt::Write>(&self, f: &mut fmt::Formatter<W>) -> fmt::Result {
        write!(f, "{}", self.number())
    }
}

// The longest word of any standing line at a place of a built plate's extent, of the earliest line that has it.
pub fn longest<A: Alphabet>(plate: &Plate, extent: &[A], place: usize) -> Option<Piece>
    ensures within { IfSome result (λ p. (p.place ≡ place) × (0 < p.len) × (place + p.len ≤ length extent.now)) }
    ensures cut { plate.now.desk.count ≡ A.COUNT → is_built plate.now.desk ≡ true → (ls : List Line) → Mean (texts_of plate.now.desk) ls → MatchOption result (NothingAt ls (seen A.classed extent.now) place) (λ p. Cut ls (seen A.classed extent.now) place p.line p.len) }
{
    let rest = extent.get(place..)?;
    let mut state = 0;
    let mut best = None;
    for (before, symbol) in rest.iter().enumerate() {
        let Some(next) = plate.next(state, symbol.class()) else {
            return best;
        };
        state = next;
        if let Some(line) = plate.accepts(state) {
            let len = before + 1;
            best = Some(Piece { line, place, len });
        }
    }
    best
}

// Cuts an extent into pieces, which it writes into the list, and answers the pieces listed, the place reached and why.
pub fn read<A: Alphabet>(
    plate: &Plate,
    extent: &[A],
    list: &mut [Piece],
) -> Result<(usize, usize, Why), Refusal>
    ensures away { (plate.now.desk.count ≢ A.COUNT) → result ≡ Err Refusal.NotOpen }
    ensures heard { plate.now.desk.count ≡ A.COUNT → (h : List Given) → Listed (account plate.now h) (seen A.classed extent.now) list.old (read_answer list.new result) }
    ensures cases { MatchResult result (λ _. Ready A.COUNT plate.now.desk (length extent.now)) (λ f. Unready A.COUNT plate.now.desk (length extent.now) f) }
    ensures list { MatchResult result (λ a. (a.0 ≤ length list.old) × (a.1 ≤ length extent.now) × (drop a.0 list.new ≡ drop a.0 list.old)) (λ _. list.new ≡ list.old) }
{
    plate.ready(extent)?;
    // Stays: `place` moves by the length of the piece just found, and `play` walks so too; an iterator over the pieces would have to tell why it ended, which each loop says where it
    // returns. The list is lent memory, so how many cells are written stands beside it; a cell is written by its index, since after a write through `get_mut` the proof knew no piece.
    let mut listed = 0;
    let mut place = 0;
    while place < extent.len() {
        let Some(piece) = longest(plate, extent, place) else {
            return Ok((listed, place, Why::NoPiece));
        };
        if listed >= list.len() {
            return Ok((listed, place, Why::ListFull));
        }
        list[listed] = piece;
        listed += 1;
        place += piece.len;
    }
    Ok((listed, place, Why::End))
}

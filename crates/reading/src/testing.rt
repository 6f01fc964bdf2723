ghost use Rattle.std.specs.Prelude.{◌≡◌, ◌+◌, ◌<◌, ◌≤◌, List, length, take, drop, Err, MatchBool, MatchResult, ◌≢◌};
ghost use Rattle.meaning.specs.Words.{Line, Word, Of, classes, line_codes};
ghost use Rattle.meaning.specs.Alphabets.{seen};
ghost use Rattle.meaning.specs.Positions.{has, first_set, move_all, end_mark};
ghost use Rattle.meaning.specs.Doers.{Given};
ghost use Rattle.meaning.specs.Runs.{Means};
ghost use Rattle.meaning.specs.Tests.{Tested};
ghost use Rattle.sheet.specs.Entries.{text_of};
ghost use Rattle.plate.specs.Plates.{account};
ghost use Rattle.reading.specs.Answers.{Ready, Untested, test_answer};

use plate::Plate;
use sheet::{Alphabet, Entry, Refusal};

// Whether the classes of a whole extent are those of a word of the line.
fn is_word<A: Alphabet>(line: &Entry, extent: &[A]) -> bool
    ensures { (l : Line) → Means (text_of line.now) l → result ≡ has (move_all l (first_set l) (seen A.classed extent.now)) (end_mark l) }
{
    let mut set = line.first();
    for symbol in extent {
        set = line.next(set, symbol.class());
    }
    line.accepts(set)
}

// The codes of a word: the first, one for each symbol, and the last.
// Stays: `give_word` of the crate playing walks a word in the same way, but gives the codes to a doer. A doer over the cells would not do here: what the trait
// promises is the doer's state, so nothing would be known of the cells behind the codes, which `test` promises to leave.
fn write_codes<A: Alphabet>(line: &Entry, extent: &[A], codes: &mut [u16])
    requires { length extent.now + 2 ≤ length codes.old }
    ensures beyond { drop (length extent.now + 2) codes.new ≡ drop (length extent.now + 2) codes.old }
    ensures word { (l : Line) → Means (text_of line.now) l → (w : Word) → Of l.expr w → classes w ≡ seen A.classed extent.now → take (length extent.now + 2) codes.new ≡ line_codes l w }
{
    codes[0] = line.open();
    let mut set = line.first();
    // Stays: written by place, since after a loop over `codes[1..].iter_mut().zip(extent)` the proof does not know what the cells hold.
    for (i, symbol) in extent.iter().enumerate() {
        let class = symbol.class();
        codes[i + 1] = line.code(set, class);
        set = line.next(set, class);
    }
    codes[extent.len() + 1] = line.close();
}

// Whether the classes of the whole extent are those of a word of the line; if so its codes are written.
pub fn test<A: Alphabet>(
    plate: &Plate,
    line: usize,
    extent: &[A],
    codes: &mut [u16],
) -> Result<bool, Refusal>
    ensures away { (plate.now.desk.count ≢ A.COUNT) → result ≡ Err Refusal.NotOpen }
    ensures heard { plate.now.desk.count ≡ A.COUNT → (h : List Given) → Tested (account plate.now h) line (seen A.classed extent.now) codes.old (test_answer result) codes.new }
    ensures cases { MatchResult result (λ _. Ready A.COUNT plate.now.desk (length extent.now) × (line < plate.now.desk.standing) × (length extent.now + 2 ≤ length codes.old)) (λ f. Untested A.COUNT plate.now.desk (length extent.now) line (length codes.old) f) }
    ensures codes { MatchResult result (λ w. MatchBool w (drop (length extent.now + 2) codes.new ≡ drop (length extent.now + 2) codes.old) (codes.new ≡ codes.old)) (λ _. codes.new ≡ codes.old) }
{
    plate.ready(extent)?;
    let Some(entry) = plate.line(line) else {
        return Err(Refusal::NoSuchLine);
    };
    if codes.len() < extent.len() + 2 {
        return Err(Refusal::TooFewCodeCells);
    }
    if !is_word(entry, extent) {
        return Ok(false);
    }
    write_codes(entry, extent, codes);
    Ok(true)
}

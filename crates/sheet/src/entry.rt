ghost use Rattle.std.specs.Prelude.{◌≡◌, ℕ, ◌<◌, ◌≤◌, length, take, codes as ascii, MatchResult};
ghost use Rattle.meaning.specs.Words.{Line};
ghost use Rattle.sheet.specs.Records.{Records};

use crate::alphabet::Alphabet;
use crate::parts::NOTHING;
use crate::reader::Parsed;
use crate::refusal::Refusal;
use positions::{Draft, MOST_BYTES, Sets};

// A line as a plate keeps it: its text, its two codes, its symbols and its position sets.
#[derive(Clone, Copy)]
pub struct Entry {
    // Stays: an array with its length. A line's record has a fixed size, with no heap, and can be copied, as an `ArrayVec` cannot; an `ArrayString` holds no bytes but UTF-8.
    text: [u8; MOST_BYTES],
    len: usize,
    opening: u16,
    closing: u16,
    sets: Sets,
    ghost some: { 1 ≤ len },
    ghost short: { len ≤ 1024 },
    ghost is: { ∥ ((l : Line) × Records l (take len text) opening closing sets) ∥₁ },
}

fn copied(text: &[u8]) -> [u8; MOST_BYTES]
    requires { length text.now ≤ 1024 }
    ensures { take (length text.now) result ≡ text.now }
{
    let mut copy = [0; MOST_BYTES];
    copy[..text.len()].copy_from_slice(text);
    copy
}

// Stays: the meant line is no value of the program, so no ghost field can hold it, and each clause is over any `l` that the text means.
impl Entry {
    ghost use Rattle.meaning.specs.Positions.{has, first_set, end_mark, move, symbol_at};
    ghost use Rattle.meaning.specs.Runs.{Means, TextAccepted, TextRefused};
    ghost use Rattle.positions.specs.Of.{Lowest};
    ghost use Rattle.sheet.specs.Entries.{text_of};
    ghost use Rattle.sheet.specs.Refusals.{reported};

    // The record of `(rule 0 0 (none))`, which stands where a plate has no line.
    pub fn blank() -> Self
        ensures { text_of result ≡ ascii "(rule 0 0 (none))" }
    {
        let text = b"(rule 0 0 (none))";
        Entry {
            text: copied(text),
            len: text.len(),
            opening: 0,
            closing: 0,
            sets: Sets::new(Draft::new(), NOTHING),
        }
    }

    // The line that a text writes.
    pub fn read<A: Alphabet>(text: &[u8]) -> Result<Self, Refusal>
        ensures { MatchResult result (λ e. (text_of e ≡ text.now) × TextAccepted A.COUNT text.now) (λ f. TextRefused A.COUNT text.now (reported f)) }
    {
        if text.is_empty() || text.len() > MOST_BYTES {
            return Err(Refusal::LineSize);
        }
        let parsed = Parsed::read(text, A::COUNT)?;
        let sets = Sets::new(parsed.draft, parsed.part);
        // Stays: a match of both cases; with a `return` in between, a text that is refused filled whole records with 0, and taking `x` cost three times as much.
        match sets.clash() {
            Some((p, q)) => Err(Refusal::Clash { p, q }),
            None => Ok(Entry {
                text: copied(text),
                len: text.len(),
                opening: parsed.opening,
                closing: parsed.closing,
                sets,
            }),
        }
    }

    pub fn open(&self) -> u16
        ensures { (l : Line) → Means (text_of self.now) l → result ≡ l.open_code }
    {
        self.opening
    }

    pub fn close(&self) -> u16
        ensures { (l : Line) → Means (text_of self.now) l → result ≡ l.close_code }
    {
        self.closing
    }

    // The first set.
    // Stays: this and the next three hand on to the sets. Their contracts are over a line, these over its text, which is what a plate knows of it.
    pub fn first(&self) -> u64
        ensures { (l : Line) → Means (text_of self.now) l → result ≡ first_set l }
    {
        self.sets.first()
    }

    // Where a class leads from a set of positions.
    pub fn next(&self, set: u64, class: usize) -> u64
        ensures { (l : Line) → Means (text_of self.now) l → class < 256 → result ≡ move l set class }
    {
        self.sets.next(set, class)
    }

    // Whether a set has the end mark.
    pub fn accepts(&self, set: u64) -> bool
        ensures { (l : Line) → Means (text_of self.now) l → result ≡ has set (end_mark l) }
    {
        self.sets.accepts(set)
    }

    // The code of a class at a set of positions: that of the lowest position whose range holds the class, and 0 where there is none.
    pub fn code(&self, set: u64, class: usize) -> u16
        ensures { (l : Line) (p : ℕ) → Means (text_of self.now) l → class < 256 → Lowest l set class p → result ≡ (symbol_at l p).code }
    {
        self.sets.code(set, class)
    }
}

ghost use Rattle.std.specs.Prelude.{◌≡◌, ℕ, ◌<◌, ◌≤◌};
ghost use Rattle.meaning.specs.Alphabets.{Counted, byte_class, piece_class};
ghost use Rattle.std.proofs.Common.{rules};

use meaning::Piece;
use positions::MOST_LINES;

// A kind of symbol with `COUNT` classes, and a class below the count for each symbol.
pub trait Alphabet: Copy {
    const COUNT: usize;

    ghost COUNT: { ℕ };

    ghost classed: { Self → ℕ };

    // The count, as a call.
    fn classes() -> usize
        ensures { result ≡ COUNT }
    {
        Self::COUNT
    }

    fn class(&self) -> usize
        ensures value { result ≡ classed self.now }
        ensures below { result < COUNT };

    ghost counted: { Counted COUNT };
}

// Bytes: each is its own class.
impl Alphabet for u8 {
    const COUNT: usize = 256;

    ghost COUNT = { 256 };

    ghost classed = { byte_class };

    ghost counted = { Prim.search rules };

    fn class(&self) -> usize {
        usize::from(*self)
    }
}

// Pieces: the class of a piece is its line's number, and 8 for any higher one. So one plate cuts text into pieces, and another reads runs of them.
impl Alphabet for Piece {
    const COUNT: usize = 9;

    ghost COUNT = { 9 };

    ghost classed = { piece_class };

    ghost counted = { Prim.search rules };

    fn class(&self) -> usize {
        self.line.min(MOST_LINES)
    }
}

// Sets of positions as masks.
ghost use Rattle.std.specs.Prelude.{◌≡◌, ◌+◌, ◌<◌};
ghost use Rattle.std.specs.Iterator.{at_most};
ghost use Rattle.meaning.specs.Positions.{has as in_set};
ghost use Rattle.positions.specs.Masks.{Union};
ghost use Rattle.positions.specs.Taking.{TakesLowest};

use crate::limits::*;

// Whether a set has the position p + 1.
// Stays: `p < 64` here and where rows are added to; a type for it would be made and unmade at each use.
pub(crate) fn has(set: u64, p: usize) -> bool
    requires { p < 64 }
    ensures { result ≡ in_set set (p + 1) }
{
    (set >> p) & 1 == 1
}

// A set of positions; as an iterator it gives its lowest position, as the bit that it is, and takes it out.
#[derive(Clone, Copy)]
pub(crate) struct Positions(pub(crate) u64);

impl Iterator for Positions {
    type Item = usize;

    ghost next_gives = { TakesLowest };

    ghost remaining = { λ s. at_most s.0 };

    fn next(&mut self) -> Option<usize> {
        if self.0 == 0 {
            return None;
        }
        // Stays: `as`, since no `usize::from` takes a u32; the number is at most 64.
        let p = self.0.trailing_zeros() as usize;
        self.0 &= self.0 - 1;
        Some(p)
    }
}

// The union of what follows the positions of `set`.
pub(crate) fn union(follow: &[u64; MOST_POSITIONS], set: u64) -> u64
    ensures { Union follow.now set result }
{
    let mut all = 0;
    for p in Positions(set) {
        all |= follow[p];
    }
    all
}

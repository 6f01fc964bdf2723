ghost use Rattle.std.specs.Prelude.{◌≡◌, ◌+◌, ◌^◌, ◌<◌, [], ◌∷◌, ◌++◌, replicate, nat_le, slice_set};
ghost use Rattle.positions.specs.Masks.{held, Linked};

use crate::limits::*;
use crate::masks::has;
use crate::symbols::Symbols;
use meaning::Symbol;

// A line as far as it was read: its symbols, and for each position those that can follow it.
#[derive(Clone, Copy)]
pub struct Draft {
    pub(crate) symbols: Symbols,
    pub(crate) follow: [u64; MOST_POSITIONS],
}

impl Draft {
    pub fn new() -> Draft
        ensures count { result.symbols.len ≡ 0 }
        ensures follow { result.follow ≡ replicate 64 0 }
    {
        Draft {
            symbols: Symbols::new(),
            follow: [0; MOST_POSITIONS],
        }
    }

    // No further symbol has a position.
    pub fn is_full(&self) -> bool
        ensures { result ≡ nat_le 63 self.now.symbols.len }
    {
        self.symbols.is_full()
    }

    // One symbol more; answers the set of its position alone, which is empty where the draft is full.
    // Stays: 0, and no condition on the caller, which no public call has; the empty set is a set as any other, to which an `Option` would be unwrapped.
    pub fn add(&mut self, symbol: Symbol) -> u64
        ensures full { self.old.symbols.len ≡ 63 → (result ≡ 0) × (self.new ≡ self.old) }
        ensures position { self.old.symbols.len < 63 → result ≡ 2 ^ self.old.symbols.len }
        ensures count { self.old.symbols.len < 63 → self.new.symbols.len ≡ self.old.symbols.len + 1 }
        ensures symbols { self.old.symbols.len < 63 → self.new.symbols.array ≡ slice_set self.old.symbols.array self.old.symbols.len symbol }
        ensures taken { self.old.symbols.len < 63 → held self.new.symbols ≡ held self.old.symbols ++ symbol ∷ [] }
        ensures follow { self.new.follow ≡ self.old.follow }
    {
        if self.symbols.is_full() {
            return 0;
        }
        let at = self.symbols.len();
        self.symbols.push(symbol);
        1 << at
    }

    // The positions of `after` can follow those of `last`.
    pub fn link(&mut self, last: u64, after: u64)
        ensures count { self.new.symbols.len ≡ self.old.symbols.len }
        ensures symbols { self.new.symbols ≡ self.old.symbols }
        ensures follow { Linked self.old.follow last after self.new.follow }
    {
        for (p, row) in self.follow.iter_mut().enumerate() {
            if has(last, p) {
                *row |= after;
            }
        }
    }
}

ghost use Rattle.std.specs.Prelude.{◌≡◌, ◌≤◌, ◌↔◌, true};
ghost use Rattle.positions.specs.Ranges.{Shared, RangeMarked};

use crate::limits::*;
use meaning::Symbol;
use std::array;

// The symbols of a line, which stand in the first `len` places of the array.
// Stays: an array with its count. `Draft`, `Sets` and `Entry` are copied, as in `[Entry::blank(); MOST_LINES]`, which the kit's `ArrayVec` cannot be, and the engine has no heap for a `Vec`.
#[derive(Clone, Copy)]
pub(crate) struct Symbols {
    len: usize,
    array: [Symbol; MOST_SYMBOLS],
    ghost few: { len ≤ 63 },
}

impl Symbols {
    ghost use Rattle.std.specs.Prelude.{◌≡◌, ◌+◌, ◌<◌, ◌≤◌, length, slice_set, nat_le};
    ghost use Rattle.positions.specs.Masks.{held, Overlapping, ClassMasks};
    ghost use Rattle.positions.specs.Meets.{Beside, BesideAt};

    pub(crate) fn new() -> Symbols
        ensures { result.len ≡ 0 }
    {
        Symbols {
            len: 0,
            array: [Symbol::default(); MOST_SYMBOLS],
        }
    }

    pub(crate) fn len(&self) -> usize
        ensures { result ≡ self.now.len }
    {
        self.len
    }

    pub(crate) fn is_full(&self) -> bool
        ensures { result ≡ nat_le 63 self.now.len }
    {
        self.len >= MOST_SYMBOLS
    }

    pub(crate) fn push(&mut self, symbol: Symbol)
        requires { self.old.len < 63 }
        ensures len { self.new.len ≡ self.old.len + 1 }
        ensures array { self.new.array ≡ slice_set self.old.array self.old.len symbol }
    {
        self.array[self.len] = symbol;
        self.len += 1;
    }

    pub(crate) fn as_slice(&self) -> &[Symbol]
        ensures value { result.now ≡ held self.now }
        ensures len { length result.now ≡ self.now.len }
        ensures few { self.now.len ≤ 63 }
    {
        &self.array[..self.len]
    }

    // The positions whose ranges have a class from `low` to `high`.
    fn overlapping(&self, low: u16, high: u16) -> u64
        ensures { Overlapping (held self.now) low high result }
    {
        let mut set = 0;
        for (p, symbol) in self.as_slice().iter().enumerate() {
            if overlap(symbol, low, high) {
                set |= 1 << p;
            }
        }
        set
    }

    // For each class, the positions whose ranges hold it.
    pub(crate) fn class_masks(&self) -> [u64; MOST_CLASSES]
        ensures { ClassMasks (held self.now) result }
    {
        let mut masks = [0; MOST_CLASSES];
        for (p, symbol) in self.as_slice().iter().enumerate() {
            mark(&mut masks, symbol, 1 << p);
        }
        masks
    }

    // For each position, those whose ranges overlap its own.
    pub(crate) fn overlaps(&self) -> [u64; MOST_POSITIONS]
        ensures { Beside (held self.now) result }
    {
        array::from_fn(
            |p|
                requires { p < 64 }
                ensures { BesideAt (held self.entry.now) (p + 1) result }
            {
                match self.as_slice().get(p) {
                    Some(symbol) => self.overlapping(symbol.low, symbol.high),
                    None => 0,
                }
            },
        )
    }
}

// Some class from `low` to `high` lies in the symbol's range.
fn overlap(symbol: &Symbol, low: u16, high: u16) -> bool
    ensures { (result ≡ true) ↔ Shared low high symbol.now }
{
    let start = symbol.low.max(low);
    start <= symbol.high && start <= high
}

// Adds positions to the sets of the classes in the symbol's range.
// Stays: by index, over the classes of the range alone, since a walk over all of them for each symbol costs the more the narrower the ranges are. A part of the slice would have to be cut
// first, and the draft takes symbols whose ends are the wrong way round.
fn mark(masks: &mut [u64; MOST_CLASSES], symbol: &Symbol, positions: u64)
    ensures { RangeMarked symbol.now positions masks.old masks.new }
{
    let end = MOST_CLASSES.min(usize::from(symbol.high) + 1);
    for class in usize::from(symbol.low)..end {
        masks[class] |= positions;
    }
}

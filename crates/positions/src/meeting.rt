// Which positions meet, and the first two that meet with different codes.
ghost use Rattle.std.specs.Prelude.{◌+◌, ◌<◌};
ghost use Rattle.meaning.specs.Words.{Line};
ghost use Rattle.positions.specs.Of.{SetsOf, ClashFound};
ghost use Rattle.positions.specs.Meets.{Row, Block, Adds, Nothing, AllMeetings};

use crate::limits::*;
use crate::masks::{Positions, has, union};
use crate::sets::Sets;

// Positions that meet: bit q - 1 of row p - 1 says that p and q do. `rows` has the rows from which nothing was followed since they last grew.
#[derive(Clone, Copy)]
struct Meetings {
    known: [u64; MOST_POSITIONS],
    rows: Positions,
}

impl Meetings {
    fn none() -> Meetings
        ensures { Nothing result }
    {
        Meetings {
            known: [0; MOST_POSITIONS],
            rows: Positions(0),
        }
    }

    // p meets the positions of `set`.
    fn add(&mut self, p: usize, set: u64)
        requires { p < 64 }
        ensures { Adds (Row (p + 1) set) self.old self.new }
    {
        let all = self.known[p] | set;
        if all != self.known[p] {
            self.known[p] = all;
            self.rows.0 |= 1 << p;
        }
    }

    // Each position of `ps` meets those of `qs` whose ranges overlap its own.
    fn add_all(&mut self, ps: u64, qs: u64, beside: &[u64; MOST_POSITIONS])
        ensures { Adds (Block ps qs beside.now) self.old self.new }
    {
        for p in Positions(ps) {
            self.add(p, qs & beside[p]);
        }
    }
}

impl Sets {
    // All meetings, from those of the first set on.
    fn all_meetings(&self, beside: &[u64; MOST_POSITIONS]) -> [u64; MOST_POSITIONS]
        ensures { AllMeetings self.now.first self.now.follow beside.now result }
    {
        let mut all = Meetings::none();
        all.add_all(self.first, self.first, beside);
        // Stays: the rows become more while they are taken, so a `for` cannot walk over them.
        while let Some(p) = all.rows.next() {
            let next = union(&self.follow, all.known[p]);
            all.add_all(self.follow[p], next, beside);
        }
        all.known
    }

    // The meeting positions p < q of different codes, with the lowest p and then the lowest q.
    pub fn clash(&self) -> Option<(usize, usize)>
        ensures { (l : Line) → SetsOf l self.now → ClashFound l result }
    {
        let symbols = self.symbols.as_slice();
        let known = self.all_meetings(&self.symbols.overlaps());
        for (p, a) in symbols.iter().enumerate() {
            for (i, b) in symbols[p + 1..].iter().enumerate() {
                let q = p + 1 + i;
                if has(known[p], q) && a.code != b.code {
                    return Some((p + 1, q + 1));
                }
            }
        }
        None
    }
}

// Cells of lent memory.
ghost use Rattle.std.specs.Prelude.{◌≡◌, ◌*◌, ◌≤◌, length};
ghost use Rattle.meaning.specs.Runs.{cleared};

use positions::{MOST_LINES, MOST_STATES};

// Sets the cells that a plate uses to 0.
// Stays: two slices. A struct of both would be made from a plate's fields at each call, with clauses that its memory is the plate's; so the bounds on each stand here and in fill.rt.
pub(crate) fn clear(moves: &mut [u16], sets: &mut [u64], count: usize)
    requires moves { 64 * count ≤ length moves.old }
    requires sets { 512 ≤ length sets.old }
    ensures moves { moves.new ≡ cleared moves.old (64 * count) }
    ensures sets { sets.new ≡ cleared sets.old 512 }
{
    moves[..MOST_STATES * count].fill(0);
    sets[..MOST_STATES * MOST_LINES].fill(0);
}

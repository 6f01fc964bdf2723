ghost use Rattle.std.specs.Prelude.{◌≡◌, ◌*◌, ◌≤◌, true, length};
ghost use Rattle.plate.specs.Desks.{texts_of, is_built, accepts_of};
ghost use Rattle.plate.specs.Tables.{BuiltTable};

use crate::desk::Desk;

// A plate on lent memory: cell `s * count + c` of `moves` has the number of the state behind state s on class c, plus 1, or 0; cell `s * 8 + k` of `sets` has
// the position set of line k in state s.
// Stays: a cell is a number, 0 where no state follows: the lent memory has this format (docs/PLATES.md).
#[derive(Drop)]
pub struct Plate<'m> {
    pub(crate) moves: &'m mut [u16],
    pub(crate) sets: &'m mut [u64],
    pub(crate) desk: Desk,
    ghost cells: { 64 * desk.count ≤ length moves.now },
    ghost masks: { 1 ≤ desk.count → 512 ≤ length sets.now },
    ghost built: { is_built desk ≡ true → ∥ BuiltTable desk.count (texts_of desk) moves.now sets.now (accepts_of desk) ∥₁ },
}

ghost use Rattle.std.specs.Prelude.{◌≡◌, List, [], ◌∷◌, map};
ghost use Rattle.meaning.specs.Alphabets.{seen};
ghost use Rattle.meaning.specs.Runs.{Answer as Said, take_line, build_plate, play_extent, Kept};
ghost use Rattle.meaning.specs.Asked.{told};
ghost use Rattle.runs.specs.Asking.{reply_of};

use doers::Doer;
use plate::Plate;
use playing::play;
use runs::{Answer, Reply};
use sheet::Alphabet;

// Opens a plate on the lent memory, takes the line, builds, and plays the extent to the doer; a refused call does not keep the next from being made.
pub fn take_build_play<A: Alphabet, D: Doer>(
    moves: &mut [u16],
    sets: &mut [u64],
    doer: &mut D,
    line: &[u8],
    extent: &[A],
) -> [Answer; 3]
    ensures { (all : List Said) × Kept A.COUNT D.rule (D.state doer.old) moves.old sets.old (take_line line.now ∷ build_plate ∷ play_extent (seen A.classed extent.now) ∷ []) all moves.new sets.new (D.state doer.new) × (map told all ≡ map reply_of result) }
{
    let mut plate = Plate::open::<A>(moves, sets);
    let take = plate.take::<A>(line);
    let build = plate.build::<A>();
    let play = play(&plate, extent, doer);
    [
        take.map(Reply::Number),
        build.map(Reply::Number),
        play.map(Reply::from),
    ]
}

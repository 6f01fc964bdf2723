ghost use Rattle.std.specs.Prelude.{◌≡◌, ◌≤◌, min, List, map, length, drop, Err, ◌≢◌};
ghost use Rattle.meaning.specs.Alphabets.{seen};
ghost use Rattle.meaning.specs.Doers.{Given, Leads};
ghost use Rattle.meaning.specs.Runs.{Listed};
ghost use Rattle.meaning.specs.Asked.{ask_play, Ran};
ghost use Rattle.meaning.specs.declared.Piece.{Piece as Cell};
ghost use Rattle.plate.specs.Plates.{account, SameMemory};
ghost use Rattle.runs.specs.Asking.{cells_of, asked_of, reply_of, with_list, Made};

use crate::calling::{Answer, Call, Reply};
use doers::Doer;
use meaning::Piece;
use plate::Plate;
use playing::play;
use reading::read;
use sheet::{Alphabet, Refusal};

fn read_into<A: Alphabet>(plate: &Plate, extent: &[A], list: &mut [Piece]) -> Answer
    ensures away { (plate.now.desk.count ≢ A.COUNT) → (result ≡ Err Refusal.NotOpen) × (list.new ≡ list.old) }
    ensures heard { plate.now.desk.count ≡ A.COUNT → (h : List Given) → Listed (account plate.now h) (seen A.classed extent.now) list.old (with_list list.new result) }
{
    read(plate, extent, list).map(Reply::from)
}

fn play_to<A: Alphabet, D: Doer>(plate: &Plate, extent: &[A], doer: &mut D) -> Answer
    ensures { (first : D.State) (h : List Given) (list : List Cell) → Leads D.rule first h (D.state doer.old) → Made A.COUNT D.rule first plate.now.desk.count (account plate.now h) (ask_play (seen A.classed extent.now)) list (reply_of result) (account plate.now) list (D.state doer.new) }
{
    play(plate, extent, doer).map(Reply::from)
}

// Makes one call; a read writes into the list.
fn make<A: Alphabet, D: Doer>(
    plate: &mut Plate,
    doer: &mut D,
    call: &Call<'_, A>,
    list: &mut [Piece],
) -> Answer
    ensures made { (first : D.State) (h : List Given) → Leads D.rule first h (D.state doer.old) → Made A.COUNT D.rule first plate.old.desk.count (account plate.old h) (asked_of A.classed call.now) list.old (reply_of result) (account plate.new) list.new (D.state doer.new) }
    ensures counted { plate.new.desk.count ≡ plate.old.desk.count }
    ensures names { SameMemory plate.old plate.new }
{
    // Stays: no switch on steps but the list of the calls that the law is about.
    match *call {
        Call::Take(line) => plate.take::<A>(line).map(Reply::Number),
        Call::Strike => plate.strike::<A>().map(Reply::Number),
        Call::Build => plate.build::<A>().map(Reply::Number),
        Call::Read(extent, _) => read_into(plate, extent, list),
        Call::Play(extent) => play_to(plate, extent, doer),
    }
}

// How many cells of the lists a call takes of those that are left.
fn room<A>(call: &Call<'_, A>, left: usize) -> usize
    ensures value { result ≡ cells_of call.now left }
    ensures within { result ≤ left }
{
    match *call {
        Call::Read(_, room) => room.min(left),
        _ => 0,
    }
}

// Opens a plate on the lent memory and makes the calls on it and the doer, as many as there are cells for their answers. Each read takes the next part of
// `lists`. Answers how many calls were made.
pub fn run<A: Alphabet, D: Doer>(
    moves: &mut [u16],
    sets: &mut [u64],
    doer: &mut D,
    calls: &[Call<'_, A>],
    lists: &mut [Piece],
    answers: &mut [Answer],
) -> usize
    ensures law { Ran A.COUNT D.rule (D.state doer.old) moves.old sets.old (map (asked_of A.classed) calls.now) lists.old (map reply_of answers.old) moves.new sets.new (D.state doer.new) lists.new (map reply_of answers.new) }
    ensures made { result ≡ min (length calls.now) (length answers.old) }
    ensures answers { drop result answers.new ≡ drop result answers.old }
{
    let mut plate = Plate::open::<A>(moves, sets);
    let made = calls.len().min(answers.len());
    let mut used = 0;
    // Stays: an answer is written by its index, since after a loop over `calls.iter().zip(answers.iter_mut())` the proof knew none of the answers; and `used` is how many cells of `lists`
    // reads were given, which the law counts too.
    for (i, call) in calls[..made].iter().enumerate() {
        let end = used + room(call, lists.len() - used);
        answers[i] = make(&mut plate, doer, call, &mut lists[used..end]);
        used = end;
    }
    made
}

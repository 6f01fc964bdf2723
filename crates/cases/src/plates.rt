// Memory that is too small, shut plates, plates of another alphabet, and what is known of a table that no longer counts.
use crate::memory::{MOVES, PIECE_MOVES, SETS};
use plate::Plate;
use reading::{Piece, longest};
use sheet::Refusal;

const LINE: &[u8] = b"(rule 0 0 (sym 0 8 0))";

#[test]
fn memory(rt: HostRuntime) {
    assert_eq!(rt; [MOVES, PIECE_MOVES, SETS], [16384, 576, 512]);
    let moves = [0u16; MOVES];
    let sets = [0u64; SETS];
    let few_moves = &moves[..MOVES - 1];
    let few_sets = &sets[..SETS - 1];
    let piece_moves = &moves[..PIECE_MOVES];
    let few_piece_moves = &moves[..PIECE_MOVES - 1];
    assert_eq!(rt; Plate::check::<u8>(&moves, &sets), Ok(()));
    assert_eq!(rt;
        Plate::check::<u8>(few_moves, &sets),
        Err(Refusal::TooLittleMemory)
    );
    assert_eq!(rt;
        Plate::check::<u8>(&moves, few_sets),
        Err(Refusal::TooLittleMemory)
    );
    assert_eq!(rt; Plate::check::<Piece>(piece_moves, &sets), Ok(()));
    assert_eq!(rt;
        Plate::check::<Piece>(few_piece_moves, &sets),
        Err(Refusal::TooLittleMemory)
    );
}

#[test]
fn shut(rt: HostRuntime) {
    let mut moves = [1u16; MOVES - 1];
    let mut sets = [1u64; SETS];
    {
        let mut plate = Plate::open::<u8>(&mut moves, &mut sets);
        assert_eq!(rt; plate.take::<u8>(LINE), Err(Refusal::NotOpen));
        assert_eq!(rt; plate.strike::<u8>(), Err(Refusal::NotOpen));
        assert_eq!(rt; plate.build::<u8>(), Err(Refusal::NotOpen));
    }
    assert_eq!(rt; moves[0], 1);
    assert_eq!(rt; sets[0], 1);
}

#[test]
fn opened(rt: HostRuntime) {
    let mut moves = [1u16; PIECE_MOVES + 1];
    let mut sets = [1u64; SETS + 1];
    {
        let _plate = Plate::open::<Piece>(&mut moves, &mut sets);
    }
    assert!(rt; moves[..PIECE_MOVES].iter().all(|cell| *cell == 0));
    assert_eq!(rt; moves[PIECE_MOVES], 1);
    assert!(rt; sets[..SETS].iter().all(|cell| *cell == 0));
    assert_eq!(rt; sets[SETS], 1);
}

#[test]
fn other_alphabet(rt: HostRuntime) {
    let mut moves = [0u16; PIECE_MOVES];
    let mut sets = [0u64; SETS];
    let mut plate = Plate::open::<Piece>(&mut moves, &mut sets);
    assert_eq!(rt; plate.take::<u8>(LINE), Err(Refusal::NotOpen));
    assert_eq!(rt;
        plate.take::<Piece>(b"(rule 0 0 (sym 0 9 0))"),
        Err(Refusal::OutOfRange { byte: 18 })
    );
    assert_eq!(rt; plate.take::<Piece>(LINE), Ok(0));
    assert_eq!(rt; plate.build::<u8>(), Err(Refusal::NotOpen));
    assert_eq!(rt; plate.build::<Piece>(), Ok(2));
}

const A: &[u8] = b"(rule 0 0 (sym 97 97 0))";

const ABCD: &[u8] = b"(rule 0 0 (seq (sym 97 97 0) (sym 98 98 0) (sym 99 99 0) (sym 100 100 0)))";

// Where a plate is not built, and at states behind those of its table, the answers are those of the last table that had the state.
#[test]
fn last_table(rt: HostRuntime) {
    let one = Piece {
        line: 0,
        place: 0,
        len: 1,
    };
    let mut moves = [0u16; MOVES];
    let mut sets = [0u64; SETS];
    let mut plate = Plate::open::<u8>(&mut moves, &mut sets);
    assert_eq!(rt; plate.accepts(1), None);
    assert_eq!(rt; plate.take::<u8>(A), Ok(0));
    assert_eq!(rt; plate.build::<u8>(), Ok(2));
    assert_eq!(rt; plate.take::<u8>(A), Ok(1));
    assert_eq!(rt; plate.accepts(1), Some(0));
    assert_eq!(rt; longest(&plate, b"a", 0), Some(one));
    assert_eq!(rt; plate.strike::<u8>(), Ok(1));
    assert_eq!(rt; plate.accepts(1), Some(0));
    assert_eq!(rt; plate.strike::<u8>(), Ok(0));
    assert_eq!(rt; plate.take::<u8>(ABCD), Ok(0));
    assert_eq!(rt; plate.build::<u8>(), Ok(5));
    assert_eq!(rt; plate.accepts(4), Some(0));
    assert_eq!(rt; plate.strike::<u8>(), Ok(0));
    assert_eq!(rt; plate.take::<u8>(A), Ok(0));
    assert_eq!(rt; plate.build::<u8>(), Ok(2));
    assert_eq!(rt; plate.accepts(4), Some(0));
}

// The call test, and pieces as the symbols of a second plate.
use crate::memory::{MOVES, PIECE_MOVES, SETS};
use plate::Plate;
use reading::{Piece, read, test};
use sheet::Refusal;
use std::test::Fail;

// A line's number, an extent, how many code cells, the answer, and the cells then.
struct Case {
    line: usize,
    extent: &'static [u8],
    room: usize,
    answer: Result<bool, Refusal>,
    codes: [u16; 5],
}

static CASES: [Case; 9] = [
    Case {
        line: 1,
        extent: b"03",
        room: 5,
        answer: Ok(true),
        codes: [0, 4, 5, 0, 9],
    },
    Case {
        line: 0,
        extent: b"03",
        room: 5,
        answer: Ok(false),
        codes: [9, 9, 9, 9, 9],
    },
    Case {
        line: 0,
        extent: b"02",
        room: 4,
        answer: Ok(true),
        codes: [0, 1, 3, 0, 9],
    },
    Case {
        line: 0,
        extent: b"02",
        room: 3,
        answer: Err(Refusal::TooFewCodeCells),
        codes: [9, 9, 9, 9, 9],
    },
    Case {
        line: 0,
        extent: b"xx",
        room: 3,
        answer: Err(Refusal::TooFewCodeCells),
        codes: [9, 9, 9, 9, 9],
    },
    Case {
        line: 2,
        extent: b"",
        room: 2,
        answer: Ok(true),
        codes: [3, 8, 9, 9, 9],
    },
    Case {
        line: 2,
        extent: b"xxx",
        room: 5,
        answer: Ok(true),
        codes: [3, 6, 6, 6, 8],
    },
    Case {
        line: 3,
        extent: b"",
        room: 5,
        answer: Err(Refusal::NoSuchLine),
        codes: [9, 9, 9, 9, 9],
    },
    Case {
        line: 3,
        extent: b"",
        room: 0,
        answer: Err(Refusal::NoSuchLine),
        codes: [9, 9, 9, 9, 9],
    },
];

fn tested(case: &Case, codes: &mut [u16]) -> Result<bool, Refusal> {
    let mut moves = [0u16; MOVES];
    let mut sets = [0u64; SETS];
    let mut plate = Plate::open::<u8>(&mut moves, &mut sets);
    plate.take::<u8>(
        b"(rule 0 0 (alt (seq (sym 48 48 1) (sym 49 49 2)) (seq (sym 48 48 1) (sym 50 50 3))))",
    )?;
    plate.take::<u8>(b"(rule 0 0 (seq (sym 48 48 4) (sym 51 51 5)))")?;
    plate.take::<u8>(b"(rule 3 8 (star (sym 120 120 6)))")?;
    plate.build::<u8>()?;
    let room = case.room.min(codes.len());
    test(&plate, case.line, case.extent, &mut codes[..room])
}

#[test]
fn tests(rt: HostRuntime) {
    for case in &CASES {
        let mut codes = [9u16; 5];
        assert_eq!(rt; tested(case, &mut codes), case.answer);
        assert_eq!(rt; codes, case.codes);
    }
}

#[test]
fn refused_tests(rt: HostRuntime) -> Result<(), Fail> {
    let extent = b"1".repeat(rt.alloc(), 32769)?;
    let mut codes = [9u16; 2];
    let mut moves = [0u16; MOVES];
    let mut sets = [0u64; SETS];
    let mut plate = Plate::open::<u8>(&mut moves, &mut sets);
    assert_eq!(rt;
        test(&plate, 0, &extent, &mut codes),
        Err(Refusal::NotBuilt)
    );
    plate.take::<u8>(b"(rule 0 0 (star (sym 49 49 0)))")?;
    plate.build::<u8>()?;
    assert_eq!(rt;
        test(&plate, 7, &extent, &mut codes),
        Err(Refusal::ExtentTooLong)
    );
    assert_eq!(rt;
        test::<Piece>(&plate, 7, &[], &mut codes),
        Err(Refusal::NotOpen)
    );
    Ok(())
}

// what a cell of a list holds that no read wrote
// Stays: a piece and no `None`, since the lists that `read` is lent are of pieces.
const NOTHING: Piece = Piece {
    line: 99,
    place: 99,
    len: 99,
};

// Reads an order as a run of pieces: number, separator, number. Answers how many orders are listed.
fn orders(text: &[Piece], list: &mut [Piece]) -> Result<usize, Refusal> {
    let mut moves = [0u16; PIECE_MOVES];
    let mut sets = [0u64; SETS];
    let mut plate = Plate::open::<Piece>(&mut moves, &mut sets);
    plate.take::<Piece>(b"(rule 1 2 (seq (sym 0 0 3) (sym 1 1 4) (sym 0 0 5)))")?;
    plate.build::<Piece>()?;
    let (pieces, _, _) = read(&plate, text, list)?;
    Ok(pieces)
}

#[test]
fn pieces_as_symbols(rt: HostRuntime) {
    let text = [
        Piece {
            line: 0,
            place: 0,
            len: 3,
        },
        Piece {
            line: 1,
            place: 3,
            len: 1,
        },
        Piece {
            line: 0,
            place: 4,
            len: 2,
        },
        Piece {
            line: 9,
            place: 6,
            len: 1,
        },
    ];
    let mut list = [NOTHING; 2];
    assert_eq!(rt; orders(&text, &mut list), Ok(1));
    let order = Piece {
        line: 0,
        place: 0,
        len: 3,
    };
    assert_eq!(rt; list, [order, NOTHING]);
}

// Lines that are taken, and lines that are refused, with the byte or the positions named.
use crate::memory::{MOVES, SETS};
use plate::Plate;
use sheet::Refusal;
use std::alloc::{AllocError, Global};
use std::test::Fail;

fn taken(line: &[u8]) -> Result<usize, Refusal> {
    let mut moves = [0u16; MOVES];
    let mut sets = [0u64; SETS];
    Plate::open::<u8>(&mut moves, &mut sets).take::<u8>(line)
}

// `head`, then `part` n times, then `tail`.
fn repeated(
    heap: Global,
    head: &str,
    part: &str,
    n: usize,
    tail: &str,
) -> Result<String, AllocError> {
    let parts = part.repeat(heap, n)?;
    format!(in heap; "{head}{parts}{tail}")
}

// A line, and what taking it answers.
struct Case {
    line: &'static [u8],
    answer: Result<usize, Refusal>,
}

static CASES: [Case; 33] = [
    Case {
        line: b"",
        answer: Err(Refusal::LineSize),
    },
    Case {
        line: b"(rule 0 0 (none))",
        answer: Ok(0),
    },
    Case {
        line: b"(rule 0 0 (sym 48 047 1))",
        answer: Err(Refusal::BadForm { byte: 19 }),
    },
    Case {
        line: b"(rule 00 0 (none))",
        answer: Err(Refusal::BadForm { byte: 7 }),
    },
    Case {
        line: b"(rule 123456 0 (none))",
        answer: Err(Refusal::BadForm { byte: 11 }),
    },
    Case {
        line: b"(rule 0  0 (none))",
        answer: Err(Refusal::BadForm { byte: 8 }),
    },
    Case {
        line: b"(rule 0 0 (seq))",
        answer: Err(Refusal::BadForm { byte: 14 }),
    },
    Case {
        line: b"(rule 0 0 (alt ))",
        answer: Err(Refusal::BadForm { byte: 15 }),
    },
    Case {
        line: b"(rule 0 0 (none)",
        answer: Err(Refusal::BadForm { byte: 16 }),
    },
    Case {
        line: b"(rule 0 0 (none)) ",
        answer: Err(Refusal::BadForm { byte: 17 }),
    },
    Case {
        line: b"(rule 0 0 (sum 1 2 3))",
        answer: Err(Refusal::BadForm { byte: 12 }),
    },
    Case {
        line: b"(Rule 0 0 (none))",
        answer: Err(Refusal::BadForm { byte: 1 }),
    },
    Case {
        line: b"(rule 0 0 (star (none) (none)))",
        answer: Err(Refusal::BadForm { byte: 22 }),
    },
    Case {
        line: b"(rule 65535 65535 (sym 0 255 65535))",
        answer: Ok(0),
    },
    Case {
        line: b"(rule 65536 0 (none))",
        answer: Err(Refusal::OutOfRange { byte: 11 }),
    },
    Case {
        line: b"(rule 0 65536 (none))",
        answer: Err(Refusal::OutOfRange { byte: 13 }),
    },
    Case {
        line: b"(rule 0 0 (sym 0 0 65536))",
        answer: Err(Refusal::OutOfRange { byte: 24 }),
    },
    Case {
        line: b"(rule 0 0 (sym 256 256 0))",
        answer: Err(Refusal::OutOfRange { byte: 18 }),
    },
    Case {
        line: b"(rule 0 0 (sym 0 256 0))",
        answer: Err(Refusal::OutOfRange { byte: 20 }),
    },
    Case {
        line: b"(rule 0 0 (sym 57 57 1))",
        answer: Ok(0),
    },
    Case {
        line: b"(rule 0 0 (sym 57 48 1))",
        answer: Err(Refusal::OutOfRange { byte: 20 }),
    },
    // a wrong byte behind a number that is out of range is bad form
    Case {
        line: b"(rule 0 0 (sym 57 48)1))",
        answer: Err(Refusal::BadForm { byte: 20 }),
    },
    Case {
        line: b"(rule 0 0 (alt (seq (sym 48 48 1) (sym 49 49 2)) (seq (sym 48 48 1) (sym 50 50 3)) (seq (sym 48 48 4) (sym 51 51 5))))",
        answer: Err(Refusal::Clash { p: 1, q: 5 }),
    },
    Case {
        line: b"(rule 0 0 (alt (seq (sym 48 48 1) (sym 49 49 2)) (seq (sym 48 48 1) (sym 50 50 3)) (seq (sym 48 48 1) (sym 51 51 5))))",
        answer: Ok(0),
    },
    Case {
        line: b"(rule 7 7 (seq (star (alt (sym 97 97 7) (sym 98 98 7))) (sym 97 97 7) (sym 98 98 7) (sym 98 98 7)))",
        answer: Ok(0),
    },
    Case {
        line: b"(rule 7 7 (seq (star (alt (sym 97 97 7) (sym 98 98 7))) (sym 97 97 7) (sym 98 98 7) (sym 98 98 8)))",
        answer: Err(Refusal::Clash { p: 2, q: 5 }),
    },
    Case {
        line: b"(rule 0 0 (alt (sym 48 57 1) (sym 57 60 2)))",
        answer: Err(Refusal::Clash { p: 1, q: 2 }),
    },
    Case {
        line: b"(rule 0 0 (alt (sym 48 56 1) (sym 57 60 2)))",
        answer: Ok(0),
    },
    // the middle of the first seq has the empty word
    Case {
        line: b"(rule 0 0 (alt (seq (sym 1 1 0) (star (sym 2 2 0)) (sym 3 3 0)) (seq (sym 1 1 0) (sym 3 3 9))))",
        answer: Err(Refusal::Clash { p: 3, q: 5 }),
    },
    // a star's last position comes before its first
    Case {
        line: b"(rule 0 0 (star (alt (seq (sym 1 1 0) (sym 2 2 0)) (seq (sym 1 1 0) (sym 2 2 4)))))",
        answer: Err(Refusal::Clash { p: 2, q: 4 }),
    },
    Case {
        line: b"(rule 0 0 (seq (star (sym 1 1 0)) (sym 1 1 4)))",
        answer: Err(Refusal::Clash { p: 1, q: 2 }),
    },
    Case {
        line: b"(rule 0 0 (seq (sym 1 1 0) (sym 1 1 4)))",
        answer: Ok(0),
    },
    Case {
        line: b"(rule 0 0 (sym 0 0 0)",
        answer: Err(Refusal::BadForm { byte: 21 }),
    },
];

#[test]
fn cases(rt: HostRuntime) {
    for case in &CASES {
        assert_eq!(rt; taken(case.line), case.answer);
    }
}

#[test]
fn sizes(rt: HostRuntime) -> Result<(), Fail> {
    // 144 forms make a line of 1,024 bytes, and a second digit one of 1,025
    let longest = repeated(rt.alloc(), "(rule 0 0 (seq (none)", " (none)", 143, "))")?;
    assert_eq!(rt; longest.len(), 1024);
    assert_eq!(rt; taken(longest.as_bytes()), Ok(0));
    let longer = repeated(rt.alloc(), "(rule 10 0 (seq (none)", " (none)", 143, "))")?;
    assert_eq!(rt; taken(longer.as_bytes()), Err(Refusal::LineSize));
    Ok(())
}

#[test]
fn levels(rt: HostRuntime) -> Result<(), Fail> {
    let fourteen = repeated(
        rt.alloc(),
        "(rule 0 0 ",
        "(star ",
        14,
        "(sym 48 48 1))))))))))))))))",
    )?;
    assert_eq!(rt; taken(fourteen.as_bytes()), Ok(0));
    let fifteen = repeated(
        rt.alloc(),
        "(rule 0 0 ",
        "(star ",
        15,
        "(sym 48 48 1)))))))))))))))))",
    )?;
    assert_eq!(rt;
        taken(fifteen.as_bytes()),
        Err(Refusal::TooDeep { byte: 100 })
    );
    Ok(())
}

#[test]
fn symbols(rt: HostRuntime) -> Result<(), Fail> {
    let full = repeated(
        rt.alloc(),
        "(rule 0 0 (seq (sym 0 0 0)",
        " (sym 0 0 0)",
        62,
        "))",
    )?;
    assert_eq!(rt; taken(full.as_bytes()), Ok(0));
    let more = repeated(
        rt.alloc(),
        "(rule 0 0 (seq (sym 0 0 0)",
        " (sym 0 0 0)",
        63,
        "))",
    )?;
    assert_eq!(rt;
        taken(more.as_bytes()),
        Err(Refusal::TooManySymbols { byte: 774 })
    );
    Ok(())
}

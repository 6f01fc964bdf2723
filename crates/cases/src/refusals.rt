// What refusals and the reasons for an end are to programs: numbers, and the text that is printed.
use reading::Why;
use sheet::Refusal;
use std::test::Fail;

// A refusal, its number, layer and details, and how it is printed.
struct Case {
    refusal: Refusal,
    number: u8,
    layer: u8,
    details: (usize, usize),
    printed: &'static str,
}

static CASES: [Case; 15] = [
    Case {
        refusal: Refusal::LineSize,
        number: 1,
        layer: 1,
        details: (0, 0),
        printed: "1 1 0 0",
    },
    Case {
        refusal: Refusal::BadForm { byte: 1023 },
        number: 2,
        layer: 1,
        details: (1023, 0),
        printed: "2 1 1023 0",
    },
    Case {
        refusal: Refusal::TooDeep { byte: 100 },
        number: 3,
        layer: 1,
        details: (100, 0),
        printed: "3 1 100 0",
    },
    Case {
        refusal: Refusal::OutOfRange { byte: 18 },
        number: 4,
        layer: 1,
        details: (18, 0),
        printed: "4 1 18 0",
    },
    Case {
        refusal: Refusal::TooManySymbols { byte: 774 },
        number: 5,
        layer: 1,
        details: (774, 0),
        printed: "5 1 774 0",
    },
    Case {
        refusal: Refusal::Clash { p: 2, q: 63 },
        number: 6,
        layer: 2,
        details: (2, 63),
        printed: "6 2 2 63",
    },
    Case {
        refusal: Refusal::TooLittleMemory,
        number: 7,
        layer: 3,
        details: (0, 0),
        printed: "7 3 0 0",
    },
    Case {
        refusal: Refusal::ExtentTooLong,
        number: 8,
        layer: 4,
        details: (0, 0),
        printed: "8 4 0 0",
    },
    Case {
        refusal: Refusal::NoSuchLine,
        number: 9,
        layer: 4,
        details: (0, 0),
        printed: "9 4 0 0",
    },
    Case {
        refusal: Refusal::TooFewCodeCells,
        number: 10,
        layer: 4,
        details: (0, 0),
        printed: "10 4 0 0",
    },
    Case {
        refusal: Refusal::EightLines,
        number: 21,
        layer: 3,
        details: (0, 0),
        printed: "21 3 0 0",
    },
    Case {
        refusal: Refusal::NoLine,
        number: 22,
        layer: 3,
        details: (0, 0),
        printed: "22 3 0 0",
    },
    Case {
        refusal: Refusal::TooManyStates,
        number: 23,
        layer: 3,
        details: (0, 0),
        printed: "23 3 0 0",
    },
    Case {
        refusal: Refusal::NotBuilt,
        number: 24,
        layer: 3,
        details: (0, 0),
        printed: "24 3 0 0",
    },
    Case {
        refusal: Refusal::NotOpen,
        number: 25,
        layer: 3,
        details: (0, 0),
        printed: "25 3 0 0",
    },
];

#[test]
fn refusals(rt: HostRuntime) -> Result<(), Fail> {
    for case in &CASES {
        let refusal = case.refusal;
        assert_eq!(rt; refusal.number(), case.number);
        assert_eq!(rt; refusal.layer(), case.layer);
        assert_eq!(rt; refusal.details(), case.details);
        assert_eq!(rt; refusal.to_string(rt.alloc())?.as_str(), case.printed);
    }
    Ok(())
}

// A reason, its number, and how it is printed.
static WHYS: [(Why, u8, &str); 4] = [
    (Why::End, 0, "0"),
    (Why::NoPiece, 1, "1"),
    (Why::ListFull, 2, "2"),
    (Why::TurnedAway, 3, "3"),
];

#[test]
fn whys(rt: HostRuntime) -> Result<(), Fail> {
    for (why, number, printed) in &WHYS {
        assert_eq!(rt; why.number(), *number);
        assert_eq!(rt; why.to_string(rt.alloc())?.as_str(), *printed);
    }
    Ok(())
}

// The order slip and the tape, code by code.
use doers::{Doer, Slip, Tape};

// A code, its mark, and whether the slip takes it.
struct Case {
    code: u16,
    mark: u16,
    taken: bool,
}

static CASES: [Case; 20] = [
    Case {
        code: 0,
        mark: 65535,
        taken: true,
    },
    Case {
        code: 32,
        mark: 47,
        taken: false,
    },
    Case {
        code: 32,
        mark: 48,
        taken: true,
    },
    Case {
        code: 32,
        mark: 57,
        taken: true,
    },
    Case {
        code: 32,
        mark: 58,
        taken: false,
    },
    Case {
        code: 39,
        mark: 53,
        taken: true,
    },
    Case {
        code: 40,
        mark: 53,
        taken: false,
    },
    Case {
        code: 31,
        mark: 53,
        taken: false,
    },
    Case {
        code: 15,
        mark: 0,
        taken: false,
    },
    Case {
        code: 16,
        mark: 0,
        taken: true,
    },
    Case {
        code: 23,
        mark: 0,
        taken: true,
    },
    Case {
        code: 24,
        mark: 0,
        taken: false,
    },
    Case {
        code: 47,
        mark: 48,
        taken: false,
    },
    Case {
        code: 48,
        mark: 0,
        taken: true,
    },
    Case {
        code: 48,
        mark: 65535,
        taken: true,
    },
    Case {
        code: 55,
        mark: 0,
        taken: true,
    },
    Case {
        code: 56,
        mark: 0,
        taken: false,
    },
    Case {
        code: 1,
        mark: 0,
        taken: false,
    },
    Case {
        code: 65535,
        mark: 48,
        taken: false,
    },
    Case {
        code: 32,
        mark: 65535,
        taken: false,
    },
];

#[test]
fn slip(rt: HostRuntime) {
    let mut slip = Slip::new();
    for case in &CASES {
        assert_eq!(rt; slip.give(case.code, case.mark), case.taken);
    }
    assert_eq!(rt; slip.register(0), Some(2));
    assert_eq!(rt; slip.register(7), Some(1));
    assert_eq!(rt; slip.register(8), None);
}

#[test]
fn largest_register(rt: HostRuntime) {
    let mut slip = Slip::new();
    for _ in 0..12 {
        assert!(rt; slip.give(35, 57));
    }
    assert_eq!(rt; slip.register(3), Some(999_999_999_999));
    assert!(rt; !slip.give(35, 48));
    assert!(rt; !slip.give(51, 0));
    assert_eq!(rt; slip.register(3), Some(999_999_999_999));
}

#[test]
fn tape(rt: HostRuntime) {
    let mut cells = [7u16; 2];
    {
        let mut tape = Tape::new(&mut cells);
        assert!(rt; tape.give(65535, 1));
        assert!(rt; tape.give(0, 2));
        assert!(rt; !tape.give(5, 3));
        assert_eq!(rt; tape.held(), 2);
    }
    assert_eq!(rt; cells, [65535, 0]);
}

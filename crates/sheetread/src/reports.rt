// What the program prints for inputs that its stored run does not have.
use crate::report::report;
use std::alloc::Global;
use std::test::Fail;

// An input and what is printed for it.
struct Case {
    input: &'static [u8],
    printed: &'static str,
}

static CASES: [Case; 11] = [
    Case {
        input: b"",
        printed: "refused 0 22 3 0 0\n",
    },
    Case {
        input: b"\n250",
        printed: "refused 0 22 3 0 0\n",
    },
    Case {
        input: b"(rule 0 0 (sym 48 57 1))",
        printed: "end 0 0\n",
    },
    Case {
        input: b"(rule 0 0 (sym 48 57 1))\n",
        printed: "end 0 0\n",
    },
    Case {
        input: b"(rule 0 0 (sym 48 57 1))\n\n7",
        printed: "piece 0 0 1 0 1 0\nend 1 0\n",
    },
    Case {
        input: b"(rule 0 0 (sym 48 57 1))\n\n7\n",
        printed: "piece 0 0 1 0 1 0\nend 1 1\n",
    },
    Case {
        input: b"(rule 0 0 (sym 48 57 1))\n\n\n7",
        printed: "end 0 1\n",
    },
    Case {
        input: b"(rule 0 0 (sym 48 57 1))\n(rule 0 0 (sym 48 047 1))\n\n7",
        printed: "refused 1 2 1 19 0\n",
    },
    Case {
        input: b"(rule 0 0 (alt (sym 48 57 1) (sym 57 60 2)))\n\n7",
        printed: "refused 0 6 2 1 2\n",
    },
    Case {
        input: b"(rule 0 0 (none))\r\n\n",
        printed: "refused 0 2 1 17 0\n",
    },
    Case {
        input: b"(rule 0 0 (none))\n(rule 0 0 (none))\n(rule 0 0 (none))\n(rule 0 0 (none))\n(rule 0 0 (none))\n(rule 0 0 (none))\n(rule 0 0 (none))\n(rule 0 0 (none))\nx\n\n",
        printed: "refused 8 21 3 0 0\n",
    },
];

#[test]
fn cases(rt: HostRuntime) -> Result<(), Fail> {
    for case in &CASES {
        let printed = report(rt.alloc(), case.input)?;
        assert_eq!(rt; printed.as_str(), case.printed);
    }
    Ok(())
}

// What is printed for a sheet of one line, and an extent of n digits 1.
fn digits(heap: Global, line: &str, n: usize) -> Result<String, Fail> {
    let digits = "1".repeat(heap, n)?;
    let input = format!(in heap; "{line}{digits}")?;
    Ok(report(heap, input.as_bytes())?)
}

const NUMBER: &str = "(rule 0 0 (star (sym 49 49 1)))\n\n";

const DIGIT: &str = "(rule 0 0 (sym 49 49 1))\n\n";

#[test]
fn long_extents(rt: HostRuntime) -> Result<(), Fail> {
    assert!(rt;
        digits(rt.alloc(), NUMBER, 32768)?
            .as_str()
            .ends_with("\nend 32768 0\n")
    );
    assert_eq!(rt;
        digits(rt.alloc(), NUMBER, 32769)?.as_str(),
        "refused 1 8 4 0 0\n"
    );
    Ok(())
}

#[test]
fn full_list(rt: HostRuntime) -> Result<(), Fail> {
    assert!(rt;
        digits(rt.alloc(), DIGIT, 2048)?
            .as_str()
            .ends_with("\nend 2048 0\n")
    );
    assert!(rt;
        digits(rt.alloc(), DIGIT, 2049)?
            .as_str()
            .ends_with("piece 0 2047 1 0 1 0\nend 2048 2\n")
    );
    Ok(())
}

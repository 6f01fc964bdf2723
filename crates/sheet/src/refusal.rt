ghost use Rattle.std.specs.Prelude.{◌≡◌};
ghost use Rattle.sheet.specs.Refusals.{reported};

use std::fmt;

// Why a call is refused. Each case has a number, a layer and two details; `specs/Refusals.antt` says which.
#[derive(Clone, Copy, PartialEq, Eq, Debug)]
pub enum Refusal {
    LineSize,
    BadForm { byte: usize },
    TooDeep { byte: usize },
    OutOfRange { byte: usize },
    TooManySymbols { byte: usize },
    Clash { p: usize, q: usize },
    TooLittleMemory,
    ExtentTooLong,
    NoSuchLine,
    TooFewCodeCells,
    EightLines,
    NoLine,
    TooManyStates,
    NotBuilt,
    NotOpen,
}

impl Refusal {
    // Stays: number, layer and details, here and in the next two, are what users and programs are told (docs/REFUSALS.md); no derive gives them.
    pub fn number(&self) -> u8
        ensures { result ≡ (reported self.now).number }
    {
        match self {
            Self::LineSize => 1,
            Self::BadForm { .. } => 2,
            Self::TooDeep { .. } => 3,
            Self::OutOfRange { .. } => 4,
            Self::TooManySymbols { .. } => 5,
            Self::Clash { .. } => 6,
            Self::TooLittleMemory => 7,
            Self::ExtentTooLong => 8,
            Self::NoSuchLine => 9,
            Self::TooFewCodeCells => 10,
            Self::EightLines => 21,
            Self::NoLine => 22,
            Self::TooManyStates => 23,
            Self::NotBuilt => 24,
            Self::NotOpen => 25,
        }
    }

    // text 1, expression 2, plate 3, run 4
    pub fn layer(&self) -> u8
        ensures { result ≡ (reported self.now).layer }
    {
        match self {
            Self::LineSize
            | Self::BadForm { .. }
            | Self::TooDeep { .. }
            | Self::OutOfRange { .. }
            | Self::TooManySymbols { .. } => 1,
            Self::Clash { .. } => 2,
            Self::ExtentTooLong | Self::NoSuchLine | Self::TooFewCodeCells => 4,
            _ => 3,
        }
    }

    pub fn details(&self) -> (usize, usize)
        ensures first { result.0 ≡ (reported self.now).one }
        ensures second { result.1 ≡ (reported self.now).two }
    {
        match *self {
            Self::BadForm { byte }
            | Self::TooDeep { byte }
            | Self::OutOfRange { byte }
            | Self::TooManySymbols { byte } => (byte, 0),
            Self::Clash { p, q } => (p, q),
            _ => (0, 0),
        }
    }
}

// Number, layer and the two details, as programs print a refusal.
impl fmt::Display for Refusal {
    ghost use Rattle.std.specs.Prelude.{Some};
    ghost use Rattle.meaning.specs.Printed.{refusal_text};

    ghost output = { λ f. Some (refusal_text (reported f)) };

    fn fmt<W: fmt::Write>(&self, f: &mut fmt::Formatter<W>) -> fmt::Result {
        let (one, two) = self.details();
        write!(f, "{} {} {one} {two}", self.number(), self.layer())
    }
}

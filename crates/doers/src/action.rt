ghost use Rattle.doers.specs.Action.{Decodes};

// The codes of the actions. An action at a register has a code for each register, from the first to the last.
const KEEP: u16 = 0;

const FIRST_CLEAR: u16 = 16;

const LAST_CLEAR: u16 = 23;

const FIRST_APPEND: u16 = 32;

const LAST_APPEND: u16 = 39;

const FIRST_COUNT: u16 = 48;

const LAST_COUNT: u16 = 55;

// What a code asks of the slip: to keep its registers, or to clear one, to append the mark's digit to it or to count it up.
#[derive(Clone, Copy, Debug, PartialEq, Eq)]
pub(crate) enum Action {
    Keep,
    Clear(usize),
    Append(usize),
    Count(usize),
}

// A code that asks for no action.
#[derive(Clone, Copy, Debug, PartialEq, Eq)]
pub(crate) struct UnknownCode(pub(crate) u16);

impl TryFrom<u16> for Action {
    type Error = UnknownCode;

    ghost try_from_gives = { Decodes };

    fn try_from(code: u16) -> Result<Self, UnknownCode> {
        match code {
            KEEP => Ok(Action::Keep),
            FIRST_CLEAR..=LAST_CLEAR => Ok(Action::Clear(usize::from(code - FIRST_CLEAR))),
            FIRST_APPEND..=LAST_APPEND => Ok(Action::Append(usize::from(code - FIRST_APPEND))),
            FIRST_COUNT..=LAST_COUNT => Ok(Action::Count(usize::from(code - FIRST_COUNT))),
            _ => Err(UnknownCode(code)),
        }
    }
}

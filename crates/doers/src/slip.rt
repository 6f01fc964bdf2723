ghost use Rattle.std.specs.Prelude.{◌≡◌, ℕ, ◌+◌, ◌<◌, ◌≤◌, ◌⊎◌, List, All, if◌then◌else◌, MatchOption, Some, None, nat_le, nat_lt, slice_index, slice_set};
ghost use Rattle.std.proofs.Props.{props};
ghost use Rattle.meaning.specs.Bounds.{lowest_digit, highest_digit, most_registers, most_register};
ghost use Rattle.meaning.specs.Doers.{slip_rule, slip_first};

use crate::action::Action;
use crate::doer::Doer;

const REGISTERS: usize = 8;

const MOST_REGISTER: u64 = 999_999_999_999;

// the marks of the digits 0 and 9
const FIRST_DIGIT: u16 = 48;

const LAST_DIGIT: u16 = 57;

// An order slip: eight registers of at most twelve digits.
#[derive(Clone, Copy, Debug, PartialEq, Eq)]
pub struct Slip {
    registers: [u64; REGISTERS],
    ghost small: { All (λ n. n ≤ most_register) registers } by { Prim.hlevel props },
}

impl Slip {
    // All registers 0.
    pub fn new() -> Slip
        ensures { result.registers ≡ slip_first }
    {
        Slip {
            registers: [0; REGISTERS],
        }
    }

    // The registers, in order.
    pub fn registers(&self) -> &[u64]
        ensures { result.now ≡ self.now.registers }
    {
        &self.registers
    }

    // A register, if it is one of the eight.
    pub fn register(&self, r: usize) -> Option<u64>
        ensures { result ≡ (if nat_lt r most_registers then Some (slice_index self.now.registers r) else None) }
    {
        self.registers.get(r).copied()
    }

    // Sets a register unless the value is too large for it.
    // Stays: a bool, since `give` answers one; an Option would only be turned into it at each call.
    fn put(&mut self, r: usize, value: u64) -> bool
        requires { r < most_registers }
        ensures taken { result ≡ nat_le value most_register }
        ensures registers { self.new.registers ≡ (if result then slice_set self.old.registers r value else self.old.registers) }
    {
        if value > MOST_REGISTER {
            return false;
        }
        self.registers[r] = value;
        true
    }
}

// The digit whose byte the mark is.
// Stays: by its two bounds, as docs/DOERS.md has them, and not by `to_digit` of a char, which a mark is not.
fn digit(mark: u16) -> Option<u64>
    ensures { MatchOption result (mark < lowest_digit ⊎ highest_digit < mark) (λ digit. (digit < 10) × (mark ≡ lowest_digit + digit)) }
{
    match mark {
        FIRST_DIGIT..=LAST_DIGIT => Some(u64::from(mark - FIRST_DIGIT)),
        _ => None,
    }
}

impl Doer for Slip {
    ghost State = { List ℕ };

    ghost state = { λ s. s.registers };

    ghost rule = { slip_rule };

    fn give(&mut self, code: u16, mark: u16) -> bool {
        match Action::try_from(code) {
            Ok(Action::Keep) => true,
            Ok(Action::Clear(r)) => self.put(r, 0),
            Ok(Action::Append(r)) => match digit(mark) {
                Some(digit) => self.put(r, self.registers[r] * 10 + digit),
                None => false,
            },
            Ok(Action::Count(r)) => self.put(r, self.registers[r] + 1),
            Err(_) => false,
        }
    }
}

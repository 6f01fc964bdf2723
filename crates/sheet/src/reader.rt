// The text layer: reads a line's text byte by byte and works out its position sets on the way.
ghost use Rattle.std.specs.Prelude.{◌≤◌, length};

use crate::parts::{NOTHING, joined, single, starred};
use crate::refusal::Refusal;
use meaning::Symbol;
use positions::{Draft, MOST_CODE, MOST_LEVELS, Part};
use std::ops::Range;

// The most digits of a number.
const MOST_DIGITS: usize = 5;

// How the forms of a list belong together.
// Stays: an enum and no closure for what to do with the forms: the definition of what a list adds goes by it, and the contract of a closure would say the same by cases.
#[derive(Clone, Copy, PartialEq, Eq, Debug)]
pub enum Join {
    Seq,
    Alt,
}

// A line that was read: its two codes, the sets of its expression, and its symbols with what follows each.
#[derive(Clone, Copy)]
pub struct Parsed {
    pub opening: u16,
    pub closing: u16,
    pub part: Part,
    pub draft: Draft,
}

impl Parsed {
    ghost use Rattle.sheet.specs.Parsing.{Parses};

    // Reads a whole text.
    pub(crate) fn read(text: &[u8], classes: usize) -> Result<Self, Refusal>
        requires { classes ≤ 256 }
        ensures { Parses classes text.now result }
    {
        Reader {
            text,
            at: 0,
            classes,
            draft: Draft::new(),
        }
        .line()
    }
}

// What the text layer keeps while it reads a line.
#[derive(Drop)]
struct Reader<'t> {
    text: &'t [u8],
    // bytes read
    at: usize,
    // classes of the alphabet
    classes: usize,
    draft: Draft,
    ghost within: { at ≤ length text.now },
    ghost counted: { classes ≤ 256 },
}

// Stays: that a step goes `Onward` is a clause of each, since what holds of a reader before and after can be no invariant of it.
impl Reader<'_> {
    ghost use Rattle.std.specs.Prelude.{◌≡◌, IsSome};
    ghost use Rattle.sheet.specs.Parsing.{ReadsLine};
    ghost use Rattle.sheet.specs.Reading.{upcoming, Left, Onward, Passed, ReadsWord, DigitsOne, ReadsDigits, ReadsNumber, ReadsRange, ReadsSymbol, ReadsNone, ReadsForm, ReadsHead, ReadsSecond, ReadsStar, ReadsList};

    // The next byte as a character, if one is left.
    fn next(&self) -> Option<char>
        ensures value { result ≡ upcoming self.now }
        ensures left { IsSome result → Left self.now }
    {
        self.text.get(self.at).copied().map(char::from)
    }

    // Goes on behind the next byte.
    fn pass(&mut self)
        requires { Left self.old }
        ensures { Passed self.old self.new }
    {
        self.at += 1;
    }

    fn bad_form(&self) -> Refusal
        ensures { result ≡ Refusal.BadForm self.now.at }
    {
        Refusal::BadForm { byte: self.at }
    }

    // The bytes of `word`, and no others.
    fn expect(&mut self, word: &[u8]) -> Result<(), Refusal>
        ensures on { Onward self.old self.new }
        ensures reads { ReadsWord self.old self.new word.now result }
    {
        for &c in word {
            if self.next() != Some(char::from(c)) {
                return Err(self.bad_form());
            }
            self.pass();
        }
        Ok(())
    }

    // A digit, if one is next.
    fn digit(&mut self) -> Option<usize>
        ensures { DigitsOne self.old self.new result }
    {
        let digit = self.next()?.to_digit(10)?;
        self.pass();
        // Stays: `as`, since no `usize::from` takes a u32; a digit is below 10.
        Some(digit as usize)
    }

    // One digit or up to five, of which the first is 0 only if it is the last.
    fn digits(&mut self) -> Result<usize, Refusal>
        ensures on { Onward self.old self.new }
        ensures reads { ReadsDigits self.old self.new result }
    {
        let Some(first) = self.digit() else {
            return Err(self.bad_form());
        };
        if first == 0 {
            return Ok(0);
        }
        let mut value = first;
        for _ in 1..MOST_DIGITS {
            let Some(d) = self.digit() else {
                break;
            };
            value = value * 10 + d;
        }
        Ok(value)
    }

    // A number in `range` and the byte `stop` behind it, which is named where the number is out of range.
    fn number(&mut self, stop: char, range: Range<usize>) -> Result<u16, Refusal>
        requires { range.end ≤ 65536 }
        ensures on { Onward self.old self.new }
        ensures reads { ReadsNumber self.old self.new stop range.start range.end result }
    {
        let value = self.digits()?;
        if self.next() != Some(stop) {
            return Err(self.bad_form());
        }
        if !range.contains(&value) {
            return Err(Refusal::OutOfRange { byte: self.at });
        }
        self.pass();
        // Stays: `as`, since a number below 65,536 fits; `u16::try_from` would answer an error that cannot come.
        Ok(value as u16)
    }

    // The whole text: `(rule OPEN CLOSE E)`.
    fn line(&mut self) -> Result<Parsed, Refusal>
        ensures { ReadsLine self.old result }
    {
        self.expect(b"(rule ")?;
        let opening = self.number(' ', 0..MOST_CODE + 1)?;
        let closing = self.number(' ', 0..MOST_CODE + 1)?;
        let part = self.form(MOST_LEVELS - 1)?;
        self.expect(b")")?;
        if self.next().is_some() {
            return Err(self.bad_form());
        }
        Ok(Parsed {
            opening,
            closing,
            part,
            draft: self.draft,
        })
    }

    // One form, with `levels` brackets still to open.
    #[cycle(form_head_list_second_star)]
    fn form(&mut self, levels: usize) -> Result<Part, Refusal>
        ensures on { Onward self.old self.new }
        ensures reads { ReadsForm self.old self.new levels result }
    {
        if self.next() != Some('(') {
            return Err(self.bad_form());
        }
        if levels == 0 {
            return Err(Refusal::TooDeep { byte: self.at });
        }
        self.pass();
        self.head(levels - 1)
    }

    // What stands behind the bracket of a form.
    #[cycle(form_head_list_second_star)]
    fn head(&mut self, levels: usize) -> Result<Part, Refusal>
        ensures on { Onward self.old self.new }
        ensures reads { ReadsHead self.old self.new levels result }
    {
        match self.next() {
            Some('a') => {
                self.pass();
                self.expect(b"lt ")?;
                self.list(Join::Alt, levels)
            }
            Some('n') => {
                self.pass();
                self.none()
            }
            Some('s') => {
                self.pass();
                self.second(levels)
            }
            _ => Err(self.bad_form()),
        }
    }

    // What stands behind `(s`.
    #[cycle(form_head_list_second_star)]
    fn second(&mut self, levels: usize) -> Result<Part, Refusal>
        ensures on { Onward self.old self.new }
        ensures reads { ReadsSecond self.old self.new levels result }
    {
        match self.next() {
            Some('y') => {
                self.pass();
                self.symbol()
            }
            Some('e') => {
                self.pass();
                self.expect(b"q ")?;
                self.list(Join::Seq, levels)
            }
            Some('t') => {
                self.pass();
                self.star(levels)
            }
            _ => Err(self.bad_form()),
        }
    }

    // What stands behind `(st`.
    #[cycle(form_head_list_second_star)]
    fn star(&mut self, levels: usize) -> Result<Part, Refusal>
        ensures on { Onward self.old self.new }
        ensures reads { ReadsStar self.old self.new levels result }
    {
        self.expect(b"ar ")?;
        let part = self.form(levels)?;
        self.expect(b")")?;
        Ok(starred(&mut self.draft, part))
    }

    // One form or more, a blank between them, and the bracket that closes the list.
    #[cycle(form_head_list_second_star)]
    fn list(&mut self, join: Join, levels: usize) -> Result<Part, Refusal>
        ensures on { Onward self.old self.new }
        ensures reads { ReadsList join self.old self.new levels result }
    {
        let one = self.form(levels)?;
        match self.next() {
            Some(' ') => {
                self.pass();
                let rest = self.list(join, levels)?;
                Ok(joined(&mut self.draft, join, one, rest))
            }
            Some(')') => {
                self.pass();
                Ok(one)
            }
            _ => Err(self.bad_form()),
        }
    }

    // What stands behind `(n`.
    fn none(&mut self) -> Result<Part, Refusal>
        ensures on { Onward self.old self.new }
        ensures reads { ReadsNone self.old self.new result }
    {
        self.expect(b"one)")?;
        Ok(NOTHING)
    }

    // What stands behind `(sy`.
    fn symbol(&mut self) -> Result<Part, Refusal>
        ensures on { Onward self.old self.new }
        ensures reads { ReadsSymbol self.old self.new result }
    {
        if self.next() != Some('m') {
            return Err(self.bad_form());
        }
        if self.draft.is_full() {
            return Err(Refusal::TooManySymbols { byte: self.at });
        }
        self.pass();
        self.expect(b" ")?;
        let symbol = self.range()?;
        Ok(single(&mut self.draft, symbol))
    }

    // LO, HI and CODE, up to the bracket behind them.
    fn range(&mut self) -> Result<Symbol, Refusal>
        ensures on { Onward self.old self.new }
        ensures reads { ReadsRange self.old self.new result }
    {
        let low = self.number(' ', 0..self.classes)?;
        let high = self.number(' ', usize::from(low)..self.classes)?;
        let code = self.number(')', 0..MOST_CODE + 1)?;
        Ok(Symbol { low, high, code })
    }
}

// The sets of a form, from those of the forms in it.
ghost use Rattle.std.specs.Prelude.{◌≡◌, ◌+◌, ◌<◌};
ghost use Rattle.meaning.specs.Words.{sym as expr_of};
ghost use Rattle.meaning.specs.Positions.{given as if_given};
ghost use Rattle.sheet.specs.Adding.{Added, AddsStar, AddsMore};

use crate::reader::Join;
use meaning::Symbol;
use positions::{Draft, Part};

// The sets of `(none)`: it has the empty word, and no positions.
pub const NOTHING: Part = Part {
    nullable: true,
    first: 0,
    last: 0,
};

// The set, where `kept` says so, and otherwise none.
// Stays: `kept.then_some(set).unwrap_or(0)` is no plainer.
fn given(kept: bool, set: u64) -> u64
    ensures { result ≡ if_given kept set }
{
    if kept { set } else { 0 }
}

// A symbol, which is added to the draft.
pub fn single(draft: &mut Draft, symbol: Symbol) -> Part
    ensures count { draft.old.symbols.len < 63 → draft.new.symbols.len ≡ draft.old.symbols.len + 1 }
    ensures adds { draft.old.symbols.len < 63 → Added (expr_of symbol) draft.old draft.new result }
{
    let position = draft.add(symbol);
    Part {
        nullable: false,
        first: position,
        last: position,
    }
}

// A form any number of times.
pub fn starred(draft: &mut Draft, part: Part) -> Part
    ensures count { draft.new.symbols.len ≡ draft.old.symbols.len }
    ensures adds { AddsStar draft.old draft.new part result }
{
    draft.link(part.last, part.first);
    Part {
        nullable: true,
        ..part
    }
}

// A form and the rest of its list together.
pub fn joined(draft: &mut Draft, join: Join, one: Part, rest: Part) -> Part
    ensures count { draft.new.symbols.len ≡ draft.old.symbols.len }
    ensures adds { AddsMore join draft.old draft.new one rest result }
{
    match join {
        Join::Seq => {
            draft.link(one.last, rest.first);
            Part {
                nullable: one.nullable && rest.nullable,
                first: one.first | given(one.nullable, rest.first),
                last: given(rest.nullable, one.last) | rest.last,
            }
        }
        Join::Alt => Part {
            nullable: one.nullable || rest.nullable,
            first: one.first | rest.first,
            last: one.last | rest.last,
        },
    }
}

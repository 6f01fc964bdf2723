use reading::Why;
use sheet::Refusal;

// A call of a run. A read says how many cells of the lent lists are its own.
#[derive(Clone, Copy, PartialEq, Eq, Debug)]
pub enum Call<'a, A> {
    Take(&'a [u8]),
    Strike,
    Build,
    Read(&'a [A], usize),
    Play(&'a [A]),
}

// What a call answers that is not refused.
#[derive(Clone, Copy, PartialEq, Eq, Debug)]
pub enum Reply {
    // of take and strike the line's number, of build the number of states
    Number(usize),
    // pieces listed, place reached, why
    Read(usize, usize, Why),
    // pieces played whole, place behind them, codes taken of a broken piece, why
    Played(usize, usize, usize, Why),
}

// The three numbers of a read.
impl From<(usize, usize, Why)> for Reply {
    ghost use Rattle.std.specs.Prelude.{◌≡◌};
    ghost use Rattle.runs.specs.declared.calling.Reply.{Reply};

    ghost from_gives = { λ a reply. reply ≡ Reply.Read a.0 a.1 a.2 };

    fn from((pieces, place, why): (usize, usize, Why)) -> Self {
        Reply::Read(pieces, place, why)
    }
}

// The four numbers of a play.
impl From<(usize, usize, usize, Why)> for Reply {
    ghost use Rattle.std.specs.Prelude.{◌≡◌};
    ghost use Rattle.runs.specs.declared.calling.Reply.{Reply};

    ghost from_gives = { λ a reply. reply ≡ Reply.Played a.0 a.1 a.2 a.3 };

    fn from((pieces, place, codes, why): (usize, usize, usize, Why)) -> Self {
        Reply::Played(pieces, place, codes, why)
    }
}

// What a call answers.
pub type Answer = Result<Reply, Refusal>;

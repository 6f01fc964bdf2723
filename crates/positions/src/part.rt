// What an expression adds to a line's sets: whether it has the empty word, and the positions that its words begin and end with.
#[derive(Clone, Copy, PartialEq, Eq, Debug)]
pub struct Part {
    pub nullable: bool,
    pub first: u64,
    pub last: u64,
}

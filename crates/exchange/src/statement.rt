// What a letter says, by value. The page of a whole hour lies beside it, in rows of numbers that the caller lends.

// Of a gauge's row, as far as its reader and the receiver's places go. Hours are below 2^62.
#[derive(Clone, Copy, PartialEq, Eq, Debug)]
pub enum Statement {
    // It is reading; hours below this one are done.
    Begun { hour: u64 },
    // An hour is whole; the next hour that has a reading, if there is one.
    Whole { hour: u64, next: Option<u64> },
    // No hour is left.
    Ended,
}

// A letter without its page.
#[derive(Clone, Copy, PartialEq, Eq, Debug)]
pub struct Head {
    // The sender woke: what it said before is forgotten, and it wants to hear what there is to say.
    pub woke: bool,
    // The sender has told all hours below this one, which is at most 2^62.
    pub passed: u64,
    pub statement: Statement,
}

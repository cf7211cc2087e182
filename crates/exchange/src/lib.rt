// Letters between machines, as bytes, and what an adder makes of what they say.
#![tactic(auto)]

ghost use Rattle.exchange.specs.Laws.{LetterRoundTrip, ReadAsSpelled};

mod adder;
mod error;
mod kind;
mod mail;
mod read;
mod statement;
mod words;
mod write;

pub use adder::{next_slot, note_cursor, pass, ready_hour, tell};
pub use error::LetterError;
pub use mail::{hear, may_go_on, next_due, send};
pub use read::{read_head, read_letter};
pub use statement::{Head, Statement};
pub use write::{LONGEST, write_letter};

// Theorem: a letter has at most 4,096 bytes, and what is read of it is just what was written.
pub fn letter_round_trip()
    ensures { LetterRoundTrip }
{}

// Theorem: whatever is read as a letter is spelled just as it would be written.
pub fn read_as_spelled()
    ensures { ReadAsSpelled }
{}

// Text as bytes: its lines, words and numbers, and bytes as text.
#![tactic(auto)]

mod base16;
mod read;

pub use base16::{HexError, hex, unhex};
pub use read::{
    Lines, Words, decimal, first_line, first_word, is_torn, same, starts_with_digit, uncommented,
    until_dot, whole,
};

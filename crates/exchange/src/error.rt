// Why bytes are no letter.
use thiserror::Error;

#[derive(Clone, Copy, PartialEq, Eq, Debug, Error)]
pub enum LetterError {
    #[error("the letter has too few bytes")]
    TooShort,
    #[error("the letter has too many bytes")]
    TooLong,
    #[error("there is no such kind of letter")]
    UnknownKind,
    #[error("the mark of a sender that woke is neither 0 nor 1")]
    UnknownFlag,
    #[error("what the sender has told goes beyond hour 2^62")]
    PassedTooLarge,
    #[error("an hour is not below 2^62")]
    HourTooLarge,
}

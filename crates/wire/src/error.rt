// Why a line of a wire is not heard.
ghost use Rattle.std.specs.Prelude.{◌≡◌};
ghost use Rattle.wire.specs.declared.error.WireError.TheVariants.{Refused as AsRefused, Memory as NoMemory};

use std::alloc::AllocError;
use text::HexError;
use thiserror::Error;

#[derive(Clone, Copy, PartialEq, Eq, Debug, Error)]
pub enum Reason {
    #[error("a line is `poke` or begins with `from`")]
    UnknownWord,
    #[error("the machine's number is missing")]
    MissingNumber,
    #[error("this is not a machine's number")]
    NotANumber,
    #[error("there is no such machine")]
    NoSuchMachine,
    #[error("{0}")]
    Hex(HexError),
    #[error("this letter has more than 4096 bytes")]
    TooLong,
    #[error("there is a word too many")]
    TrailingWord,
}

#[derive(Clone, Copy, PartialEq, Eq, Debug, Error)]
pub enum WireError {
    #[error("{0}")]
    Refused(Reason),
    #[error("there is not enough memory")]
    Memory,
}

// By hand, as contracts tell which error `?` makes.
impl From<Reason> for WireError {
    ghost from_gives = { λ reason r. r ≡ AsRefused reason };

    fn from(reason: Reason) -> WireError {
        WireError::Refused(reason)
    }
}

impl From<AllocError> for WireError {
    ghost from_gives = { λ _ r. r ≡ NoMemory };

    fn from(_e: AllocError) -> WireError {
        WireError::Memory
    }
}

// What can be wrong with the text of a wall.
ghost use Rattle.std.specs.Prelude.{◌≡◌};
ghost use Rattle.wall_reader.specs.declared.mistake.WallMistake.TheVariants.{Memory as NoMemory};

use std::alloc::{AllocError, AllocFailed};
use thiserror::Error;

// Why a line is no row.
#[derive(Clone, Copy, PartialEq, Eq, Debug, Error)]
pub enum Reason {
    #[error("this line is blank")]
    Blank,
    #[error("a row is `hour H place P: S`, and here are too few words")]
    TooFewWords,
    #[error("a row is `hour H place P: S`, and here are too many words")]
    TooManyWords,
    #[error("the first word is not `hour`")]
    NoHour,
    #[error("the hour is not a number below 2^64")]
    BadHour,
    #[error("the third word is not `place`")]
    NoPlace,
    #[error("the place is not a number below 2^64 and a colon")]
    BadPlace,
    #[error("the sum is not a number below 2^64")]
    BadSum,
}

#[derive(Clone, Copy, PartialEq, Eq, Debug, Error)]
pub enum WallMistake {
    // The line's number, from 1.
    #[error("line {0}: {1}")]
    Line(u64, Reason),
    // A line above says another sum of this hour and place.
    #[error("line {line}: hour {hour} place {place} is {second} here and {first} above")]
    Contradiction {
        line: u64,
        hour: u64,
        place: u64,
        first: u64,
        second: u64,
    },
    #[error("there is not enough memory")]
    Memory,
}

// By hand, as clauses name the error that `?` makes.
impl From<AllocError> for WallMistake {
    ghost from_gives = { λ _ r. r ≡ NoMemory };

    fn from(_e: AllocError) -> WallMistake {
        WallMistake::Memory
    }
}

impl<T: Drop> From<AllocFailed<T>> for WallMistake {
    ghost from_gives = { λ _ r. r ≡ NoMemory };

    fn from(_e: AllocFailed<T>) -> WallMistake {
        WallMistake::Memory
    }
}

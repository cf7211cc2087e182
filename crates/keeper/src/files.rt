// What a station writes into its files, and what it reads there.
ghost use Rattle.std.specs.Prelude.{◌≡◌, ◌++◌, codes, decimal as written, IfOk, Ok, Some, string_bytes};
ghost use Rattle.text.specs.Text.{lines};
ghost use Rattle.keeper.specs.Stations.{lone_line, own_name, released_by};

use seal::{SealError, seal, unseal};
use std::alloc::{AllocError, Global};
use text::{decimal, first_line, first_word, same};
use thiserror::Error;

// Why a file does not say how much is released.
#[derive(Clone, Copy, PartialEq, Eq, Debug, Error)]
pub enum ReleasedError {
    #[error("{0}")]
    Seal(SealError),
    #[error("does not hold one number")]
    NotANumber,
}

// The name of a drawer's file.
pub fn drawer_name(heap: Global, drawer: u64) -> Result<String, AllocError>
    ensures { IfOk result (λ s. string_bytes s ≡ codes "drawer-" ++ written drawer) }
{
    Ok(format!(in heap; "drawer-{drawer}")?)
}

// Whether a file in the folder belongs to the station by its name, also one that was written beside its place.
pub fn is_own(name: &[u8]) -> bool
    ensures { result ≡ own_name name.now }
{
    name.starts_with(b"drawer-") || name.starts_with(b"released") || same(name, b"lock")
}

// The number that a text of one line has.
fn released(text: &[u8]) -> Option<u64>
    ensures { result ≡ lone_line (lines text.now) }
{
    let (line, below) = first_line(text)?;
    if first_line(below).is_some() {
        return None;
    }
    let (word, rest) = first_word(line)?;
    if first_word(rest).is_some() {
        return None;
    }
    decimal(word)
}

// The text in which `released` finds this number.
fn released_text(heap: Global, place: u64) -> Result<String, AllocError>
    ensures { IfOk result (λ s. lone_line (lines (string_bytes s)) ≡ Some place) }
{
    Ok(format!(in heap; "{place}\n")?)
}

// How many readings a file says are released.
pub fn released_in(file: &[u8]) -> Result<u64, ReleasedError>
    ensures { result ≡ released_by file.now }
{
    match unseal(file) {
        Ok(text) => released(text).ok_or(ReleasedError::NotANumber),
        Err(error) => Err(ReleasedError::Seal(error)),
    }
}

// The file in which `released_in` finds this number.
pub fn released_file(heap: Global, place: u64) -> Result<Vec<u8>, AllocError>
    ensures { IfOk result (λ file. released_by file.items ≡ Ok place) }
{
    let text = released_text(heap, place)?;
    seal(heap, text.as_str().as_bytes())
}

// The end of a wall, which a station looks at before it puts rows behind it.
ghost use Rattle.std.specs.Prelude.{◌≡◌, IfOk};
ghost use Rattle.text.specs.Text.{lines};
ghost use Rattle.wall_reader.specs.Tails.{TailSays, completes, shortest, wrong_line};

use crate::line::read_row;
use crate::mistake::Reason;
use std::alloc::{AllocError, Global};
use text::{Lines, whole};
use thiserror::Error;

// A row of the fewest bytes.
const SHORTEST: &[u8] = b"hour 0 place 0: 0";

#[derive(Clone, Copy, PartialEq, Eq, Debug, Error)]
pub enum TailMistake {
    // The line's number, from 1.
    #[error("line {0}: {1}")]
    Line(u64, Reason),
    // No row begins as the last line does, which has no end.
    #[error("its last line has no end, and no row begins so")]
    Torn,
    #[error("there is not enough memory")]
    Memory,
}

// The first line that is no row, by its number from 1, and why.
fn wrong_line(text: &[u8]) -> Option<(u64, Reason)>
    ensures { result ≡ wrong_line 1 (lines text.now) }
{
    for (index, line) in Lines::new(text).enumerate() {
        if let Err(reason) = read_row(line) {
            return Some((index as u64 + 1, reason));
        }
    }
    None
}

// Whether a line is a row with this end, or one without some of its first bytes, behind it.
fn completes(heap: Global, line: &[u8], end: &[u8]) -> Result<bool, AllocError>
    ensures { IfOk result (λ answer. answer ≡ completes line.now end.now) }
{
    let mut row = Vec::from_slice(heap, line)?;
    row.extend_from_slice(end)?;
    if read_row(row.as_slice()).is_ok() {
        return Ok(true);
    }
    match end {
        [] => Ok(false),
        [_, rest @ ..] => completes(heap, line, rest),
    }
}

// How many bytes of this text are whole lines: each is a row, and a row begins as a last line without its end does.
pub fn whole_rows(heap: Global, text: &[u8]) -> Result<usize, TailMistake>
    ensures { TailSays text.now result }
{
    let end = whole(text);
    if let Some((number, reason)) = wrong_line(&text[..end]) {
        return Err(TailMistake::Line(number, reason));
    }
    match completes(heap, &text[end..], SHORTEST) {
        Ok(true) => Ok(end),
        Ok(false) => Err(TailMistake::Torn),
        Err(_) => Err(TailMistake::Memory),
    }
}

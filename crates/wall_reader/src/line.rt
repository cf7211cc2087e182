// One line of the wall, by itself.
ghost use Rattle.std.specs.Prelude.{◌≡◌, [], ◌∷◌, IfOk, Ok, MatchResult};
ghost use Rattle.text.specs.Text.{words};
ghost use Rattle.wall_reader.specs.declared.mistake.Reason.TheVariants.{TooFewWords};
ghost use Rattle.wall_reader.specs.Lines.{place_of, row_by, row_said};

use crate::mistake::Reason;
use rows::Row;
use std::alloc::{AllocError, Global};
use text::{decimal, first_word, same};

// The next word of a row and what follows it.
fn next_word(bytes: &[u8]) -> Result<(&[u8], &[u8]), Reason>
    ensures { MatchResult result (λ p. words bytes.now ≡ p.0.now ∷ words p.1.now) (λ e. (e ≡ TooFewWords) × (words bytes.now ≡ [])) }
{
    first_word(bytes).ok_or(Reason::TooFewWords)
}

// The number before the colon that ends a word.
fn place_of(word: &[u8]) -> Option<u64>
    ensures { result ≡ place_of word.now }
{
    let [digits @ .., b':'] = word else {
        return None;
    };
    decimal(digits)
}

// The row that five words say.
fn row_by(first: &[u8], hour: &[u8], third: &[u8], place: &[u8], sum: &[u8]) -> Result<Row, Reason>
    ensures { result ≡ row_by first.now hour.now third.now place.now sum.now }
{
    if !same(first, b"hour") {
        return Err(Reason::NoHour);
    }
    let hour = decimal(hour).ok_or(Reason::BadHour)?;
    if !same(third, b"place") {
        return Err(Reason::NoPlace);
    }
    let place = place_of(place).ok_or(Reason::BadPlace)?;
    let sum = decimal(sum).ok_or(Reason::BadSum)?;
    Ok(Row { hour, place, sum })
}

// The row that a line says, or why it says none.
pub fn read_row(line: &[u8]) -> Result<Row, Reason>
    ensures { result ≡ row_said (words line.now) }
{
    let Some((first, rest)) = first_word(line) else {
        return Err(Reason::Blank);
    };
    let (hour, rest) = next_word(rest)?;
    let (third, rest) = next_word(rest)?;
    let (place, rest) = next_word(rest)?;
    let (sum, rest) = next_word(rest)?;
    if first_word(rest).is_some() {
        return Err(Reason::TooManyWords);
    }
    row_by(first, hour, third, place, sum)
}

// What is read of a row that is printed: just that row.
pub fn print_and_read(heap: Global, row: Row) -> Result<Result<Row, Reason>, AllocError>
    ensures { IfOk result (λ back. back ≡ Ok row) }
{
    let line = format!(in heap; "{row}")?;
    Ok(read_row(line.as_bytes()))
}

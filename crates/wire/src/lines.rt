// Lines that come, `poke` and `from I HEX`, and lines that go, `to J HEX`.
ghost use Rattle.std.specs.Prelude.{◌≡◌, ◌++◌, IfOk, string_bytes, codes, decimal as written};
ghost use Rattle.text.specs.Hex as spec;
ghost use Rattle.text.specs.Text.{said, words};
ghost use Rattle.wire.specs.Wires.{Says, Hears, TextSays, poke_of, letter_of, text_of};

use crate::error::{Reason, WireError};
use hut::{Pending, Text};
use machine::MACHINES;
use std::alloc::{AllocError, Global};
use text::{HexError, decimal, first_word, hex, same, uncommented, unhex};

fn poke(rest: &[u8]) -> Result<Pending, WireError>
    ensures { Says (poke_of (words rest.now)) result }
{
    match first_word(rest) {
        None => Ok(Pending::Next),
        Some(_) => Err(WireError::Refused(Reason::TrailingWord)),
    }
}

// The bytes that one word writes, or none.
fn text(heap: Global, rest: &[u8]) -> Result<Text, WireError>
    ensures { TextSays (text_of (words rest.now)) result }
{
    let Some((word, after)) = first_word(rest) else {
        return Ok(Text::empty(heap));
    };
    if first_word(after).is_some() {
        return Err(WireError::Refused(Reason::TrailingWord));
    }
    let bytes = match unhex(heap, word) {
        Ok(bytes) => bytes,
        Err(HexError::Memory) => return Err(WireError::Memory),
        Err(error) => return Err(WireError::Refused(Reason::Hex(error))),
    };
    Ok(Text::new(heap, bytes.as_slice())?.ok_or(Reason::TooLong)?)
}

fn letter(heap: Global, rest: &[u8]) -> Result<Pending, WireError>
    ensures { Says (letter_of (words rest.now)) result }
{
    let (number, after) = first_word(rest).ok_or(Reason::MissingNumber)?;
    let sender = decimal(number).ok_or(Reason::NotANumber)?;
    if sender >= MACHINES {
        return Err(WireError::Refused(Reason::NoSuchMachine));
    }
    Ok(Pending::Letter(sender, text(heap, after)?))
}

// What a line says to a machine; none where it says nothing.
pub fn hear(heap: Global, line: &[u8]) -> Result<Option<Pending>, WireError>
    ensures { Hears (said line.now) result }
{
    let Some((first, rest)) = first_word(uncommented(line)) else {
        return Ok(None);
    };
    if same(first, b"poke") {
        return Ok(Some(poke(rest)?));
    }
    if same(first, b"from") {
        return Ok(Some(letter(heap, rest)?));
    }
    Err(WireError::Refused(Reason::UnknownWord))
}

// The line that sends a letter to a machine.
pub fn send(heap: Global, reader: u64, text: &[u8]) -> Result<String, AllocError>
    ensures { IfOk result (λ s. string_bytes s ≡ codes "to " ++ (written reader ++ (codes " " ++ spec.hex text.now))) }
{
    let bytes = hex(heap, text)?;
    format!(in heap; "to {reader} {bytes}")
}

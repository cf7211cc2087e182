// Bytes as text of hexadecimal digits, two for each byte, in lower case, and back.
ghost use Rattle.std.specs.Prelude.{◌≡◌, ◌<◌, IfOk, Ok, string_bytes};
ghost use Rattle.text.specs.declared.base16.HexError.TheVariants.{Memory};
ghost use Rattle.text.specs.Hex.{UnhexSays, hex_digit, hex_value};
ghost use Rattle.text.specs.Hex as spec;

use std::alloc::{AllocError, AllocFailed, Global};
use thiserror::Error;

// Why a word does not write bytes.
#[derive(Clone, Copy, PartialEq, Eq, Debug, Error)]
pub enum HexError {
    #[error("a hexadecimal digit stands alone")]
    OddLength,
    #[error("this is not a hexadecimal digit")]
    NotADigit,
    #[error("there is not enough memory")]
    Memory,
}

// By hand, as a contract tells which error `?` makes.
impl<T: Drop> From<AllocFailed<T>> for HexError {
    ghost from_gives = { λ _ r. r ≡ Memory };

    fn from(_e: AllocFailed<T>) -> HexError {
        HexError::Memory
    }
}

// The digit that writes a value.
fn digit(value: u8) -> char
    requires { value < 16 }
    ensures { result ≡ hex_digit value }
{
    let digit = match value {
        0..=9 => b'0' + value,
        _ => b'a' + (value - 10),
    };
    char::from(digit)
}

// The value that a digit writes; capital letters, which `char::to_digit` reads too, are no digits here.
fn value(digit: u8) -> Option<u8>
    ensures { result ≡ hex_value digit }
{
    match digit {
        b'0'..=b'9' => Some(digit - b'0'),
        b'a'..=b'f' => Some(digit - b'a' + 10),
        _ => None,
    }
}

// The byte that two digits write.
fn byte(high: u8, low: u8) -> Option<u8>
    ensures { result ≡ spec.hex_byte high low }
{
    Some(value(high)? * 16 + value(low)?)
}

// What bytes are as text. It reads back to these bytes. Digit by digit, since `write!` with `{:02x}` takes three times as long.
pub fn hex(heap: Global, bytes: &[u8]) -> Result<String, AllocError>
    ensures written { IfOk result (λ s. string_bytes s ≡ spec.hex bytes.now) }
    ensures back { IfOk result (λ s. spec.unhex (string_bytes s) ≡ Ok bytes.now) }
{
    let mut text = String::with_capacity(heap, 2 * bytes.len())?;
    for byte in bytes {
        text.push(digit(*byte / 16))?;
        text.push(digit(*byte % 16))?;
    }
    Ok(text)
}

// The bytes that a word writes.
pub fn unhex(heap: Global, word: &[u8]) -> Result<Vec<u8>, HexError>
    ensures { UnhexSays word.now result }
{
    let mut bytes = Vec::new(heap);
    let mut rest = word;
    while let [high, low, after @ ..] = rest {
        let Some(byte) = byte(*high, *low) else {
            return Err(HexError::NotADigit);
        };
        bytes.push(byte)?;
        rest = after;
    }
    if rest.is_empty() {
        Ok(bytes)
    } else {
        Err(HexError::OddLength)
    }
}

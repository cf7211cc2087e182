// Letters written: over the front of bytes that the caller lends, the page straight from the rows that hold it.
ghost use Rattle.std.specs.Prelude.{◌≡◌, ◌*◌, ◌≤◌, ◌++◌, length, drop};
ghost use Rattle.exchange.specs.Letters.{marks, head_numbers, head_bytes, letter_bytes, longest_head, longest};
ghost use Rattle.sums.specs.Cells.{slots};
ghost use Rattle.sums.specs.Digits.{widest, row_bytes};
ghost use Rattle.sums.specs.Numbers.{row_over};

use crate::kind::Kind;
use crate::statement::{Head, Statement};
use sums::numbers::{WIDEST, write_row};
use sums::pages::{PAGE_BYTES, encode_page};

// The kind, and whether the sender woke.
const MARKS: usize = 2;
// Behind them come three numbers at most.
const NUMBERS: usize = 3;
// 1,562.
pub const LONGEST: usize = MARKS + WIDEST * NUMBERS + PAGE_BYTES;

// Writes numbers over the front of the bytes, and answers how many bytes they have.
fn write_numbers(numbers: &[u64], out: &mut [u8]) -> usize
    requires { widest * length numbers.now ≤ length out.old }
    ensures length { result ≡ widest * length numbers.now }
    ensures bytes { out.new ≡ row_over widest numbers.now out.old }
{
    write_row(numbers, WIDEST, out).unwrap();
    WIDEST * numbers.len()
}

fn write_head_numbers(head: Head, out: &mut [u8]) -> usize
    requires { widest * 3 ≤ length out.old }
    ensures length { result ≡ widest * length (head_numbers head) }
    ensures bytes { out.new ≡ row_over widest (head_numbers head) out.old }
{
    let passed = head.passed;
    match head.statement {
        Statement::Begun { hour } => write_numbers(&[passed, hour], out),
        Statement::Whole {
            hour,
            next: Some(next),
        } => write_numbers(&[passed, hour, next], out),
        Statement::Whole { hour, next: None } => write_numbers(&[passed, hour], out),
        Statement::Ended => write_numbers(&[passed], out),
    }
}

fn write_head(head: Head, out: &mut [u8]) -> usize
    requires { longest_head ≤ length out.old }
    ensures length { result ≡ length (head_bytes head) }
    ensures bytes { out.new ≡ head_bytes head ++ drop result out.old }
{
    out[0] = Kind::of(head.statement).into();
    out[1] = u8::from(head.woke);
    MARKS + write_head_numbers(head, &mut out[MARKS..])
}

// Writes a letter over the front of the bytes, and answers how many bytes it has. The rows are the page of a whole hour; beside anything else they are not sent.
pub fn write_letter(head: Head, sums: &[u64], counts: &[u64], out: &mut [u8]) -> usize
    requires sums { length sums.now ≡ slots }
    requires counts { length counts.now ≡ slots }
    requires room { longest ≤ length out.old }
    ensures length { result ≡ length (letter_bytes head sums.now counts.now) }
    ensures bytes { out.new ≡ letter_bytes head sums.now counts.now ++ drop result out.old }
    ensures within { result ≤ longest }
{
    let len = write_head(head, out);
    if let Statement::Whole { .. } = head.statement {
        encode_page(sums, counts, &mut out[len..]).unwrap();
        return len + PAGE_BYTES;
    }
    len
}

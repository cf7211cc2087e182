// Letters read: the head by value, and a page into rows that the caller lends.
ghost use Rattle.std.specs.Prelude.{◌≡◌, length, IfOk, IfErr, Ok, Err};
ghost use Rattle.exchange.specs.Kinds.{kind_in};
ghost use Rattle.exchange.specs.Letters.{flag_in, number_in, passed_in, hour_in, statement_in, page_size, head_of, said, sums_left, counts_left};
ghost use Rattle.sums.specs.Cells.{slots};

use crate::error::LetterError;
use crate::kind::Kind;
use crate::statement::{Head, Statement};
use sums::numbers::{WIDEST, read_number};
use sums::pages::{PAGE_BYTES, decode_page};
use sums::reading::TIME_LIMIT;

// Hours are below it: an hour is no later than the times in it.
const HOUR_LIMIT: u64 = TIME_LIMIT;

fn read_flag(byte: u8) -> Result<bool, LetterError>
    ensures { result ≡ flag_in byte }
{
    match byte {
        0 => Ok(false),
        1 => Ok(true),
        _ => Err(LetterError::UnknownFlag),
    }
}

// The number in front, and the bytes behind it. What the next three take lies in front too.
#[tactic(auto, using(std::proofs::lemmas::Bool::Decides::nat_tests), unfolding(crate::specs::Letters::number_in))]
fn take_number(bytes: &[u8]) -> Result<(u64, &[u8]), LetterError>
    ensures ok { IfOk result (λ p. number_in bytes.now ≡ Ok (p.0, p.1.now)) }
    ensures err { IfErr result (λ e. number_in bytes.now ≡ Err e) }
{
    let Some((number, rest)) = read_number(bytes, WIDEST) else {
        return Err(LetterError::TooShort);
    };
    Ok((number, rest))
}

// What the sender has passed, and the bytes behind it.
fn take_passed(bytes: &[u8]) -> Result<(u64, &[u8]), LetterError>
    ensures ok { IfOk result (λ p. passed_in bytes.now ≡ Ok (p.0, p.1.now)) }
    ensures err { IfErr result (λ e. passed_in bytes.now ≡ Err e) }
{
    let (passed, rest) = take_number(bytes)?;
    if passed > HOUR_LIMIT {
        return Err(LetterError::PassedTooLarge);
    }
    Ok((passed, rest))
}

fn take_hour(bytes: &[u8]) -> Result<(u64, &[u8]), LetterError>
    ensures ok { IfOk result (λ p. hour_in bytes.now ≡ Ok (p.0, p.1.now)) }
    ensures err { IfErr result (λ e. hour_in bytes.now ≡ Err e) }
{
    let (hour, rest) = take_number(bytes)?;
    if hour >= HOUR_LIMIT {
        return Err(LetterError::HourTooLarge);
    }
    Ok((hour, rest))
}

fn take_statement(kind: Kind, bytes: &[u8]) -> Result<(Statement, &[u8]), LetterError>
    ensures ok { IfOk result (λ p. statement_in kind bytes.now ≡ Ok (p.0, p.1.now)) }
    ensures err { IfErr result (λ e. statement_in kind bytes.now ≡ Err e) }
{
    match kind {
        Kind::Begun => {
            let (hour, rest) = take_hour(bytes)?;
            Ok((Statement::Begun { hour }, rest))
        }
        Kind::Whole => {
            let (hour, rest) = take_hour(bytes)?;
            let (next, rest) = take_hour(rest)?;
            let next = Some(next);
            Ok((Statement::Whole { hour, next }, rest))
        }
        Kind::Last => {
            let (hour, rest) = take_hour(bytes)?;
            Ok((Statement::Whole { hour, next: None }, rest))
        }
        Kind::Ended => Ok((Statement::Ended, bytes)),
    }
}

impl Statement {
    // How many bytes the page beside it has.
    fn page_size(self) -> usize
        ensures { result ≡ page_size self }
    {
        match self {
            Statement::Whole { .. } => PAGE_BYTES,
            Statement::Begun { .. } | Statement::Ended => 0,
        }
    }
}

// What a letter says, and the bytes of its page, which are none beside anything but a whole hour.
#[tactic(auto, using(std::proofs::lemmas::Bool::Decides::nat_tests), unfolding(crate::specs::Letters::head_of))]
pub fn read_head(bytes: &[u8]) -> Result<(Head, &[u8]), LetterError>
    ensures ok { IfOk result (λ p. head_of bytes.now ≡ Ok (p.0, p.1.now)) }
    ensures err { IfErr result (λ e. head_of bytes.now ≡ Err e) }
    ensures page { IfOk result (λ p. length p.1.now ≡ page_size p.0.statement) }
{
    let [kind, woke, numbers @ ..] = bytes else {
        return Err(LetterError::TooShort);
    };
    let kind = Kind::try_from(*kind)?;
    let woke = read_flag(*woke)?;
    let (passed, rest) = take_passed(numbers)?;
    let (statement, page) = take_statement(kind, rest)?;
    if page.len() < statement.page_size() {
        return Err(LetterError::TooShort);
    }
    if page.len() > statement.page_size() {
        return Err(LetterError::TooLong);
    }
    let head = Head {
        woke,
        passed,
        statement,
    };
    Ok((head, page))
}

// What a letter says; the page of a whole hour goes into the rows, which are else as they were.
pub fn read_letter(bytes: &[u8], sums: &mut [u64], counts: &mut [u64]) -> Result<Head, LetterError>
    requires sums { length sums.old ≡ slots }
    requires counts { length counts.old ≡ slots }
    ensures told { result ≡ said (head_of bytes.now) }
    ensures sums { sums.new ≡ sums_left (head_of bytes.now) sums.old }
    ensures counts { counts.new ≡ counts_left (head_of bytes.now) counts.old }
{
    let (head, page) = read_head(bytes)?;
    if let Statement::Whole { .. } = head.statement {
        decode_page(page, sums, counts).unwrap();
    }
    Ok(head)
}

// Numbers as bytes, the lowest first, and rows of numbers of one width.
ghost use Rattle.std.specs.Prelude.{◌≡◌, ◌*◌, ◌≤◌, true, length, take, drop, ◌↔◌, IsSome, IfSome, IfOk, IfErr, Ok, Err};
ghost use Rattle.std.specs.Option.{option_map};
ghost use Rattle.sums.specs.Digits.{widest, digits, value, fits, row_numbers};
ghost use Rattle.sums.specs.Numbers.{NumberSays, NumbersLaw, row_room, row_answer, row_read, row_over, row_written};
ghost use Rattle.sums.specs.Sums.{every};

// No number has more bytes.
pub const WIDEST: usize = 8;

#[derive(Clone, Copy, PartialEq, Eq, Debug)]
pub enum RowError {
    // No number is so wide.
    TooWide,
    // There are too few bytes for the row.
    TooShort,
}

// How many bytes a number has.
#[derive(Clone, Copy)]
pub(crate) struct Width {
    pub(crate) bytes: usize,
    ghost within: { bytes ≤ widest },
}

impl Width {
    fn new(bytes: usize) -> Option<Width>
        ensures fits { IsSome result ↔ (bytes ≤ widest) }
        ensures bytes { IfSome result (λ w. w.bytes ≡ bytes) }
    {
        if bytes > WIDEST {
            return None;
        }
        Some(Width { bytes })
    }
}

// The number in the first `width` bytes, the lowest first, and the bytes behind it.
pub fn read_number(bytes: &[u8], width: usize) -> Option<(u64, &[u8])>
    ensures { NumberSays width bytes.now (option_map (λ p. (p.0, p.1.now)) result) }
{
    let width = Width::new(width)?;
    if width.bytes > bytes.len() {
        return None;
    }
    Some(number_and_rest(bytes, width))
}

fn number_and_rest(bytes: &[u8], width: Width) -> (u64, &[u8])
    requires { width.bytes ≤ length bytes.now }
    ensures number { result.0 ≡ value (take width.bytes bytes.now) }
    ensures small { fits width.bytes result.0 ≡ true }
    ensures rest { result.1.now ≡ drop width.bytes bytes.now }
{
    let (front, rest) = bytes.split_at(width.bytes);
    let mut low = [0; WIDEST];
    low[..width.bytes].copy_from_slice(front);
    (u64::from_le_bytes(low), rest)
}

// Reads a row of numbers from the front of the bytes, and answers the bytes behind it.
pub(crate) fn take_row<'a>(bytes: &'a [u8], width: Width, numbers: &mut [u64]) -> &'a [u8]
    requires { width.bytes * length numbers.old ≤ length bytes.now }
    ensures numbers { numbers.new ≡ row_numbers width.bytes (length numbers.old) bytes.now }
    ensures small { every (fits width.bytes) numbers.new ≡ true }
    ensures rest { result.now ≡ drop (width.bytes * length numbers.old) bytes.now }
{
    let mut rest = bytes;
    for number in numbers.iter_mut() {
        (*number, rest) = number_and_rest(rest, width);
    }
    rest
}

// Reads a row of numbers from the front of the bytes.
pub fn read_row(bytes: &[u8], width: usize, numbers: &mut [u64]) -> Result<(), RowError>
    ensures told { result ≡ row_answer width numbers.old bytes.now }
    ensures numbers { numbers.new ≡ row_read width bytes.now numbers.old }
{
    let width = row_width(width, numbers.len(), bytes.len())?;
    take_row(bytes, width, numbers);
    Ok(())
}

// Writes a row of numbers over the front of the bytes, each in `width` bytes. Of a number that does not fit, the low ones are written.
pub fn write_row(numbers: &[u64], width: usize, out: &mut [u8]) -> Result<(), RowError>
    ensures told { result ≡ row_answer width numbers.now out.old }
    ensures out { out.new ≡ row_written width numbers.now out.old }
{
    let width = row_width(width, numbers.len(), out.len())?;
    put_row(numbers, width, out);
    Ok(())
}

// The width of a row of so many numbers that has room in so many bytes.
fn row_width(width: usize, count: usize, bytes: usize) -> Result<Width, RowError>
    ensures ok { IfOk result (λ w. (w.bytes ≡ width) × (row_room width count bytes ≡ Ok tt)) }
    ensures err { IfErr result (λ e. row_room width count bytes ≡ Err e) }
{
    let width = Width::new(width).ok_or(RowError::TooWide)?;
    let len = width.bytes.checked_mul(count).ok_or(RowError::TooShort)?;
    if len > bytes {
        return Err(RowError::TooShort);
    }
    Ok(width)
}

pub(crate) fn put_row(numbers: &[u64], width: Width, out: &mut [u8])
    requires { width.bytes * length numbers.now ≤ length out.old }
    ensures { out.new ≡ row_over width.bytes numbers.now out.old }
{
    // By index: of parts that a loop splits off, a proof does not know once it is over what was written.
    for (i, number) in numbers.iter().enumerate() {
        let at = width.bytes * i;
        put_number(*number, &mut out[at..at + width.bytes]);
    }
}

fn put_number(number: u64, out: &mut [u8])
    requires { length out.old ≤ widest }
    ensures { out.new ≡ digits (length out.old) number }
{
    let bytes = number.to_le_bytes();
    out.copy_from_slice(&bytes[..out.len()]);
}

// Theorem: what is written of a row of numbers is read back, at any width that they fit.
pub fn numbers_law()
    ensures { NumbersLaw }
{}

// The root record and the cursor, by value and as bytes.
ghost use Rattle.std.specs.Prelude.{◌≡◌, ℕ, ◌*◌, ◌≤◌, List, length, Option, refl};
ghost use Rattle.std.specs.Option.{ok_or};
ghost use Rattle.std.proofs.Common.{rules};
ghost use Rattle.sums.specs.Digits.{row_bytes};
ghost use Rattle.store.specs.Records.{set_number, numbered_set, unknown_set, shadow_of, number_width, record_answer, record_written, record_in, record_of, root_numbers, numbered_root, zero_root, root_length, root_bytes, root_bytes_are, root_bytes_long, root_of, root_of_is, cursor_numbers, numbered_cursor, zero_cursor, cursor_length, cursor_bytes, cursor_bytes_are, cursor_bytes_long, cursor_of, cursor_of_is, RootRoundTrip, CursorRoundTrip};

use sums::numbers::{read_row, write_row};

// The bytes of each number of a record.
const WIDTH: usize = 8;

#[derive(Clone, Copy, PartialEq, Eq, Debug)]
pub enum RecordError {
    // There are too few bytes for the record.
    TooShort,
}

// The pages that a root record names: none, or those of one of two sets.
// `None` is a variant: `u64` can have a `From` of a type of this crate, and not of an `Option`.
#[derive(Clone, Copy, PartialEq, Eq, Debug)]
pub enum PageSet {
    None,
    First,
    Second,
}

// A number that is that of no set.
#[derive(Clone, Copy, PartialEq, Eq, Debug)]
pub struct UnknownSet(pub u64);

impl From<PageSet> for u64 {
    ghost from_gives = { λ set number. number ≡ set_number set };

    fn from(set: PageSet) -> u64 {
        match set {
            PageSet::None => 0,
            PageSet::First => 1,
            PageSet::Second => 2,
        }
    }
}

impl TryFrom<u64> for PageSet {
    type Error = UnknownSet;

    ghost try_from_gives = { λ number tried. tried ≡ ok_or (numbered_set number) (unknown_set number) };

    fn try_from(number: u64) -> Result<PageSet, UnknownSet> {
        match number {
            0 => Ok(PageSet::None),
            1 => Ok(PageSet::First),
            2 => Ok(PageSet::Second),
            _ => Err(UnknownSet(number)),
        }
    }
}

impl PageSet {
    // The set that the next checkpoint writes, so that the pages of this one stay whole.
    pub fn shadow(self) -> PageSet
        ensures { result ≡ shadow_of self }
    {
        match self {
            PageSet::None | PageSet::Second => PageSet::First,
            PageSet::First => PageSet::Second,
        }
    }
}

// A record of `N` numbers, each kept in eight bytes of a drawer.
pub trait Record<const N: usize>: Copy {
    // The numbers of a record, and the record that numbers are, if any.
    ghost numbers_of: { Self → List ℕ };

    ghost numbered: { List ℕ → Option Self };

    // The bytes of a record, and the record that bytes stand for.
    ghost bytes_of: { Self → List ℕ };

    ghost of_bytes: { List ℕ → Self };

    ghost ZERO: { Self };

    ghost BYTES: { ℕ };

    // What an empty drawer stands for.
    const ZERO: Self;
    // How many bytes it has.
    const BYTES: usize;

    fn numbers(self) -> [u64; N]
        ensures { result ≡ numbers_of self };

    fn from_numbers(numbers: &[u64; N]) -> Option<Self>
        ensures { result ≡ numbered numbers.now };

    // It has room in a drawer.
    ghost BYTES_are: { (BYTES ≡ number_width * N) × (BYTES ≤ 4096) };

    ghost bytes_are: { (r : Self) → bytes_of r ≡ row_bytes number_width (numbers_of r) };

    ghost bytes_long: { (r : Self) → length (bytes_of r) ≡ BYTES };

    ghost of_bytes_is: { (bs : List ℕ) → of_bytes bs ≡ record_of ZERO N numbered bs };

    // Writes the record over the front of the bytes.
    final fn encode(self, out: &mut [u8]) -> Result<(), RecordError>
        ensures told { result ≡ record_answer BYTES out.old }
        ensures out { out.new ≡ record_written BYTES (bytes_of self) out.old }
    {
        write_row(&self.numbers(), WIDTH, out).map_err(|_| RecordError::TooShort)
    }

    // Reads a drawer: any bytes that are no record stand for the zero record.
    final fn decode(bytes: &[u8]) -> Self
        ensures { result ≡ of_bytes bytes.now }
    {
        Self::read(bytes).unwrap_or(Self::ZERO)
    }

    final fn read(bytes: &[u8]) -> Option<Self>
        ensures { result ≡ record_in N numbered bytes.now }
    {
        if bytes.len() != Self::BYTES {
            return None;
        }
        let mut numbers = [0; N];
        read_row(bytes, WIDTH, &mut numbers).ok()?;
        Self::from_numbers(&numbers)
    }
}

// The commit record, kept at the end of a checkpoint and of an hour: whose pages hold the tables, of which hour, and where in the row of readings they end.
#[derive(Clone, Copy, PartialEq, Eq, Debug)]
pub struct Root {
    pub set: PageSet,
    pub hour: u64,
    pub pos: u64,
}

impl Record<3> for Root {
    ghost numbers_of = { root_numbers };

    ghost numbered = { numbered_root };

    ghost bytes_of = { root_bytes };

    ghost of_bytes = { root_of };

    ghost ZERO = { zero_root };

    ghost BYTES = { root_length };

    ghost BYTES_are = { (refl, Prim.search rules) };

    ghost bytes_are = { root_bytes_are };

    ghost bytes_long = { root_bytes_long };

    ghost of_bytes_is = { root_of_is };

    const ZERO: Root = Root {
        set: PageSet::None,
        hour: 0,
        pos: 0,
    };

    const BYTES: usize = 3 * WIDTH;

    fn numbers(self) -> [u64; 3] {
        [u64::from(self.set), self.hour, self.pos]
    }

    fn from_numbers(numbers: &[u64; 3]) -> Option<Root> {
        let [set, hour, pos] = *numbers;
        let set = PageSet::try_from(set).ok()?;
        Some(Root { set, hour, pos })
    }
}

// How far the sums are told: all of the hours below this one, and of this hour those in cells before `cell`.
#[derive(Clone, Copy, PartialEq, Eq, Debug)]
pub struct Cursor {
    pub hour: u64,
    pub cell: u64,
}

impl Record<2> for Cursor {
    ghost numbers_of = { cursor_numbers };

    ghost numbered = { numbered_cursor };

    ghost bytes_of = { cursor_bytes };

    ghost of_bytes = { cursor_of };

    ghost ZERO = { zero_cursor };

    ghost BYTES = { cursor_length };

    ghost BYTES_are = { (refl, Prim.search rules) };

    ghost bytes_are = { cursor_bytes_are };

    ghost bytes_long = { cursor_bytes_long };

    ghost of_bytes_is = { cursor_of_is };

    const ZERO: Cursor = Cursor { hour: 0, cell: 0 };

    const BYTES: usize = 2 * WIDTH;

    fn numbers(self) -> [u64; 2] {
        [self.hour, self.cell]
    }

    fn from_numbers(numbers: &[u64; 2]) -> Option<Cursor> {
        let [hour, cell] = *numbers;
        Some(Cursor { hour, cell })
    }
}

// Theorem: a root record has its length, and what is read of it is what was written.
pub fn root_round_trip()
    ensures { RootRoundTrip }
{}

// Theorem: the same of a cursor.
pub fn cursor_round_trip()
    ensures { CursorRoundTrip }
{}

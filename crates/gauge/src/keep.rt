// Records and pages that are kept: their bytes over the front of the buffer, which has room for each of them, and the act.
ghost use Rattle.std.specs.Prelude.{◌<◌};
ghost use Rattle.sums.specs.Cells.{pages};
ghost use Rattle.sums.specs.Pages.{page_bytes};
ghost use Rattle.gauge.specs.Deeds.{keep, Answered};
ghost use Rattle.gauge.specs.Memory.{page_sums_in, page_counts_in};

use crate::act::Act;
use crate::memory::{Buffer, COUNTS, Memory, PAGE, SUMS};
use store::Record;
use sums::pages::{PAGE_BYTES, encode_page};

// A record, into this drawer.
pub fn keep_record<const N: usize, R: Record<N>>(entry: R, drawer: u8, out: &mut Buffer) -> Act
    ensures { Answered (keep drawer (R.bytes_of entry)) result out.old out.new }
{
    entry.encode(out).unwrap();
    Act::Keep(drawer, R::BYTES as u16)
}

// A page of the tables in memory, into this drawer. The page is a number, as it is in memory, and no type of three uses.
pub(crate) fn keep_page(memory: &Memory, page: u64, drawer: u8, out: &mut Buffer) -> Act
    requires { page < pages }
    ensures { Answered (keep drawer (page_bytes (page_sums_in memory.now page) (page_counts_in memory.now page))) result out.old out.new }
{
    let at = PAGE * page as usize;
    let sums = &memory[SUMS + at..SUMS + at + PAGE];
    let counts = &memory[COUNTS + at..COUNTS + at + PAGE];
    encode_page(sums, counts, out).unwrap();
    Act::Keep(drawer, PAGE_BYTES as u16)
}

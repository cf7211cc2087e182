// A checkpoint: the eight pages into the set that the root record does not name, then the root record, which commits them.
ghost use Rattle.std.specs.Prelude.{◌≡◌, ◌<◌};
ghost use Rattle.sums.specs.Cells.{pages};
ghost use Rattle.gauge.specs.Deeds.{Did, Wrote};
ghost use Rattle.gauge.specs.Gauge.{shadow_in, page_saved, root_saved, save_next};

use crate::act::Act;
use crate::keep::{keep_page, keep_record};
use crate::memory::{Buffer, HOUR, INDEX, KEPT, Memory, PAUSED, PHASE, POS, Phase, SET, named_set};
use store::drawers::{page_drawer, root_drawer};
use store::{PageSet, Root};
use sums::cells::PAGES;

// The first page is kept.
pub fn save_first(memory: &mut Memory, out: &mut Buffer) -> Act
    ensures { Wrote (page_saved memory.old 0) result memory.new out.old out.new }
{
    save_page(memory, 0, out)
}

// After a page: the next, or the root record.
pub fn save_next(memory: &mut Memory, out: &mut Buffer) -> Act
    ensures { Wrote (save_next memory.old) result memory.new out.old out.new }
{
    let page = memory[INDEX];
    if page < PAGES - 1 {
        save_page(memory, page + 1, out)
    } else {
        save_root(memory, out)
    }
}

fn save_page(memory: &mut Memory, page: u64, out: &mut Buffer) -> Act
    requires { page < pages }
    ensures { Did (page_saved memory.old page) result memory.new out.old out.new }
{
    let Some(drawer) = page_drawer(shadow(memory), page) else {
        return Act::Rests;
    };
    let kept = keep_page(memory, page, drawer, out);
    memory[PHASE] = Phase::Saving.into();
    memory[INDEX] = page;
    kept
}

// From this record on the memory's set is the one that it names; what else is to be done comes before the row is read on.
fn save_root(memory: &mut Memory, out: &mut Buffer) -> Act
    ensures { Did (root_saved memory.old) result memory.new out.old out.new }
{
    let root = Root {
        set: shadow(memory),
        hour: memory[HOUR],
        pos: memory[POS],
    };
    memory[SET] = root.set.into();
    memory[PAUSED] = 1;
    memory[KEPT] = root.pos;
    memory[PHASE] = Phase::Placing.into();
    keep_record(root, root_drawer(), out)
}

// The set that is written, so that the pages of the one in use stay whole.
fn shadow(memory: &Memory) -> PageSet
    ensures { result ≡ shadow_in memory.now }
{
    named_set(memory).shadow()
}

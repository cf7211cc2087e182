// Boot: a machine that wakes recalls from its drawers the root record, the pages that it names, and the cursor.
ghost use Rattle.std.specs.Prelude.{◌≡◌, ◌<◌, [], is_ok, if◌then◌else◌};
ghost use Rattle.sums.specs.Cells.{pages};
ghost use Rattle.protocol.specs.Limits.{crew};
ghost use Rattle.gauge.specs.Deeds.{Did};
ghost use Rattle.gauge.specs.Memory.{at, me_at};
ghost use Rattle.machine.specs.Boot.{woken, root_read, page_asked, root_recalled, has_reading, page_read, page_fits, page_recalled, with_filled, woke_to_all, cursor_recalled, recalled};

use gauge::memory::{
    COUNTS, CREW, CURSOR_HOUR, CURSOR_SLOT, FILLED, HOUR, INDEX, KEPT, ME, PAGE, PAUSED, PHASE,
    POS, SET, STAGE, SUMS, WOKE, WORD_SUMS, named_set,
};
use gauge::{Act, Memory, Phase, Stage, clear_tables, place, tell_all};
use store::drawers::{cursor_drawer, page_drawer, root_drawer};
use store::{Cursor, PageSet, Record, Root};
use sums::cells::PAGES;
use sums::pages::{PageError, decode_page};

// Memory is as at the start; the root record is asked for.
pub(crate) fn wake(memory: &mut Memory, me: u64) -> Act
    ensures { Did (woken memory.old me) result memory.new [] [] }
{
    if me >= CREW as u64 {
        return Act::Rests;
    }
    memory.fill(0);
    memory[ME] = me;
    memory[PHASE] = Phase::AsksRoot.into();
    Act::Recall(u64::from(root_drawer()))
}

// Takes in what the drawer holds that was asked for, by the phase, which the lent memory keeps as a number.
pub(crate) fn recall(memory: &mut Memory, bytes: &[u8]) -> Act
    requires { at memory.old me_at < crew }
    ensures { Did (recalled memory.old bytes.now) result memory.new [] [] }
{
    match Phase::try_from(memory[PHASE]) {
        Ok(Phase::AsksRoot) => recall_root(memory, bytes),
        Ok(Phase::AsksPage) => recall_page(memory, bytes),
        Ok(Phase::AsksCursor) => recall_cursor(memory, bytes),
        _ => Act::Rests,
    }
}

fn recall_root(memory: &mut Memory, bytes: &[u8]) -> Act
    ensures { Did (root_recalled memory.old bytes.now) result memory.new [] [] }
{
    let root = Root::decode(bytes);
    read_root(memory, root);
    ask_page(memory, root.set, 0)
}

// The reader stands at the root record, with no tables yet.
fn read_root(memory: &mut Memory, root: Root)
    ensures { memory.new ≡ root_read memory.old root }
{
    clear_tables(memory);
    memory[STAGE] = Stage::Begun.into();
    memory[HOUR] = root.hour;
    memory[POS] = root.pos;
    memory[SET] = root.set.into();
    memory[PAUSED] = 0;
    memory[KEPT] = root.pos;
}

// Asks for a page of the set, or, behind the last, for the cursor.
fn ask_page(memory: &mut Memory, set: PageSet, page: u64) -> Act
    ensures { Did (page_asked memory.old set page) result memory.new [] [] }
{
    let Some(drawer) = page_drawer(set, page) else {
        memory[PHASE] = Phase::AsksCursor.into();
        return Act::Recall(u64::from(cursor_drawer()));
    };
    memory[PHASE] = Phase::AsksPage.into();
    memory[INDEX] = page;
    Act::Recall(u64::from(drawer))
}

fn recall_page(memory: &mut Memory, bytes: &[u8]) -> Act
    ensures { Did (page_recalled memory.old bytes.now) result memory.new [] [] }
{
    let page = memory[INDEX];
    let set = named_set(memory);
    if page >= PAGES || read_page(memory, page, bytes).is_err() {
        return Act::Rests;
    }
    ask_page(memory, set, page + 1)
}

// Reads a page into its part of the tables.
fn read_page(memory: &mut Memory, page: u64, bytes: &[u8]) -> Result<(), PageError>
    requires { page < pages }
    ensures told { is_ok result ≡ page_fits bytes.now }
    ensures read { memory.new ≡ (if page_fits bytes.now then page_read memory.old page bytes.now else memory.old) }
{
    let at = PAGE * page as usize;
    let (front, counts) = memory.split_at_mut(COUNTS);
    let sums = &mut front[SUMS + at..SUMS + at + PAGE];
    decode_page(bytes, sums, &mut counts[at..at + PAGE])
}

fn recall_cursor(memory: &mut Memory, bytes: &[u8]) -> Act
    requires { at memory.old me_at < crew }
    ensures { Did (cursor_recalled memory.old bytes.now) result memory.new [] [] }
{
    let cursor = Cursor::decode(bytes);
    note_filled(memory);
    memory[CURSOR_HOUR] = cursor.hour;
    memory[CURSOR_SLOT] = cursor.cell;
    tell_all(memory);
    say_woke(memory);
    place(memory)
}

// Whether the tables have a reading is found out once they are whole.
fn note_filled(memory: &mut Memory)
    ensures { memory.new ≡ with_filled memory.old }
{
    memory[FILLED] = u64::from(has_reading(&memory[COUNTS..WORD_SUMS]));
}

fn has_reading(counts: &[u64]) -> bool
    ensures { result ≡ has_reading counts.now }
{
    counts.iter().any(|count| *count != 0)
}

// Each machine but this one is to be told that this one woke.
fn say_woke(memory: &mut Memory)
    requires { at memory.old me_at < crew }
    ensures { memory.new ≡ woke_to_all memory.old }
{
    let me = memory[ME] as usize;
    memory[WOKE..WOKE + CREW].fill(1);
    memory[WOKE + me] = 0;
}

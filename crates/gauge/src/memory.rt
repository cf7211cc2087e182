// The memory of a machine: named cells, a row of eight for each thing that is known of the eight machines, the tables of the hour at hand, and the page of each
// machine's last statement. It is a row of numbers that the caller lends, so it is no struct.
ghost use Rattle.std.specs.Prelude.{◌≡◌};
ghost use Rattle.gauge.specs.Gauge.{set_named};
ghost use Rattle.gauge.specs.Memory.{at, set_at};
ghost use Rattle.gauge.specs.Phases.{phase_number, PhaseSays, stage_number};

use store::PageSet;
use sums::cells::{PAGES, SLOTS};
use sums::reading::PLACES;

// How many machines there are: each adds up a page of places.
pub const CREW: usize = PAGES as usize;

// What is done next, by the number of the phase.
pub const PHASE: usize = 0;
// The page that is read or written, or the slot that was told.
pub const INDEX: usize = 1;
// The hour of the slot that was told.
pub const TELLING: usize = 2;
// Which machine it is.
pub const ME: usize = 3;
// What the reader stands for: the number of the stage, its hour, and the next hour, if there is one.
pub const STAGE: usize = 4;

pub const HOUR: usize = 5;

pub const NEXT: usize = 6;
// How many readings of the row are in the tables or told.
pub const POS: usize = 7;
// The page set that the root record names, by its number.
pub const SET: usize = 8;
// Whether other things are done before the row is read on: 0 or 1.
pub const PAUSED: usize = 9;
// The place of the root record.
pub const KEPT: usize = 10;
// Whether the tables have a reading: 0 or 1.
pub const FILLED: usize = 11;
// How far the sums of this machine's places are told.
pub const CURSOR_HOUR: usize = 12;

pub const CURSOR_SLOT: usize = 13;
// For each machine, its last statement, by number, with the hour and the next.
pub const WORD: usize = 14;

pub const WORD_HOUR: usize = WORD + CREW;

pub const WORD_NEXT: usize = WORD_HOUR + CREW;
// For each machine, the hour up to which it has told its places.
pub const PASSED: usize = WORD_NEXT + CREW;
// For each machine, whether there is something to say to it: 0 or 1.
pub const DUE: usize = PASSED + CREW;
// For each machine, whether it is to be told that this one woke: 0 or 1.
pub const WOKE: usize = DUE + CREW;
// The tables of the hour at hand: a sum and a count for each place.
pub const SUMS: usize = WOKE + CREW;

pub const COUNTS: usize = SUMS + PLACES as usize;
// The page of each machine's last statement.
pub const WORD_SUMS: usize = COUNTS + PLACES as usize;

pub const WORD_COUNTS: usize = WORD_SUMS + PLACES as usize;

pub const CELLS: usize = WORD_COUNTS + PLACES as usize;
// How many sums, and how many counts, a page has.
pub const PAGE: usize = SLOTS as usize;
// There is no next hour.
pub const NO_NEXT: u64 = u64::MAX;

pub type Memory = [u64; CELLS];
// How many bytes a drawer or a letter has at most.
pub const LETTER: usize = 4096;
// What is kept, or sent, stands at its front.
pub type Buffer = [u8; LETTER];

// The memory, or what it is told of, is none that a machine has.
#[derive(Clone, Copy, PartialEq, Eq, Debug)]
pub struct Garbled;

// The page set that the root record names; none where the number is that of no set.
pub fn named_set(memory: &Memory) -> PageSet
    ensures { result ≡ set_named (at memory.now set_at) }
{
    PageSet::try_from(memory[SET]).unwrap_or(PageSet::None)
}

// What is done next.
#[derive(Clone, Copy, PartialEq, Eq, Debug)]
pub enum Phase {
    Asleep,
    // It has asked for the root record, for a page of its set, for the cursor.
    AsksRoot,
    AsksPage,
    AsksCursor,
    // A root record is kept; the row is read from its place on.
    Placing,
    Placed,
    // Nothing is half done.
    Ready,
    // A sum is told; a page is kept.
    Noting,
    Saving,
}

// No phase has this number.
#[derive(Clone, Copy, PartialEq, Eq, Debug)]
pub struct UnknownPhase(pub u64);

impl From<Phase> for u64 {
    ghost from_gives = { λ phase n. n ≡ phase_number phase };

    fn from(phase: Phase) -> u64 {
        phase as u64
    }
}

impl TryFrom<u64> for Phase {
    type Error = UnknownPhase;

    ghost try_from_gives = { PhaseSays };

    fn try_from(number: u64) -> Result<Phase, UnknownPhase> {
        match number {
            0 => Ok(Phase::Asleep),
            1 => Ok(Phase::AsksRoot),
            2 => Ok(Phase::AsksPage),
            3 => Ok(Phase::AsksCursor),
            4 => Ok(Phase::Placing),
            5 => Ok(Phase::Placed),
            6 => Ok(Phase::Ready),
            7 => Ok(Phase::Noting),
            8 => Ok(Phase::Saving),
            _ => Err(UnknownPhase(number)),
        }
    }
}

// What a reader stands for: it reads, an hour is whole, or it has come to the end of its row.
#[derive(Clone, Copy, PartialEq, Eq, Debug)]
pub enum Stage {
    Begun,
    Whole,
    Ended,
}

impl From<Stage> for u64 {
    ghost from_gives = { λ stage n. n ≡ stage_number stage };

    fn from(stage: Stage) -> u64 {
        stage as u64
    }
}

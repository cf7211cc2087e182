// What comes to a machine of which nothing is half done, and what comes after what it did last.
ghost use Rattle.std.specs.Prelude.{◌<◌};
ghost use Rattle.protocol.specs.Limits.{crew};
ghost use Rattle.gauge.specs.Deeds.{Wrote};
ghost use Rattle.gauge.specs.Gauge.{read};
ghost use Rattle.gauge.specs.Memory.{at, me_at};
ghost use Rattle.exchange.specs.Mail.{with_letter};
ghost use Rattle.machine.specs.Machine.{absorbed, paused, finished, went_on};

use crate::choose::choose;
use exchange::{hear, note_cursor};
use gauge::memory::{KEPT, PAUSED, PHASE, POS};
use gauge::{Act, Buffer, Memory, Phase, end_row, place, read, release, save_first, save_next};

// How many readings behind the root record a checkpoint is worth, where no more come for now.
const HALF_ROLL: u64 = 2048;

// A reading is taken in, or shows that the hour is whole.
pub(crate) fn absorb_reading(
    memory: &mut Memory,
    time: u64,
    place: u64,
    value: u64,
    out: &mut Buffer,
) -> Act
    requires { at memory.old me_at < crew }
    ensures { Wrote (absorbed memory.old (read memory.old time place value)) result memory.new out.old out.new }
{
    let Ok(()) = read(memory, time, place, value) else {
        return Act::Rests;
    };
    choose(memory, out)
}

pub(crate) fn absorb_letter(memory: &mut Memory, from: u64, bytes: &[u8], out: &mut Buffer) -> Act
    requires { at memory.old me_at < crew }
    ensures { Wrote (absorbed memory.old (with_letter memory.old from bytes.now)) result memory.new out.old out.new }
{
    let Ok(()) = hear(memory, from, bytes) else {
        return Act::Rests;
    };
    choose(memory, out)
}

// No reading comes for now: a checkpoint, where there is half a roll to keep.
pub(crate) fn pause(memory: &mut Memory, out: &mut Buffer) -> Act
    requires { at memory.old me_at < crew }
    ensures { Wrote (paused memory.old) result memory.new out.old out.new }
{
    if memory[POS].saturating_sub(memory[KEPT]) >= HALF_ROLL {
        return save_first(memory, out);
    }
    memory[PAUSED] = 1;
    choose(memory, out)
}

// The row is at its end: a checkpoint, where there is anything to keep.
pub(crate) fn finish(memory: &mut Memory, out: &mut Buffer) -> Act
    requires { at memory.old me_at < crew }
    ensures { Wrote (finished memory.old) result memory.new out.old out.new }
{
    if memory[KEPT] < memory[POS] {
        return save_first(memory, out);
    }
    end_row(memory);
    choose(memory, out)
}

// What comes after what the machine did last. A phase that waits for something else rests.
pub(crate) fn go_on(memory: &mut Memory, out: &mut Buffer) -> Act
    requires { at memory.old me_at < crew }
    ensures { Wrote (went_on memory.old) result memory.new out.old out.new }
{
    let Ok(phase) = Phase::try_from(memory[PHASE]) else {
        return Act::Rests;
    };
    match phase {
        Phase::Placing => place(memory),
        Phase::Placed => release(memory),
        Phase::Ready => choose(memory, out),
        Phase::Noting => note_cursor(memory, out),
        Phase::Saving => save_next(memory, out),
        Phase::Asleep | Phase::AsksRoot | Phase::AsksPage | Phase::AsksCursor => Act::Rests,
    }
}

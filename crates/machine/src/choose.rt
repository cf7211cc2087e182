// What a machine does when nothing is half done: the first that applies of reading on, telling, going on, sending and resting.
ghost use Rattle.std.specs.Prelude.{◌<◌, Some, None};
ghost use Rattle.protocol.specs.Limits.{crew};
ghost use Rattle.gauge.specs.Deeds.{Wrote};
ghost use Rattle.gauge.specs.Memory.{at, me_at};
ghost use Rattle.machine.specs.Choose.{chooses, chosen};

use exchange::{may_go_on, next_due, next_slot, pass, ready_hour, send, tell};
use gauge::memory::{PAUSED, STAGE};
use gauge::{Act, Buffer, Memory, go_on};

pub(crate) fn choose(memory: &mut Memory, out: &mut Buffer) -> Act
    requires { at memory.old me_at < crew }
    ensures { Wrote (chooses memory.old) result memory.new out.old out.new }
{
    if memory[STAGE] == 0 && memory[PAUSED] == 0 {
        return Act::More;
    }
    let Some(hour) = ready_hour(memory) else {
        return go_on_or_say(memory, out);
    };
    tell_next(memory, hour, out)
}

// The next slot of the hour is told; where none is left, the hour is passed.
fn tell_next(memory: &mut Memory, hour: u64, out: &mut Buffer) -> Act
    requires { at memory.old me_at < crew }
    ensures { Wrote (chosen memory.old (Some hour)) result memory.new out.old out.new }
{
    match next_slot(memory, hour) {
        Some(slot) => tell(memory, hour, slot),
        None => pass(memory, hour, out),
    }
}

// Nothing can be told: the reader goes on, or something is said, or it rests.
fn go_on_or_say(memory: &mut Memory, out: &mut Buffer) -> Act
    ensures { Wrote (chosen memory.old None) result memory.new out.old out.new }
{
    if may_go_on(memory) {
        return go_on(memory);
    }
    let Some(to) = next_due(memory) else {
        memory[PAUSED] = 0;
        return Act::Rests;
    };
    send(memory, to, out)
}

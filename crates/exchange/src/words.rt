// What is heard of each machine: of others what they said last, and of its own reader what it stands for.
ghost use Rattle.std.specs.Prelude.{◌≡◌, ◌<◌};
ghost use Rattle.protocol.specs.Limits.{crew};
ghost use Rattle.protocol.specs.Memory.{heard_of, passed_of};
ghost use Rattle.gauge.specs.Memory.{at, stage_at, hour_at, next_at};
ghost use Rattle.gauge.specs.Views.{next_of, memory_of};
ghost use Rattle.exchange.specs.Mail.{said_of};
ghost use Rattle.exchange.specs.Words.{as_word, page_heard};

use crate::statement::Statement;
use gauge::Memory;
use gauge::memory::{
    CURSOR_HOUR, HOUR, ME, NEXT, NO_NEXT, PASSED, STAGE, WORD, WORD_HOUR, WORD_NEXT,
};

// The number of each statement, as the memory has it; any other is none.
pub(crate) const SAYS_BEGUN: u64 = 1;

pub(crate) const SAYS_WHOLE: u64 = 2;

pub(crate) const SAYS_ENDED: u64 = 3;

// An hour that a cell has, where it has one.
fn next_of(number: u64) -> Option<u64>
    ensures { result ≡ next_of number }
{
    (number != NO_NEXT).then_some(number)
}

// What this machine's reader says.
pub(crate) fn own(memory: &Memory) -> Statement
    ensures { result ≡ said_of (at memory.now stage_at) (at memory.now hour_at) (at memory.now next_at) }
{
    let hour = memory[HOUR];
    match memory[STAGE] {
        0 => Statement::Begun { hour },
        1 => Statement::Whole {
            hour,
            next: next_of(memory[NEXT]),
        },
        _ => Statement::Ended,
    }
}

// What is heard of a machine, if anything.
pub(crate) fn heard(memory: &Memory, machine: usize) -> Option<Statement>
    requires { machine < crew }
    ensures { heard_of (memory_of memory.now) machine ≡ as_word result (page_heard memory.now machine) }
{
    if machine as u64 == memory[ME] {
        return Some(own(memory));
    }
    let hour = memory[WORD_HOUR + machine];
    match memory[WORD + machine] {
        SAYS_BEGUN => Some(Statement::Begun { hour }),
        SAYS_WHOLE => Some(Statement::Whole {
            hour,
            next: next_of(memory[WORD_NEXT + machine]),
        }),
        SAYS_ENDED => Some(Statement::Ended),
        _ => None,
    }
}

// Up to which hour a machine has told its places.
pub(crate) fn passed(memory: &Memory, machine: usize) -> u64
    requires { machine < crew }
    ensures { result ≡ passed_of (memory_of memory.now) machine }
{
    if machine as u64 == memory[ME] {
        memory[CURSOR_HOUR]
    } else {
        memory[PASSED + machine]
    }
}

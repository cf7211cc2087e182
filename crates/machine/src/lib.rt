// One machine: what it is told, what it does then, and one step from the one to the other.
#![tactic(auto)]

ghost use Rattle.std.specs.Prelude.{◌≡◌, ◌<◌, ◌≤◌, length, MatchResult};
ghost use Rattle.gauge.specs.Deeds.{Wrote};
ghost use Rattle.machine.specs.Answers.{as_event};
ghost use Rattle.machine.specs.Entry.{bytes_of, StepSays, step_fits};
ghost use Rattle.machine.specs.Machine.{reacts};

use boot::{recall, wake};
use gauge::memory::{CELLS, CREW, ME, PHASE};
use gauge::{Buffer, Memory, Phase};
use handlers::{absorb_letter, absorb_reading, finish, go_on, pause};
use thiserror::Error;

mod boot;
mod choose;
mod handlers;

pub use gauge::Act;
pub use gauge::memory::LETTER;

#[derive(Clone, Copy)]
pub enum Event<'a> {
    // Which machine it is; its memory is as at the start.
    Wakes(u64),
    // A reading: time, place, value.
    Comes(u64, u64, u64),
    // No reading for now: too many are not released yet.
    Later,
    // The gauge has no more readings.
    Ends,
    // From a machine.
    Letter(u64, &'a [u8]),
    // What is in the drawer that was asked for.
    Slot(&'a [u8]),
    Next,
}

// Why a step was refused.
#[derive(Clone, Copy, PartialEq, Eq, Debug, Error)]
pub enum StepError {
    #[error("the memory is not as long as a machine's")]
    MemoryLength,
    #[error("a letter or a drawer has more than 4,096 bytes")]
    TooManyBytes,
    #[error("the buffer has fewer than 4,096 bytes")]
    BufferTooShort,
}

// How many numbers the memory has.
pub const MEMORY: usize = CELLS;
// How many machines there are, each with its gauge.
pub const MACHINES: u64 = 8;
// How many drawers a machine has.
pub const DRAWERS: u64 = 256;
// How many readings that are not released a roll has at most.
pub const ROLL: u64 = 4096;

impl<'a> Event<'a> {
    // What a letter or a drawer has.
    fn bytes(self) -> &'a [u8]
        ensures { result.now ≡ bytes_of (as_event self.entry) }
    {
        match self {
            Event::Letter(_, bytes) | Event::Slot(bytes) => bytes,
            _ => &[],
        }
    }
}

fn check_length(bytes: &[u8]) -> Result<(), StepError>
    ensures { MatchResult result (λ _. length bytes.now ≤ LETTER) (λ e. (e ≡ StepError.TooManyBytes) × (LETTER < length bytes.now)) }
{
    if bytes.len() > LETTER {
        return Err(StepError::TooManyBytes);
    }
    Ok(())
}

// What the machine does when it is told of an event. One that cannot come in its phase changes nothing.
fn react(memory: &mut Memory, event: Event<'_>, out: &mut Buffer) -> Act
    ensures { Wrote (reacts memory.old (as_event event.entry)) result memory.new out.old out.new }
{
    if let Event::Wakes(me) = event {
        return wake(memory, me);
    }
    if memory[ME] >= CREW as u64 {
        return Act::Rests;
    }
    match event {
        Event::Slot(bytes) => return recall(memory, bytes),
        Event::Next => return go_on(memory, out),
        _ => {}
    }
    if memory[PHASE] != u64::from(Phase::Ready) {
        return Act::Rests;
    }
    match event {
        Event::Comes(time, place, value) => absorb_reading(memory, time, place, value, out),
        Event::Later => pause(memory, out),
        Event::Ends => finish(memory, out),
        Event::Letter(from, bytes) => absorb_letter(memory, from, bytes, out),
        Event::Wakes(_) | Event::Slot(_) | Event::Next => Act::Rests,
    }
}

// One step: what the machine does when it is told of the event. What it sends or keeps stands at the front of the buffer.
pub fn step(memory: &mut [u64], event: Event<'_>, out: &mut [u8]) -> Result<Act, StepError>
    ensures { StepSays memory.old (as_event event.entry) out.old (step_fits memory.old (bytes_of (as_event event.entry)) out.old) result memory.new out.new }
{
    let Some(memory) = memory.as_mut_array::<MEMORY>() else {
        return Err(StepError::MemoryLength);
    };
    check_length(event.bytes())?;
    let Some(out) = out.first_chunk_mut::<LETTER>() else {
        return Err(StepError::BufferTooShort);
    };
    Ok(react(memory, event, out))
}

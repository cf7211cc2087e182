// What a machine does in its hut, act by act. A desk holds what its step left: memory and bytes.
ghost use Rattle.std.specs.Prelude.{◌≡◌, ℕ, List, [], ◌∷◌, IfOk, OnErr};
ghost use Rattle.machine.specs.Entry.{own};
ghost use Rattle.machine.specs.Run.{machine, wakes, set_nth, more, from, let_go, sends, keep, recall, tells, rests};
ghost use Rattle.sums.specs.Sums as given;
ghost use Rattle.sums.specs.Sums.{each, none_of};
ghost use Rattle.sums.specs.Readings.{as_row};
ghost use Rattle.hut.specs.Effects.{Did};
ghost use Rattle.hut.specs.declared.effect.Effect.TheVariants.{Asked};
ghost use Rattle.hut.specs.Played.{as_machine, as_event, as_pending, as_text, told_next};

use crate::effect::Effect;
use crate::hut::{Desk, Hut, Pending};
use crate::text::Text;
use machine::{DRAWERS, MACHINES, ROLL};
use rows::Row;
use std::alloc::{AllocError, Global};
use std::mem;
use sums::Reading;

fn put(drawers: &mut Vec<Text>, drawer: u64, text: Text)
    ensures { each as_text drawers.new.items ≡ set_nth (each as_text drawers.old.items) drawer (as_text text) }
{
    if let Some(place) = drawers.get_mut(drawer as usize) {
        *place = text;
    }
}

impl Hut {
    #[tactic(auto, unfolding(sums::specs::Sums::none_of))]
    pub fn rests(&self) -> bool
        ensures { result ≡ none_of (as_machine self.now).pending }
    {
        self.pending.is_none()
    }

    // It will be told this next.
    pub fn hear(&mut self, event: Pending)
        ensures { as_machine self.new ≡ told_next (as_machine self.old) self.old.memory.items (as_event event ∷ []) }
    {
        self.pending = Some(event);
    }

    // It is struck: memory as at the start, and its gauge is read from what is released on.
    pub fn fall(&mut self, i: u64)
        ensures { as_machine self.new ≡ machine own.start (wakes i ∷ []) self.old.gone self.old.gone (as_machine self.old).slots }
    {
        self.memory.fill(0);
        self.pending = Some(Pending::Wakes(i));
        self.reads_at = self.gone;
    }

    // Takes over the memory that the step left, and what it will be told next.
    pub fn turn(&mut self, desk: &mut Desk, pending: Option<Pending>)
        ensures { as_machine self.new ≡ told_next (as_machine self.old) desk.old.memory.items (as_pending pending) }
    {
        mem::swap(&mut self.memory, &mut desk.memory);
        self.pending = pending;
    }

    // The next reading; or that there is none, or, where the roll is full, that it comes later.
    fn next_reading(&mut self, row: &[Reading]) -> Pending
        ensures { (i : ℕ) (m : List ℕ) → Did (as_row row.now) i (as_machine self.old) m more (told_next (as_machine self.new) m (as_event result ∷ [])) Asked }
    {
        let Some(reading) = row.get(self.reads_at as usize) else {
            return Pending::Ends;
        };
        if self.reads_at.saturating_sub(self.gone) >= ROLL {
            return Pending::Later;
        }
        self.reads_at += 1;
        Pending::Comes(*reading)
    }

    pub fn more(&mut self, desk: &mut Desk, row: &[Reading]) -> Effect
        ensures { (i : ℕ) → Did (as_row row.now) i (as_machine self.old) desk.old.memory.items more (as_machine self.new) result }
    {
        let next = self.next_reading(row);
        self.turn(desk, Some(next));
        Effect::Asked
    }

    // Readings come from place p on, where that may be.
    pub fn read_from(&mut self, desk: &mut Desk, p: u64) -> Effect
        ensures { (rs : List given.Reading) (i : ℕ) → Did rs i (as_machine self.old) desk.old.memory.items (from p) (as_machine self.new) result }
    {
        if p < self.gone || p - self.gone > ROLL {
            return Effect::Fault;
        }
        self.reads_at = p;
        self.turn(desk, Some(Pending::Next));
        Effect::Sought(p)
    }

    // What is before place p is released, where that may be.
    pub fn release(&mut self, desk: &mut Desk, p: u64) -> Effect
        ensures { (rs : List given.Reading) (i : ℕ) → Did rs i (as_machine self.old) desk.old.memory.items (let_go p) (as_machine self.new) result }
    {
        if p < self.gone || p > self.reads_at {
            return Effect::Fault;
        }
        self.gone = p;
        self.turn(desk, Some(Pending::Next));
        Effect::Released(p)
    }

    // Machine i sends a text to another, if there is such another.
    pub(crate) fn send(&mut self, desk: &mut Desk, i: u64, reader: u64, text: Text) -> Effect
        ensures { (rs : List given.Reading) → Did rs i (as_machine self.old) desk.old.memory.items (sends reader (as_text text)) (as_machine self.new) result }
    {
        if reader >= MACHINES || reader == i {
            return Effect::Fault;
        }
        self.turn(desk, Some(Pending::Next));
        Effect::Sent(reader, text)
    }

    // A drawer has this text from now on, if there is such a drawer.
    pub fn keep(&mut self, desk: &mut Desk, drawer: u64, text: Text) -> Effect
        ensures { (rs : List given.Reading) (i : ℕ) → Did rs i (as_machine self.old) desk.old.memory.items (keep drawer (as_text text)) (as_machine self.new) result }
    {
        if drawer >= DRAWERS {
            return Effect::Fault;
        }
        put(&mut self.drawers, drawer, text);
        self.turn(desk, Some(Pending::Next));
        Effect::Kept(drawer)
    }

    // What a drawer has is told, if there is such a drawer. Where there is no room for its text, nothing is done.
    pub fn recall(
        &mut self,
        heap: Global,
        desk: &mut Desk,
        drawer: u64,
    ) -> Result<Effect, AllocError>
        ensures done { IfOk result (λ f. (rs : List given.Reading) (i : ℕ) → Did rs i (as_machine self.old) desk.old.memory.items (recall drawer) (as_machine self.new) f) }
        ensures unmoved { OnErr result (as_machine self.new ≡ as_machine self.old) }
    {
        if drawer >= DRAWERS {
            return Ok(Effect::Fault);
        }
        let text = Text::copied(heap, self.drawer(drawer))?;
        self.turn(desk, Some(Pending::Slot(text)));
        Ok(Effect::Recalled(drawer))
    }

    // A row for the wall.
    pub(crate) fn tell(&mut self, desk: &mut Desk, row: Row) -> Effect
        ensures { (rs : List given.Reading) (i : ℕ) → Did rs i (as_machine self.old) desk.old.memory.items (tells row.hour row.place row.sum) (as_machine self.new) result }
    {
        self.turn(desk, Some(Pending::Next));
        Effect::Told(row)
    }

    pub(crate) fn rest(&mut self, desk: &mut Desk) -> Effect
        ensures { (rs : List given.Reading) (i : ℕ) → Did rs i (as_machine self.old) desk.old.memory.items rests (as_machine self.new) result }
    {
        self.turn(desk, None);
        Effect::Rested
    }
}

// One step of a machine and its act, with what is seen of it outside.
ghost use Rattle.std.specs.Prelude.{◌≡◌, IfOk, OnErr};
ghost use Rattle.machine.specs.Answers.{act_back};
ghost use Rattle.sums.specs.Readings.{as_row};
ghost use Rattle.hut.specs.Played.{as_machine};
ghost use Rattle.hut.specs.Effects.{Did, Turned};

use crate::effect::Effect;
use crate::hut::{Desk, Hut};
use machine::Act;
use rows::Row;
use std::alloc::{AllocError, Global};
use sums::Reading;

impl Hut {
    // Machine i does the act of its step, which left memory and bytes on the desk. Where there is no room for a text, it has not moved.
    pub fn act(
        &mut self,
        heap: Global,
        desk: &mut Desk,
        row: &[Reading],
        i: u64,
        act: Act,
    ) -> Result<Effect, AllocError>
        ensures done { IfOk result (λ f. Did (as_row row.now) i (as_machine self.old) desk.old.memory.items (act_back act desk.old.out.items) (as_machine self.new) f) }
        ensures unmoved { OnErr result (as_machine self.new ≡ as_machine self.old) }
    {
        match act {
            Act::More => Ok(self.more(desk, row)),
            Act::From(place) => Ok(self.read_from(desk, place)),
            Act::LetGo(place) => Ok(self.release(desk, place)),
            Act::Sends(reader, len) => {
                let text = desk.text(heap, u64::from(len))?;
                Ok(self.send(desk, i, u64::from(reader), text))
            }
            Act::Keep(drawer, len) => {
                let text = desk.text(heap, u64::from(len))?;
                Ok(self.keep(desk, u64::from(drawer), text))
            }
            Act::Recall(drawer) => self.recall(heap, desk, drawer),
            Act::Tells(hour, place, sum) => Ok(self.tell(desk, Row { hour, place, sum })),
            Act::Rests => Ok(self.rest(desk)),
        }
    }

    // Machine i takes one step, and its act is done; none where it rests. Where there is no room for a text, it has not moved.
    pub fn take_turn(
        &mut self,
        heap: Global,
        desk: &mut Desk,
        row: &[Reading],
        i: u64,
    ) -> Result<Option<Effect>, AllocError>
        ensures done { IfOk result (λ f. Turned (as_row row.now) i (as_machine self.old) (as_machine self.new) f) }
        ensures unmoved { OnErr result (as_machine self.new ≡ as_machine self.old) }
    {
        let Some(act) = self.step(desk) else {
            return Ok(None);
        };
        Ok(Some(self.act(heap, desk, row, i, act)?))
    }
}

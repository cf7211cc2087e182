// Eight machines in their huts, the wires between them, and the wall.
ghost use Rattle.std.specs.Prelude.{◌≡◌, IfOk};
ghost use Rattle.machine.specs.Entry.{own};
ghost use Rattle.machine.specs.Run.{new_world};
ghost use Rattle.hut.specs.Effects.{posted};
ghost use Rattle.world.specs.Tallies.{none_counted};
ghost use Rattle.world.specs.Worlds.{as_world, HasRoom};

use crate::post::Letter;
use crate::tally::Tally;
use hut::{Desk, Effect, Hut};
use machine::MACHINES;
use rows::Row;
use std::alloc::{AllocError, Global};

#[derive(Drop)]
pub struct World {
    pub(crate) huts: Vec<Hut>,
    // In the order in which they were sent.
    pub(crate) wires: Vec<Letter>,
    // The wall.
    pub told: Vec<Row>,
    // Some machine did what there is not.
    pub fault: bool,
    pub(crate) desk: Desk,
    pub tally: Tally,
}

impl World {
    // All machines wake; nothing is on the wires or on the wall.
    pub fn new(heap: Global) -> Result<World, AllocError>
        ensures world { IfOk result (λ w. as_world w ≡ new_world own) }
        ensures counts { IfOk result (λ w. w.tally.counts ≡ none_counted) }
    {
        let mut huts = Vec::new(heap);
        for i in 0..MACHINES {
            huts.push(Hut::new(heap, i)?)?;
        }
        let desk = Desk::new(heap)?;
        Ok(World {
            huts,
            wires: Vec::new(heap),
            told: Vec::new(heap),
            fault: false,
            desk,
            tally: Tally::new(),
        })
    }

    // What is seen of an act of machine i: a row goes on the wall, a letter on the wires.
    pub(crate) fn post(&mut self, i: u64, effect: Effect)
        requires { HasRoom effect self.old.told self.old.wires }
        ensures world { as_world self.new ≡ posted (as_world self.old) i effect }
        ensures counts { self.new.tally.counts ≡ self.old.tally.counts }
    {
        match effect {
            Effect::Told(row) => self.told.push(row).unwrap(),
            Effect::Sent(reader, text) => self
                .wires
                .push(Letter {
                    sender: i,
                    reader,
                    text,
                })
                .unwrap(),
            Effect::Fault => self.fault = true,
            Effect::Asked
            | Effect::Sought(_)
            | Effect::Released(_)
            | Effect::Kept(_)
            | Effect::Recalled(_)
            | Effect::Rested => {}
        }
    }
}

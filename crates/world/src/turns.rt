// What happens to the world: machines work, letters come, lightning strikes, calm.
ghost use Rattle.std.specs.Prelude.{◌≡◌, false, [], ◌∷◌, IfOk, OnOk, OnErr};
ghost use Rattle.machine.specs.Entry.{own};
ghost use Rattle.machine.specs.Run.{machine_at, nth_row, poked, delivered, fallen, goes, works};
ghost use Rattle.sums.specs.Readings.{as_row, as_gauges};
ghost use Rattle.sums.specs.Sums.{none_of, or};
ghost use Rattle.world.specs.Rounds.{pokes, letters_to, a_round, all_rounds, written_out};
ghost use Rattle.world.specs.Tallies.{next_counted, acts_counted, all_counted};
ghost use Rattle.world.specs.Worlds.{as_world, MadeRoom, Went, took_place, Passed, CutShort};

use crate::post::Letter;
use crate::tally::Kind;
use crate::wires::{cut, take_letter};
use crate::world::World;
use hut::Pending;
use machine::{Act, MACHINES};
use river::Item;
use rows::Row;
use std::alloc::{AllocError, Global};
use sums::Reading;

// The row of gauge i, empty where there is no such gauge.
fn row_of(gauges: &[Vec<Reading>], i: u64) -> &[Reading]
    ensures { as_row result.now ≡ nth_row (as_gauges gauges.now) i }
{
    match gauges.get(i as usize) {
        Some(row) => row.as_slice(),
        None => &[],
    }
}

// Room for what an act adds: a row on the wall, a letter on the wires. Where it adds neither, no memory is asked for.
fn make_room(act: Act, told: &mut Vec<Row>, wires: &mut Vec<Letter>) -> Result<(), AllocError>
    ensures told { told.new.items ≡ told.old.items }
    ensures wires { wires.new.items ≡ wires.old.items }
    ensures room { MadeRoom act result told.old wires.old told.new wires.new }
{
    match act {
        Act::Tells(..) => told.reserve(1),
        Act::Sends(..) => wires.reserve(1),
        Act::More | Act::From(_) | Act::LetGo(_) | Act::Keep(..) | Act::Recall(_) | Act::Rests =>
            Ok(()),
    }
}

// Heap and gauges go along as two arguments: bound in one, they would only have a longer name in each contract.
impl World {
    // Machine i does nothing till something else happens: it rests, there is no such machine, or one is at fault.
    pub fn is_still(&self, i: u64) -> bool
        ensures { result ≡ or self.now.fault (none_of (machine_at (as_world self.now).machines i).pending) }
    {
        match self.huts.get(i as usize) {
            Some(hut) => self.fault || hut.rests(),
            None => true,
        }
    }

    // Machine i is told to go on, if it rests.
    fn poke(&mut self, i: u64)
        ensures world { as_world self.new ≡ poked (as_world self.old) i }
        ensures counts { self.new.tally.counts ≡ self.old.tally.counts }
    {
        let Some(hut) = self.huts.get_mut(i as usize) else {
            return;
        };
        if hut.rests() {
            hut.hear(Pending::Next);
        }
    }

    // The oldest letter from i to j comes, if j rests.
    fn deliver(&mut self, i: u64, j: u64)
        ensures world { as_world self.new ≡ delivered (as_world self.old) i j }
        ensures counts { self.new.tally.counts ≡ self.old.tally.counts }
    {
        let Some(hut) = self.huts.get_mut(j as usize) else {
            let _lost = take_letter(&mut self.wires, i, j);
            return;
        };
        if !hut.rests() {
            return;
        }
        if let Some(letter) = take_letter(&mut self.wires, i, j) {
            hut.hear(Pending::Letter(i, letter.text));
        }
    }

    // Machine i is struck: what is in memory and on its wires is gone.
    fn fall(&mut self, i: u64)
        ensures world { as_world self.new ≡ fallen own (as_world self.old) i }
        ensures counts { self.new.tally.counts ≡ self.old.tally.counts }
    {
        cut(&mut self.wires, i);
        if let Some(hut) = self.huts.get_mut(i as usize) {
            hut.fall(i);
        }
    }

    // One step of machine i and its act; false where it rests. Where there is no room for what comes of it, the machine has not moved.
    fn step(&mut self, heap: Global, gauges: &[Vec<Reading>], i: u64) -> Result<bool, AllocError>
        ensures world { IfOk result (λ go. Went (as_gauges gauges.now) (as_world self.old) i go (as_world self.new)) }
        ensures counts { OnOk result (self.old.fault ≡ false → self.new.tally.counts ≡ next_counted (as_gauges gauges.now) (as_world self.old) i (machine_at (as_world self.old).machines i).pending self.old.tally.counts) }
        ensures unmoved { OnErr result ((as_world self.new ≡ as_world self.old) × (self.new.tally.counts ≡ self.old.tally.counts)) }
    {
        let Some(hut) = self.huts.get_mut(i as usize) else {
            return Ok(false);
        };
        let Some(act) = hut.step(&mut self.desk) else {
            return Ok(false);
        };
        make_room(act, &mut self.told, &mut self.wires)?;
        let row = row_of(gauges, i);
        let effect = hut.act(heap, &mut self.desk, row, i, act)?;
        let kind = Kind::from(&effect);
        self.post(i, effect);
        self.tally.count(kind);
        Ok(true)
    }

    // Machine i does so many acts at most, till it rests.
    fn work(
        &mut self,
        heap: Global,
        gauges: &[Vec<Reading>],
        i: u64,
        acts: u64,
    ) -> Result<(), AllocError>
        ensures world { OnOk result (as_world self.new ≡ goes acts own (as_gauges gauges.now) (as_world self.old) i) }
        ensures counts { OnOk result (self.new.tally.counts ≡ acts_counted acts (as_gauges gauges.now) (as_world self.old) i self.old.tally.counts) }
        ensures short { OnErr result (CutShort (as_gauges gauges.now) (as_world self.old) self.old.tally.counts (works i acts ∷ []) (as_world self.new) self.new.tally.counts) }
    {
        for _ in 0..acts {
            if self.fault {
                return Ok(());
            }
            if !self.step(heap, gauges, i)? {
                return Ok(());
            }
        }
        Ok(())
    }

    // Each machine is poked and works. `bring_all` is another function: each half of a round has its definition, and a closure a clause as long as this loop.
    fn poke_all(
        &mut self,
        heap: Global,
        gauges: &[Vec<Reading>],
        acts: u64,
    ) -> Result<(), AllocError>
        ensures passed { OnOk result (Passed (as_gauges gauges.now) (as_world self.old) self.old.tally.counts (pokes acts) (as_world self.new) self.new.tally.counts) }
        ensures short { OnErr result (CutShort (as_gauges gauges.now) (as_world self.old) self.old.tally.counts (pokes acts) (as_world self.new) self.new.tally.counts) }
    {
        for i in 0..MACHINES {
            self.poke(i);
            self.work(heap, gauges, i, acts)?;
        }
        Ok(())
    }

    // One letter from each machine comes to j, and j works each time.
    fn bring_all(
        &mut self,
        heap: Global,
        gauges: &[Vec<Reading>],
        j: u64,
        acts: u64,
    ) -> Result<(), AllocError>
        ensures passed { OnOk result (Passed (as_gauges gauges.now) (as_world self.old) self.old.tally.counts (letters_to acts j) (as_world self.new) self.new.tally.counts) }
        ensures short { OnErr result (CutShort (as_gauges gauges.now) (as_world self.old) self.old.tally.counts (letters_to acts j) (as_world self.new) self.new.tally.counts) }
    {
        for i in 0..MACHINES {
            self.deliver(i, j);
            self.work(heap, gauges, j, acts)?;
        }
        Ok(())
    }

    fn round(&mut self, heap: Global, gauges: &[Vec<Reading>], acts: u64) -> Result<(), AllocError>
        ensures passed { OnOk result (Passed (as_gauges gauges.now) (as_world self.old) self.old.tally.counts (a_round acts) (as_world self.new) self.new.tally.counts) }
        ensures short { OnErr result (CutShort (as_gauges gauges.now) (as_world self.old) self.old.tally.counts (a_round acts) (as_world self.new) self.new.tally.counts) }
    {
        self.poke_all(heap, gauges, acts)?;
        for j in 0..MACHINES {
            self.bring_all(heap, gauges, j, acts)?;
        }
        Ok(())
    }

    // Rounds in which nothing falls.
    fn calm(
        &mut self,
        heap: Global,
        gauges: &[Vec<Reading>],
        rounds: u64,
        acts: u64,
    ) -> Result<(), AllocError>
        ensures passed { OnOk result (Passed (as_gauges gauges.now) (as_world self.old) self.old.tally.counts (all_rounds rounds acts) (as_world self.new) self.new.tally.counts) }
        ensures short { OnErr result (CutShort (as_gauges gauges.now) (as_world self.old) self.old.tally.counts (all_rounds rounds acts) (as_world self.new) self.new.tally.counts) }
    {
        for _ in 0..rounds {
            self.round(heap, gauges, acts)?;
        }
        Ok(())
    }

    // One thing that happens. Where there is no room, it is cut short between two acts.
    #[tactic(auto, using(crate::proofs::Unrolling::calm_goes), unfolding(machine::specs::Run::happened, crate::specs::Tallies::all_counted))]
    pub fn happen(
        &mut self,
        heap: Global,
        gauges: &[Vec<Reading>],
        item: Item,
    ) -> Result<(), AllocError>
        ensures world { OnOk result (as_world self.new ≡ took_place (as_gauges gauges.now) (as_world self.old) item) }
        ensures counts { OnOk result (self.new.tally.counts ≡ all_counted (as_gauges gauges.now) (as_world self.old) (written_out item) self.old.tally.counts) }
        ensures short { OnErr result (CutShort (as_gauges gauges.now) (as_world self.old) self.old.tally.counts (written_out item) (as_world self.new) self.new.tally.counts) }
    {
        match item {
            Item::Works(i, acts) => self.work(heap, gauges, i, acts)?,
            Item::Poke(i) => self.poke(i),
            Item::Brings(i, j) => self.deliver(i, j),
            Item::Falls(i) => self.fall(i),
            Item::Calm(rounds, acts) => self.calm(heap, gauges, rounds, acts)?,
        }
        Ok(())
    }
}

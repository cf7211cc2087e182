// A river while it is played: in portions, so that rows are seen soon, and how far it is.
ghost use Rattle.std.specs.Prelude.{◌≡◌, ◌≤◌, true, [], ◌∷◌, OnOk, length, drop};
ghost use Rattle.std.specs.Io.KnownBytes.{Appends, Keeps};
ghost use Rattle.machine.specs.Run.{works};
ghost use Rattle.sums.specs.Readings.{as_gauges};
ghost use Rattle.rows.specs.Walls.{as_wall};
ghost use Rattle.world.specs.Rounds.{all_rounds, written_out};
ghost use Rattle.world.specs.Worlds.{as_world};
ghost use Rattle.play.specs.Plays.{unrolled};
ghost use Rattle.report.specs.Printed.{wall_text};
ghost use Rattle.playback.specs.Stages.{PlaysOn};

use machine::MACHINES;
use report::{Progress, print_rows};
use river::Item;
use rows::Row;
use status::Failure;
use std::io::Write;
use sums::Reading;
use world::{Kind, World};

// A machine does so many acts at most between two looks at the clock: about a third of a second.
const PORTION: u64 = 1 << 20;
// In a round each machine has a turn, and one for each letter.
const TURNS: u64 = MACHINES + MACHINES * MACHINES;

// How many acts there are at most in all that happens.
fn acts_at_most(items: &[Item]) -> u64 {
    items.iter().fold(0, |sum: u64, item| {
        sum.saturating_add(match item {
            Item::Works(_, acts) => *acts,
            Item::Calm(rounds, acts) => TURNS.saturating_mul(*rounds).saturating_mul(*acts),
            Item::Poke(_) | Item::Brings(..) | Item::Falls(_) => 0,
        })
    })
}

#[derive(Clone, Copy)]
pub struct Stage<'a> {
    rt: &'a HostRuntime,
    gauges: &'a [Vec<Reading>],
    // Whether rows are printed as they are told.
    rows: bool,
    // All readings, and the acts that there are at most.
    readings: u64,
    acts: u64,
}

impl<'a> Stage<'a> {
    pub fn new(
        rt: &'a HostRuntime,
        gauges: &'a [Vec<Reading>],
        items: &[Item],
        rows: bool,
    ) -> Stage<'a>
        ensures gauges { result.gauges.now ≡ gauges.now }
        ensures rows { result.rows ≡ rows }
    {
        Stage {
            rt,
            gauges,
            rows,
            readings: play::count_readings(gauges),
            acts: acts_at_most(items),
        }
    }

    // Of readings and acts, those of which the greater part is done tell how far it is: with many strokes acts are soon done, and where machines work till they rest most acts are never done.
    fn tell<W: Write>(
        &self,
        out: &mut W,
        progress: &mut Progress<'_>,
        world: &World,
    ) -> Result<(), Failure>
        ensures { OnOk result (Keeps (W.contents out.old) (W.contents out.new)) }
    {
        let acts = world.tally.total();
        let read = world.tally.of(Kind::Asked).min(self.readings);
        if u128::from(read) * u128::from(self.acts) > u128::from(acts) * u128::from(self.readings) {
            progress.reach(out, read, self.readings, "readings")?;
        } else {
            progress.reach(out, acts, self.acts, "acts")?;
        }
        Ok(())
    }

    // Prints the rows behind those that were shown.
    fn show<W: Write>(&self, out: &mut W, told: &[Row], shown: usize) -> Result<(), Failure>
        requires { shown ≤ length told.now }
        ensures { OnOk result (self.now.rows ≡ true → Appends (W.contents out.old) (W.contents out.new) (wall_text (as_wall (drop shown told.now)))) }
    {
        if !self.rows {
            return Ok(());
        }
        let (_, since) = told.split_at(shown);
        print_rows(out, since)?;
        Ok(())
    }

    // One thing that happens at once, and the rows that are told meanwhile.
    fn line<W: Write>(&self, out: &mut W, world: &mut World, item: Item) -> Result<(), Failure>
        ensures { OnOk result (PlaysOn (as_gauges self.now.gauges.now) self.now.rows (as_world world.old) (written_out item) (as_world world.new) (W.contents out.old) (W.contents out.new)) }
    {
        let shown = world.told.len();
        world.happen(self.rt.alloc(), self.gauges, item)?;
        self.show(out, world.told.as_slice(), shown)
    }

    // The same, and then how far it is.
    fn portion<W: Write>(
        &self,
        out: &mut W,
        progress: &mut Progress<'_>,
        world: &mut World,
        item: Item,
    ) -> Result<(), Failure>
        ensures { OnOk result (PlaysOn (as_gauges self.now.gauges.now) self.now.rows (as_world world.old) (written_out item) (as_world world.new) (W.contents out.old) (W.contents out.new)) }
    {
        self.line(out, world, item)?;
        self.tell(out, progress, world)
    }

    // Machine i does so many acts at most, till it rests.
    fn work<W: Write>(
        &self,
        out: &mut W,
        progress: &mut Progress<'_>,
        world: &mut World,
        i: u64,
        acts: u64,
    ) -> Result<(), Failure>
        ensures { OnOk result (PlaysOn (as_gauges self.now.gauges.now) self.now.rows (as_world world.old) (works i acts ∷ []) (as_world world.new) (W.contents out.old) (W.contents out.new)) }
    {
        for _ in 0..acts / PORTION {
            self.portion(out, progress, world, Item::Works(i, PORTION))?;
            if world.is_still(i) {
                return Ok(());
            }
        }
        self.portion(out, progress, world, Item::Works(i, acts % PORTION))
    }

    // One thing that happens; calm at once.
    fn turn<W: Write>(
        &self,
        out: &mut W,
        progress: &mut Progress<'_>,
        world: &mut World,
        item: Item,
    ) -> Result<(), Failure>
        ensures { OnOk result (PlaysOn (as_gauges self.now.gauges.now) self.now.rows (as_world world.old) (written_out item) (as_world world.new) (W.contents out.old) (W.contents out.new)) }
    {
        match item {
            Item::Works(i, acts) => self.work(out, progress, world, i, acts),
            _ => self.portion(out, progress, world, item),
        }
    }

    fn turns<W: Write>(
        &self,
        out: &mut W,
        progress: &mut Progress<'_>,
        world: &mut World,
        items: &[Item],
    ) -> Result<(), Failure>
        ensures { OnOk result (PlaysOn (as_gauges self.now.gauges.now) self.now.rows (as_world world.old) (unrolled items.now) (as_world world.new) (W.contents out.old) (W.contents out.new)) }
    {
        for item in items {
            self.turn(out, progress, world, *item)?;
        }
        Ok(())
    }

    // Rounds in which nothing falls, turn by turn.
    fn calm<W: Write>(
        &self,
        out: &mut W,
        progress: &mut Progress<'_>,
        world: &mut World,
        rounds: u64,
        acts: u64,
    ) -> Result<(), Failure>
        ensures { OnOk result (PlaysOn (as_gauges self.now.gauges.now) self.now.rows (as_world world.old) (all_rounds rounds acts) (as_world world.new) (W.contents out.old) (W.contents out.new)) }
    {
        let round = play::round(self.rt.alloc(), acts)?;
        for _ in 0..rounds {
            self.turns(out, progress, world, round.as_slice())?;
        }
        Ok(())
    }

    // One thing that happens; at once, where nothing is said meanwhile.
    fn happen<W: Write>(
        &self,
        out: &mut W,
        progress: &mut Progress<'_>,
        world: &mut World,
        item: Item,
    ) -> Result<(), Failure>
        ensures { OnOk result (PlaysOn (as_gauges self.now.gauges.now) self.now.rows (as_world world.old) (written_out item) (as_world world.new) (W.contents out.old) (W.contents out.new)) }
    {
        if progress.is_silent() {
            return self.line(out, world, item);
        }
        match item {
            Item::Calm(rounds, acts) => self.calm(out, progress, world, rounds, acts),
            _ => self.turn(out, progress, world, item),
        }
    }

    // All that happens.
    pub fn play<W: Write>(
        &self,
        out: &mut W,
        progress: &mut Progress<'_>,
        world: &mut World,
        items: &[Item],
    ) -> Result<(), Failure>
        ensures { OnOk result (PlaysOn (as_gauges self.now.gauges.now) self.now.rows (as_world world.old) (unrolled items.now) (as_world world.new) (W.contents out.old) (W.contents out.new)) }
    {
        for item in items {
            self.happen(out, progress, world, *item)?;
        }
        Ok(())
    }
}

// What is counted of rivers that were played.
ghost use Rattle.std.specs.Prelude.{◌≡◌, ◌+◌, ◌*◌, ◌/◌, ◌%◌, ◌<◌, IfOk, MatchOption};
ghost use Rattle.sums.specs.Again.{told_again};
ghost use Rattle.sums.specs.Readings.{as_gauges};
ghost use Rattle.machine.specs.Entry.{own};
ghost use Rattle.machine.specs.Run.{new_world};
ghost use Rattle.rows.specs.Walls.{as_wall};
ghost use Rattle.world.specs.Tallies.{none_counted};
ghost use Rattle.play.specs.Plays.{unrolled};
ghost use Rattle.play.specs.Scores.{acts_of_each, all_strokes};

use machine::MACHINES;
use river::Item;
use rows::Row;
use std::alloc::{AllocError, Global};
use std::collections::BTreeSet;
use std::fmt;
use sums::Reading;
use world::World;

// How many acts each item takes, where all are played from the start.
pub fn acts_of(
    heap: Global,
    gauges: &[Vec<Reading>],
    items: &[Item],
) -> Result<Vec<u64>, AllocError>
    ensures { IfOk result (λ v. v.items ≡ acts_of_each (as_gauges gauges.now) (new_world own) none_counted items.now) }
{
    let mut world = World::new(heap)?;
    let mut acts = Vec::new(heap);
    for item in items {
        let before = world.tally.total();
        world.happen(heap, gauges, *item)?;
        acts.push(world.tally.total().saturating_sub(before))?;
    }
    Ok(acts)
}

// How many rows are of an hour and a place that was told before.
pub fn told_again(heap: Global, told: &[Row]) -> Result<u64, AllocError>
    ensures { IfOk result (λ n. n ≡ told_again (as_wall told.now)) }
{
    let mut seen = BTreeSet::new(heap);
    let mut again: u64 = 0;
    // A loop and no chain, since to keep a key can fail.
    for row in told {
        if !seen.insert(row.key())? {
            again += 1;
        }
    }
    Ok(again)
}

// How often lightning strikes any of the machines; in calm it strikes none.
pub fn strokes_of(items: &[Item]) -> u64
    ensures { result ≡ all_strokes (unrolled items.now) }
{
    let strokes = items.iter().filter(
        |item| matches!(item, Item::Falls(machine) if *machine < MACHINES),
    );
    strokes.count() as u64
}

// A quotient with two decimals, rounded down.
#[derive(Clone, Copy, PartialEq, Eq, Debug)]
pub struct Ratio {
    pub whole: u64,
    pub hundredths: u64,
}

impl Ratio {
    // None where there is nothing to divide by.
    pub fn new(of: u64, to: u64) -> Option<Ratio>
        ensures { MatchOption result (to ≡ 0) (λ q. (0 < to) × (q.whole ≡ of / to) × (q.hundredths ≡ of % to * 100 / to)) }
    {
        if to == 0 {
            return None;
        }
        let rest = u128::from(of % to);
        let hundredths = (rest * 100 / u128::from(to)) as u64;
        Some(Ratio {
            whole: of / to,
            hundredths,
        })
    }
}

impl fmt::Display for Ratio {
    fn fmt<W: fmt::Write>(&self, f: &mut fmt::Formatter<W>) -> fmt::Result {
        let Ratio { whole, hundredths } = *self;
        write!(f, "{whole}.{hundredths:02}")
    }
}

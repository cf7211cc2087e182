// A river played from the start.
ghost use Rattle.std.specs.Prelude.{◌≡◌, true, IfOk};
ghost use Rattle.sums.specs.Sums.{gauges_fine};
ghost use Rattle.sums.specs.Readings.{as_gauges};
ghost use Rattle.machine.specs.Entry.{own};
ghost use Rattle.machine.specs.Run.{new_world};
ghost use Rattle.promise.specs.Promise.{Safe};
ghost use Rattle.world.specs.Tallies.{none_counted, all_counted};
ghost use Rattle.world.specs.Worlds.{as_world};
ghost use Rattle.play.specs.Plays.{unrolled, played};

use river::Item;
use std::alloc::{AllocError, Global};
use sums::Reading;
use world::World;

// The world after all these items, from the start, and each act of it counted once. Nothing is at fault in it, and every row on its wall is right.
pub fn play(heap: Global, gauges: &[Vec<Reading>], items: &[Item]) -> Result<World, AllocError>
    ensures world { IfOk result (λ w. as_world w ≡ played (as_gauges gauges.now) items.now) }
    ensures counts { IfOk result (λ w. w.tally.counts ≡ all_counted (as_gauges gauges.now) (new_world own) (unrolled items.now) none_counted) }
    ensures right { IfOk result (λ w. gauges_fine (as_gauges gauges.now) ≡ true → Safe (as_gauges gauges.now) (as_world w)) }
{
    let mut world = World::new(heap)?;
    for item in items {
        world.happen(heap, gauges, *item)?;
    }
    Ok(world)
}

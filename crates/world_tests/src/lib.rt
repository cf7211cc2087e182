// Long rivers of one gauge, played under lightning: the wall is right, and all is told.
#![tactic(auto)]

#[cfg(test)]
mod tests {
    use hut::{Desk, Effect, Hut};
    use river::{Item, parse};
    use std::alloc::Global;
    use std::process::Abort;
    use std::test::Fail;
    use sums::Reading;
    use world::World;

    // Eight gauges, of which the first has an hour of so many readings and then another.
    fn two_hours(heap: Global, first: u64, second: u64) -> Result<Vec<Vec<Reading>>, Fail> {
        let mut gauges = parse(heap, "")?.gauges;
        for i in 0..first {
            add(&mut gauges, 0, i)?;
        }
        for i in 0..second {
            add(&mut gauges, 100, i)?;
        }
        Ok(gauges)
    }

    // One reading more: places by turns, values 0 to 4.
    fn add(gauges: &mut Vec<Vec<Reading>>, time: u64, i: u64) -> Result<(), Fail> {
        let Ok(reading) = Reading::new(time, i % 1024, i % 5) else {
            return Err(Fail::new("this is a reading"));
        };
        let Some(row) = gauges.as_mut_slice().first_mut() else {
            return Err(Fail::new("there is a gauge"));
        };
        row.push(reading)?;
        Ok(())
    }

    // The first machine does so many acts and is struck, twice in a row.
    fn strike(
        world: &mut World,
        heap: Global,
        gauges: &[Vec<Reading>],
        acts: u64,
    ) -> Result<(), Fail> {
        world.happen(heap, gauges, Item::Works(0, acts))?;
        world.happen(heap, gauges, Item::Falls(0))?;
        world.happen(heap, gauges, Item::Falls(0))?;
        Ok(())
    }

    // Struck after each number of acts from the one to the other, and then left in peace.
    fn played(heap: Global, gauges: &[Vec<Reading>], from: u64, to: u64) -> Result<World, Fail> {
        let mut world = World::new(heap)?;
        for acts in from..to {
            strike(&mut world, heap, gauges, acts)?;
        }
        world.happen(heap, gauges, Item::Calm(60, 1_000_000))?;
        Ok(world)
    }

    fn check_wall(
        rt: &impl Abort,
        heap: Global,
        gauges: &[Vec<Reading>],
        world: &World,
    ) -> Result<(), Fail> {
        let comparison = rows::compare(heap, gauges, world.told.as_slice())?;
        assert!(rt; !world.fault);
        assert_eq!(rt; comparison.wrong, 0);
        assert_eq!(rt; comparison.untold.len(), 0);
        Ok(())
    }

    // With 4,096 readings on the roll, pages, root and release are the acts from 4,102 to 4,113 or so.
    #[test]
    fn hours_longer_than_the_roll(rt: HostRuntime) -> Result<(), Fail> {
        let heap = rt.alloc();
        let gauges = two_hours(heap, 5000, 9000)?;
        let world = played(heap, gauges.as_slice(), 4098, 4122)?;
        check_wall(&rt, heap, gauges.as_slice(), &world)?;
        assert_eq!(rt; world.told.len(), 2048);
        Ok(())
    }

    #[test]
    fn hours_as_long_as_the_roll(rt: HostRuntime) -> Result<(), Fail> {
        let heap = rt.alloc();
        let gauges = two_hours(heap, 4096, 4097)?;
        let world = played(heap, gauges.as_slice(), 4098, 4122)?;
        check_wall(&rt, heap, gauges.as_slice(), &world)
    }

    // A machine that wakes steps, and its act is done.
    #[test]
    fn an_act_is_done(rt: HostRuntime) -> Result<(), Fail> {
        let heap = rt.alloc();
        let mut desk = Desk::new(heap)?;
        let mut hut = Hut::new(heap, 0)?;
        let Some(act) = hut.step(&mut desk) else {
            return Err(Fail::new("it does not rest"));
        };
        let effect = hut.act(heap, &mut desk, &[], 0, act)?;
        assert!(rt; matches!(effect, Effect::Recalled(_)));
        assert!(rt; !hut.rests());
        Ok(())
    }

    // Each of the first acts of boot, reading, telling and keeping.
    #[test]
    fn struck_at_every_act(rt: HostRuntime) -> Result<(), Fail> {
        let heap = rt.alloc();
        let gauges = two_hours(heap, 3, 2)?;
        let world = played(heap, gauges.as_slice(), 0, 40)?;
        check_wall(&rt, heap, gauges.as_slice(), &world)
    }

    #[test]
    fn all_places(rt: HostRuntime) -> Result<(), Fail> {
        let heap = rt.alloc();
        let gauges = two_hours(heap, 1024, 1024)?;
        let world = played(heap, gauges.as_slice(), 1029, 1061)?;
        check_wall(&rt, heap, gauges.as_slice(), &world)
    }
}

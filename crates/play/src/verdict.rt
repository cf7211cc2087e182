// What is to be said of a river that was played.
ghost use Rattle.std.specs.Prelude.{◌≡◌, ◌↔◌, true, IfOk, IfErr, Some, vec_len};
ghost use Rattle.sums.specs.Readings.{as_gauges};
ghost use Rattle.sums.specs.Sums.{all_told};
ghost use Rattle.rows.specs.Walls.{TooMuch, as_wall, wrong_rows};
ghost use Rattle.world.specs.Worlds.{as_world};
ghost use Rattle.play.specs.Verdicts.{AreUntold, verdict_of, said_of};

use rows::{Comparison, WallError};
use std::alloc::Global;
use std::fmt;
use sums::Reading;
use world::World;

#[derive(Clone, Copy, PartialEq, Eq, Debug)]
pub enum Verdict {
    // A machine did what there is not.
    Fault,
    // A row that is not right is on the wall.
    Wrong,
    // Something that is to be told was not.
    Untold,
    Right,
}

impl fmt::Display for Verdict {
    ghost output = { λ v. Some (said_of v) };

    fn fmt<W: fmt::Write>(&self, f: &mut fmt::Formatter<W>) -> fmt::Result {
        f.write_str(match self {
            Verdict::Fault => "a machine is at fault",
            Verdict::Wrong => "what is told is wrong",
            Verdict::Untold => "what is told is right, and not all is told",
            Verdict::Right => "what is told is right, and all is told",
        })
    }
}

// A verdict, and what it rests on.
#[derive(Drop)]
pub struct Judgement {
    pub verdict: Verdict,
    pub comparison: Comparison,
}

// The world that was played, beside what the gauges read.
pub fn judge(heap: Global, gauges: &[Vec<Reading>], world: &World) -> Result<Judgement, WallError>
    ensures wrong { IfOk result (λ j. j.comparison.wrong ≡ wrong_rows (as_gauges gauges.now) (as_world world.now).told) }
    ensures untold { IfOk result (λ j. AreUntold (as_gauges gauges.now) (as_world world.now).told (as_wall j.comparison.untold.items)) }
    ensures none_untold { IfOk result (λ j. (vec_len j.comparison.untold ≡ 0) ↔ (all_told (as_gauges gauges.now) (as_world world.now).told ≡ true)) }
    ensures verdict { IfOk result (λ j. j.verdict ≡ verdict_of (as_gauges gauges.now) (as_world world.now)) }
    ensures refused { IfErr result (λ e. TooMuch (as_gauges gauges.now) e) }
{
    let comparison = rows::compare(heap, gauges, world.told.as_slice())?;
    let verdict = if world.fault {
        Verdict::Fault
    } else if comparison.wrong > 0 {
        Verdict::Wrong
    } else if comparison.untold.is_empty() {
        Verdict::Right
    } else {
        Verdict::Untold
    };
    Ok(Judgement {
        verdict,
        comparison,
    })
}

// Rivers played and judged, and what came of them added up.
ghost use Rattle.std.specs.Prelude.{◌≡◌, true, IfOk, IfErr};
ghost use Rattle.sums.specs.Sums.{pick, all_told, gauges_fine};
ghost use Rattle.sums.specs.Readings.{as_gauges};
ghost use Rattle.rows.specs.Walls.{TooMuch};
ghost use Rattle.world.specs.Worlds.{as_world};
ghost use Rattle.play.specs.Plays.{unrolled, played};
ghost use Rattle.play.specs.Trials.{all_right, both, readings_after, Scores};
ghost use Rattle.play.specs.Verdicts.{verdict_of};
ghost use Rattle.play.specs.declared.verdict.Verdict.TheVariants.{Untold as NotAll, Right as AllRight};

use crate::playing::play;
use crate::score::{strokes_of, told_again};
use crate::verdict::{Judgement, Verdict, judge};
use river::Item;
use rows::WallError;
use std::alloc::Global;
use std::fmt;
use sums::Reading;
use world::World;

#[derive(Clone, Copy, PartialEq, Eq, Debug)]
pub struct Score {
    // How many worlds were played.
    pub worlds: u64,
    pub readings: u64,
    // How many rows are on the walls, and how many of them were told before.
    pub told: u64,
    pub again: u64,
    // On how many walls more rows were told before than there were strokes.
    pub too_often: u64,
    pub wrong: u64,
    pub untold: u64,
    pub faults: u64,
}

impl Score {
    pub const NONE: Score = Score {
        worlds: 0,
        readings: 0,
        told: 0,
        again: 0,
        too_often: 0,
        wrong: 0,
        untold: 0,
        faults: 0,
    };

    // Nothing is told too often, wrong, untold or at fault.
    pub fn is_right(self) -> bool
        ensures { result ≡ all_right self }
    {
        self.too_often == 0 && self.wrong == 0 && self.untold == 0 && self.faults == 0
    }

    // Both together; a count that is full stays full.
    pub fn plus(self, other: Score) -> Score
        ensures { result ≡ both self other }
    {
        Score {
            worlds: self.worlds.saturating_add(other.worlds),
            readings: self.readings.saturating_add(other.readings),
            told: self.told.saturating_add(other.told),
            again: self.again.saturating_add(other.again),
            too_often: self.too_often.saturating_add(other.too_often),
            wrong: self.wrong.saturating_add(other.wrong),
            untold: self.untold.saturating_add(other.untold),
            faults: self.faults.saturating_add(other.faults),
        }
    }
}

// How many readings the gauges have together.
pub fn count_readings(gauges: &[Vec<Reading>]) -> u64
    ensures { result ≡ readings_after 0 (as_gauges gauges.now) }
{
    gauges.iter().fold(
        0,
        |readings: u64, gauge| readings.saturating_add(gauge.len() as u64),
    )
}

// What came of a river.
#[derive(Clone, Copy, PartialEq, Eq, Debug)]
pub struct Outcome {
    pub verdict: Verdict,
    pub score: Score,
}

// In words: the verdict, and whether rows are told too often.
impl fmt::Display for Outcome {
    fn fmt<W: fmt::Write>(&self, f: &mut fmt::Formatter<W>) -> fmt::Result {
        let Outcome { verdict, score } = *self;
        write!(f, "{verdict}")?;
        if score.too_often > 0 {
            f.write_str("; rows are told too often")?;
        }
        Ok(())
    }
}

// What came of a world that was played by these items.
fn outcome_of(
    heap: Global,
    gauges: &[Vec<Reading>],
    items: &[Item],
    world: &World,
) -> Result<Outcome, WallError>
    ensures verdict { IfOk result (λ t. t.verdict ≡ verdict_of (as_gauges gauges.now) (as_world world.now)) }
    ensures score { IfOk result (λ t. Scores (as_gauges gauges.now) (unrolled items.now) (as_world world.now) t.score) }
    ensures refused { IfErr result (λ e. TooMuch (as_gauges gauges.now) e) }
{
    let Judgement {
        verdict,
        comparison,
    } = judge(heap, gauges, world)?;
    let again = told_again(heap, world.told.as_slice())?;
    let score = Score {
        worlds: 1,
        readings: count_readings(gauges),
        told: world.told.len() as u64,
        again,
        too_often: u64::from(again > strokes_of(items)),
        wrong: comparison.wrong,
        untold: comparison.untold.len() as u64,
        faults: u64::from(world.fault),
    };
    Ok(Outcome { verdict, score })
}

// The river played from the start and judged. Nothing is at fault, no row is wrong and none is told too often.
pub fn trial(heap: Global, gauges: &[Vec<Reading>], items: &[Item]) -> Result<Outcome, WallError>
    ensures verdict { IfOk result (λ t. t.verdict ≡ verdict_of (as_gauges gauges.now) (played (as_gauges gauges.now) items.now)) }
    ensures right { IfOk result (λ t. gauges_fine (as_gauges gauges.now) ≡ true → t.verdict ≡ pick (all_told (as_gauges gauges.now) (played (as_gauges gauges.now) items.now).told) AllRight NotAll) }
    ensures rare { IfOk result (λ t. gauges_fine (as_gauges gauges.now) ≡ true → t.score.too_often ≡ 0) }
    ensures score { IfOk result (λ t. Scores (as_gauges gauges.now) (unrolled items.now) (played (as_gauges gauges.now) items.now) t.score) }
    ensures refused { IfErr result (λ e. TooMuch (as_gauges gauges.now) e) }
{
    let world = play(heap, gauges, items)?;
    outcome_of(heap, gauges, items, &world)
}

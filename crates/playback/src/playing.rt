// One river played, and what came of it.
ghost use Rattle.std.specs.Prelude.{◌≡◌, true, false, IfOk, OnOk, vec_len};
ghost use Rattle.std.specs.Io.KnownBytes.{Appends};
ghost use Rattle.sums.specs.Readings.{as_gauges};
ghost use Rattle.sums.specs.Sums.{gauges_fine};
ghost use Rattle.machine.specs.Entry.{own};
ghost use Rattle.machine.specs.Run.{new_world};
ghost use Rattle.promise.specs.Promise.{Safe};
ghost use Rattle.world.specs.Tallies.{none_counted, all_counted};
ghost use Rattle.world.specs.Worlds.{as_world};
ghost use Rattle.play.specs.Plays.{unrolled, played};
ghost use Rattle.play.specs.Trials.{readings_after};
ghost use Rattle.play.specs.Verdicts.{AreUntold, verdict_of};
ghost use Rattle.rows.specs.Walls.{as_wall, wrong_rows};
ghost use Rattle.text.specs.Written.{lined};
ghost use Rattle.report.specs.Printed.{wall_text};
ghost use Rattle.playback.specs.Printed.{verdict_line, is_well, ShowsPlay, PlaysOne};

use crate::stage::Stage;
use crate::stats;
use anyhow::anyhow;
use play::{Judgement, Verdict};
use report::{Progress, print_rows, print_untold, read_river, too_much};
use river::{Item, River};
use status::Failure;
use std::alloc::Global;
use std::io::{Read, Write};
use std::time::Instant;
use sums::Reading;
use world::World;

pub fn play_file<R: Read, W: Write>(
    rt: &HostRuntime,
    input: &mut R,
    out: &mut W,
    progress: &mut Progress<'_>,
    file: &str,
    stats: bool,
) -> Result<(), Failure>
    ensures { OnOk result (stats ≡ false → PlaysOne file.now (R.remaining input.old) (W.contents out.old) (W.contents out.new)) }
{
    let river = read_river(rt, input, file)?;
    if stats {
        play_timed(rt, out, progress, &river)
    } else {
        play_through(
            rt,
            out,
            progress,
            river.gauges.as_slice(),
            river.items.as_slice(),
        )
    }
}

// Plays the river, and prints each row as it is told.
fn play_through<W: Write>(
    rt: &HostRuntime,
    out: &mut W,
    progress: &mut Progress<'_>,
    gauges: &[Vec<Reading>],
    items: &[Item],
) -> Result<(), Failure>
    ensures printed { OnOk result (ShowsPlay (as_gauges gauges.now) (played (as_gauges gauges.now) items.now) (W.contents out.old) (W.contents out.new)) }
    ensures well { OnOk result (is_well (verdict_of (as_gauges gauges.now) (played (as_gauges gauges.now) items.now)) ≡ true) }
{
    let world = play_and_print(rt, out, progress, gauges, items)?;
    let judgement = judge(rt.alloc(), gauges, &world)?;
    print_untold(out, judgement.comparison.untold.as_slice())?;
    summary(out, gauges, &world, &judgement)
}

// The world that was played, beside what the gauges read.
fn judge(heap: Global, gauges: &[Vec<Reading>], world: &World) -> Result<Judgement, Failure>
    ensures wrong { IfOk result (λ j. j.comparison.wrong ≡ wrong_rows (as_gauges gauges.now) (as_world world.now).told) }
    ensures untold { IfOk result (λ j. AreUntold (as_gauges gauges.now) (as_world world.now).told (as_wall j.comparison.untold.items)) }
    ensures verdict { IfOk result (λ j. j.verdict ≡ verdict_of (as_gauges gauges.now) (as_world world.now)) }
{
    match play::judge(heap, gauges, world) {
        Ok(judgement) => Ok(judgement),
        Err(error) => Err(too_much(error)),
    }
}

// With figures, the river is played whole before its rows are printed, so that the steps alone are timed.
fn play_timed<W: Write>(
    rt: &HostRuntime,
    out: &mut W,
    progress: &mut Progress<'_>,
    river: &River,
) -> Result<(), Failure>
    ensures { OnOk result (is_well (verdict_of (as_gauges river.now.gauges.items) (played (as_gauges river.now.gauges.items) river.now.items.items)) ≡ true) }
{
    let heap = rt.alloc();
    let gauges = river.gauges.as_slice();
    let items = river.items.as_slice();
    let start = Instant::now(rt)?;
    let world = play_whole(rt, out, progress, gauges, items)?;
    let stepping = start.elapsed(rt)?;
    print_rows(out, world.told.as_slice())?;
    let judgement = judge(heap, gauges, &world)?;
    print_untold(out, judgement.comparison.untold.as_slice())?;
    stats::print(rt, out, river, &world, stepping)?;
    summary(out, gauges, &world, &judgement)
}

// Plays all that happens, and prints no row.
fn play_whole<W: Write>(
    rt: &HostRuntime,
    out: &mut W,
    progress: &mut Progress<'_>,
    gauges: &[Vec<Reading>],
    items: &[Item],
) -> Result<World, Failure>
    ensures world { IfOk result (λ w. as_world w ≡ played (as_gauges gauges.now) items.now) }
    ensures counts { IfOk result (λ w. progress.old.said ≡ false → w.tally.counts ≡ all_counted (as_gauges gauges.now) (new_world own) (unrolled items.now) none_counted) }
    ensures right { IfOk result (λ w. gauges_fine (as_gauges gauges.now) ≡ true → Safe (as_gauges gauges.now) (as_world w)) }
{
    if progress.is_silent() {
        return Ok(play::play(rt.alloc(), gauges, items)?);
    }
    let mut world = World::new(rt.alloc())?;
    Stage::new(rt, gauges, items, false).play(out, progress, &mut world, items)?;
    Ok(world)
}

// Plays all that happens, and prints the rows as they are told.
fn play_and_print<W: Write>(
    rt: &HostRuntime,
    out: &mut W,
    progress: &mut Progress<'_>,
    gauges: &[Vec<Reading>],
    items: &[Item],
) -> Result<World, Failure>
    ensures world { IfOk result (λ w. as_world w ≡ played (as_gauges gauges.now) items.now) }
    ensures printed { IfOk result (λ w. Appends (W.contents out.old) (W.contents out.new) (wall_text (as_world w).told)) }
{
    let mut world = World::new(rt.alloc())?;
    Stage::new(rt, gauges, items, true).play(out, progress, &mut world, items)?;
    Ok(world)
}

// Prints the counts and the verdict; a wall that is wrong is an error.
fn summary<W: Write>(
    out: &mut W,
    gauges: &[Vec<Reading>],
    world: &World,
    judgement: &Judgement,
) -> Result<(), Failure>
    ensures printed { OnOk result (Appends (W.contents out.old) (W.contents out.new) (lined (verdict_line (readings_after 0 (as_gauges gauges.now)) (vec_len world.now.told) judgement.now.comparison.wrong (vec_len judgement.now.comparison.untold) judgement.now.verdict))) }
    ensures well { OnOk result (is_well judgement.now.verdict ≡ true) }
{
    let readings = play::count_readings(gauges);
    let told = world.told.len();
    let untold = judgement.comparison.untold.len();
    let wrong = judgement.comparison.wrong;
    let verdict = judgement.verdict;
    writeln!(
        out,
        "{readings} readings, {told} rows told, {wrong} wrong, {untold} untold: {verdict}"
    )?;
    match verdict {
        Verdict::Fault | Verdict::Wrong => {
            Err(Failure::wrong(anyhow!("the river was not played right")))
        }
        Verdict::Untold | Verdict::Right => Ok(()),
    }
}

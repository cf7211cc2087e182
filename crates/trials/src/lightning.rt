// A river struck after every act, once or twice in a row.
ghost use Rattle.std.specs.Prelude.{IfOk, OnOk};
ghost use Rattle.std.specs.Io.KnownBytes.{Keeps};
ghost use Rattle.play.specs.declared.trials.Score.{Score as Scored};
ghost use Rattle.trials.specs.Printed.{QuietIfRight, ShowsScore, walls_line};

use crate::score;
use anyhow::anyhow;
use play::Score;
use player_args::Strokes;
use report::{Progress, too_much};
use river::model::ACTS_LIMIT;
use river::{Item, River};
use status::Failure;
use std::io::Write;
use sums::Reading;

// Where a machine is struck first: at which item, and after how many acts of it; and after how many acts at most it is struck again, where it is.
#[derive(Clone, Copy)]
struct Stroke {
    k: usize,
    first: u64,
    again: Option<u64>,
}

impl Stroke {
    fn walls(self) -> u64 {
        match self.again {
            None => 1,
            Some(acts) => acts.saturating_add(1),
        }
    }
}

// A river whose calm is written out, and the calm that follows on the strokes.
#[derive(Clone, Copy)]
struct Target<'a> {
    rt: &'a HostRuntime,
    gauges: &'a [Vec<Reading>],
    items: &'a [Item],
    calm: Item,
}

impl<'a> Target<'a> {
    // How many acts the machine does from a stroke till it rests.
    fn acts_after(&self, k: usize, machine: u64, first: u64) -> Result<u64, Failure> {
        let heap = self.rt.alloc();
        let mut items = play::struck(heap, self.items, k, &[first]).map_err(Failure::wrong)?;
        items.truncate(k.saturating_add(2));
        items.push(Item::Works(machine, ACTS_LIMIT))?;
        let acts = play::acts_of(heap, self.gauges, items.as_slice())?;
        Ok(acts.as_slice().last().copied().unwrap_or(0))
    }

    fn stroke(
        &self,
        k: usize,
        machine: u64,
        first: u64,
        strokes: Strokes,
    ) -> Result<Stroke, Failure> {
        let again = match strokes {
            Strokes::One => None,
            Strokes::Two => Some(self.acts_after(k, machine, first)?),
        };
        Ok(Stroke { k, first, again })
    }

    // Wherever a machine works, it is struck after each of its acts; so it is known how many walls there will be.
    fn strokes<W: Write>(
        &self,
        out: &mut W,
        progress: &mut Progress<'_>,
        strokes: Strokes,
    ) -> Result<Vec<Stroke>, Failure>
        ensures { OnOk result (Keeps (W.contents out.old) (W.contents out.new)) }
    {
        let heap = self.rt.alloc();
        let acts = play::acts_of(heap, self.gauges, self.items)?;
        progress.begin(total(acts.as_slice()), "strokes counted")?;
        let mut all = Vec::new(heap);
        for (k, (item, acts)) in self.items.iter().zip(acts.iter()).enumerate() {
            let Item::Works(machine, _) = item else {
                continue;
            };
            for first in 1..=*acts {
                all.push(self.stroke(k, *machine, first, strokes)?)?;
                progress.advance(out)?;
            }
        }
        Ok(all)
    }

    // Plays it struck at the item at k, after so many acts each time.
    fn play<W: Write>(
        &self,
        out: &mut W,
        progress: &mut Progress<'_>,
        k: usize,
        strokes: &[u64],
    ) -> Result<Score, Failure>
        ensures { IfOk result (λ s. QuietIfRight s (W.contents out.old) (W.contents out.new)) }
    {
        let heap = self.rt.alloc();
        let mut items = play::struck(heap, self.items, k, strokes).map_err(Failure::wrong)?;
        items.push(self.calm)?;
        let outcome = play::trial(heap, self.gauges, items.as_slice()).map_err(too_much)?;
        if !outcome.score.is_right() {
            let text = chance::river_text(heap, self.gauges, items.as_slice())?;
            writeln!(out, "# {outcome}")?;
            write!(out, "{text}")?;
        }
        progress.advance(out)?;
        Ok(outcome.score)
    }

    // Struck a second time after every number of acts that follow the first stroke.
    fn play_again<W: Write>(
        &self,
        out: &mut W,
        progress: &mut Progress<'_>,
        stroke: Stroke,
        acts: u64,
    ) -> Result<Score, Failure>
        ensures { IfOk result (λ s. QuietIfRight s (W.contents out.old) (W.contents out.new)) }
    {
        let Stroke { k, first, .. } = stroke;
        let mut score = Score::NONE;
        for second in 0..=acts {
            score = score.plus(self.play(out, progress, k, &[first, second])?);
        }
        Ok(score)
    }

    fn strike<W: Write>(
        &self,
        out: &mut W,
        progress: &mut Progress<'_>,
        stroke: Stroke,
    ) -> Result<Score, Failure>
        ensures { IfOk result (λ s. QuietIfRight s (W.contents out.old) (W.contents out.new)) }
    {
        match stroke.again {
            None => self.play(out, progress, stroke.k, &[stroke.first]),
            Some(acts) => self.play_again(out, progress, stroke, acts),
        }
    }
}

// How many hours the gauges have, each by itself.
fn count_hours(gauges: &[Vec<Reading>]) -> u64 {
    let mut hours: u64 = 0;
    for gauge in gauges {
        let mut last = None;
        for reading in gauge {
            let hour = Some(reading.hour());
            if hour != last {
                hours = hours.saturating_add(1);
            }
            last = hour;
        }
    }
    hours
}

// How many there are in all.
fn total(counts: &[u64]) -> u64 {
    counts
        .iter()
        .fold(0, |sum: u64, count| sum.saturating_add(*count))
}

fn walls(strokes: &[Stroke]) -> u64 {
    strokes
        .iter()
        .fold(0, |sum: u64, stroke| sum.saturating_add(stroke.walls()))
}

pub fn strike_all<W: Write>(
    rt: &HostRuntime,
    out: &mut W,
    progress: &mut Progress<'_>,
    river: &River,
    strokes: Strokes,
) -> Result<(), Failure>
    ensures { OnOk result ((s : Scored) × ShowsScore walls_line s (W.contents out.old) (W.contents out.new)) }
{
    let items = play::plain(rt.alloc(), river.items.as_slice())?;
    let target = Target {
        rt,
        gauges: river.gauges.as_slice(),
        items: items.as_slice(),
        calm: chance::last_calm(count_hours(river.gauges.as_slice())),
    };
    let strokes = target.strokes(out, progress, strokes)?;
    if strokes.is_empty() {
        return Err(Failure::refused(anyhow!(
            "there is nothing to strike: no machine works in this river"
        )));
    }
    progress.begin(walls(strokes.as_slice()), "walls")?;
    let mut score = Score::NONE;
    for stroke in &strokes {
        score = score.plus(target.strike(out, progress, *stroke)?);
    }
    print(out, score)
}

fn print<W: Write>(out: &mut W, score: Score) -> Result<(), Failure>
    ensures { OnOk result (ShowsScore walls_line score (W.contents out.old) (W.contents out.new)) }
{
    let Score {
        worlds,
        told,
        again,
        ..
    } = score;
    let counted = format_args!("{worlds} walls, {told} rows told, {again} told again");
    score::print(
        out,
        &counted,
        score,
        "not every stroke was played right to the end",
    )
}

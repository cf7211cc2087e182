// Rivers made at random, one after the other.
ghost use Rattle.std.specs.Prelude.{◌≡◌, IfOk, OnOk};
ghost use Rattle.play.specs.declared.trials.Score.{Score as Scored};
ghost use Rattle.trials.specs.Printed.{QuietIfRight, ShowsScore, rivers_line};

use crate::score;
use play::Score;
use report::{Progress, too_much};
use status::Failure;
use std::io::Write;

// Plays the river of a seed; one that is not right, not told to its end, or told too often, is printed whole.
fn play_one<W: Write>(rt: &HostRuntime, out: &mut W, seed: u64) -> Result<Score, Failure>
    ensures counted { IfOk result (λ s. s.worlds ≡ 1) }
    ensures quiet { IfOk result (λ s. QuietIfRight s (W.contents out.old) (W.contents out.new)) }
{
    let heap = rt.alloc();
    let text = chance::random_river(heap, seed)?;
    let river = river::parse(heap, text.as_str()).map_err(Failure::wrong)?;
    let outcome = play::trial(heap, river.gauges.as_slice(), river.items.as_slice()).map_err(
        too_much,
    )?;
    if !outcome.score.is_right() {
        writeln!(out, "# seed {seed}: {outcome}")?;
        write!(out, "{text}")?;
    }
    Ok(outcome.score)
}

pub fn play_all<W: Write>(
    rt: &HostRuntime,
    out: &mut W,
    progress: &mut Progress<'_>,
    first: u64,
    rivers: u64,
) -> Result<(), Failure>
    ensures { OnOk result ((s : Scored) × (s.worlds ≡ rivers) × ShowsScore rivers_line s (W.contents out.old) (W.contents out.new)) }
{
    progress.begin(rivers, "rivers")?;
    let mut score = Score::NONE;
    for n in 0..rivers {
        score = score.plus(play_one(rt, out, first.wrapping_add(n))?);
        progress.advance(out)?;
    }
    let Score {
        worlds,
        readings,
        told,
        ..
    } = score;
    let counted = format_args!("{worlds} rivers, {readings} readings, {told} rows told");
    score::print(
        out,
        &counted,
        score,
        "not every river was played right to its end",
    )
}

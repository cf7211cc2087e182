// What came of all the worlds that were played.
ghost use Rattle.std.specs.Prelude.{◌≡◌, true, OnOk, IfSome};
ghost use Rattle.std.specs.Io.KnownBytes.{Appends};
ghost use Rattle.text.specs.Written.{lined};
ghost use Rattle.play.specs.Trials.{all_right};
ghost use Rattle.trials.specs.Printed.{score_line};

use anyhow::anyhow;
use play::Score;
use status::Failure;
use std::fmt::Display;
use std::io::Write;

// Prints what was counted, and what of it is not right; any such thing is an error.
pub fn print<W: Write, D: Display>(
    out: &mut W,
    counted: &D,
    score: Score,
    error: &str,
) -> Result<(), Failure>
    ensures printed { OnOk result (IfSome (D.output counted.now) (λ text. Appends (W.contents out.old) (W.contents out.new) (lined (score_line text score)))) }
    ensures right { OnOk result (all_right score ≡ true) }
{
    let Score {
        too_often,
        wrong,
        untold,
        faults,
        ..
    } = score;
    writeln!(
        out,
        "{counted}, {too_often} too often, {wrong} wrong, {untold} untold, {faults} faults"
    )?;
    if !score.is_right() {
        return Err(Failure::wrong(anyhow!("{error}")));
    }
    Ok(())
}

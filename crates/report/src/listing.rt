// Rows, printed a line each.
ghost use Rattle.std.specs.Prelude.{OnOk};
ghost use Rattle.sums.specs.Readings.{as_gauges};
ghost use Rattle.std.specs.Io.KnownBytes.{Appends};
ghost use Rattle.rows.specs.Walls.{as_wall};
ghost use Rattle.report.specs.Printed.{wall_text, untold_text, ListsAll, ListsOne};

use crate::input::read_river;
use rows::{Row, WallError};
use status::Failure;
use std::alloc::Global;
use std::io;
use std::io::{Read, Write};
use sums::Reading;

pub fn print_rows<W: Write>(out: &mut W, rows: &[Row]) -> io::Result<()>
    ensures { OnOk result (Appends (W.contents out.old) (W.contents out.new) (wall_text (as_wall rows.now))) }
{
    for row in rows {
        writeln!(out, "{row}")?;
    }
    Ok(())
}

pub fn print_untold<W: Write>(out: &mut W, rows: &[Row]) -> io::Result<()>
    ensures { OnOk result (Appends (W.contents out.old) (W.contents out.new) (untold_text (as_wall rows.now))) }
{
    for row in rows {
        writeln!(out, "untold: {row}")?;
    }
    Ok(())
}

// Why there are no sums: the river is refused where one of them does not fit.
pub fn too_much(error: WallError) -> Failure {
    match error {
        WallError::Memory => Failure::wrong(error),
        WallError::SumTooLarge => Failure::refused(error),
    }
}

// What is to be told.
fn print_sums_of<W: Write>(
    heap: Global,
    out: &mut W,
    gauges: &[Vec<Reading>],
) -> Result<(), Failure>
    ensures { OnOk result (ListsAll (as_gauges gauges.now) (W.contents out.old) (W.contents out.new)) }
{
    let sums = rows::sums_of(heap, gauges).map_err(too_much)?;
    let rows = rows::listed(heap, &sums)?;
    print_rows(out, rows.as_slice())?;
    Ok(())
}

pub fn print_sums<R: Read, W: Write>(
    rt: &HostRuntime,
    input: &mut R,
    out: &mut W,
    file: &str,
) -> Result<(), Failure>
    ensures { OnOk result (ListsOne file.now (R.remaining input.old) (W.contents out.old) (W.contents out.new)) }
{
    let river = read_river(rt, input, file)?;
    print_sums_of(rt.alloc(), out, river.gauges.as_slice())
}

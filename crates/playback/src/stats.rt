// What a river cost: acts by kind, acts for each reading and each row, and time.
use play::{Ratio, count_readings};
use report::too_much;
use river::River;
use status::Failure;
use std::io::Write;
use std::time::{Duration, Instant};
use world::{Kind, Tally, World};

fn print_acts<W: Write>(out: &mut W, tally: &Tally) -> Result<(), Failure> {
    let total = tally.total();
    write!(out, "{total} acts")?;
    for kind in Kind::ALL {
        let count = tally.of(kind);
        write!(out, ", {count} {kind}")?;
    }
    writeln!(out)?;
    Ok(())
}

fn print_ratio<W: Write>(out: &mut W, of: u64, to: u64, what: &str) -> Result<(), Failure> {
    if let Some(ratio) = Ratio::new(of, to) {
        writeln!(out, "{ratio} acts for each {what}")?;
    }
    Ok(())
}

pub fn print<W: Write>(
    rt: &HostRuntime,
    out: &mut W,
    river: &River,
    world: &World,
    stepping: Duration,
) -> Result<(), Failure> {
    let readings = count_readings(river.gauges.as_slice());
    let rows = world.told.len() as u64;
    let acts = world.tally.total();
    let keeps = world.tally.of(Kind::Kept);
    let releases = world.tally.of(Kind::Released);
    print_acts(out, &world.tally)?;
    writeln!(
        out,
        "{readings} readings, {rows} rows, {keeps} keeps, {releases} releases"
    )?;
    print_ratio(out, acts, readings, "reading")?;
    print_ratio(out, acts, rows, "row")?;
    let start = Instant::now(rt)?;
    let _sums = rows::sums_of(rt.alloc(), river.gauges.as_slice()).map_err(too_much)?;
    let at_once = start.elapsed(rt)?.as_micros();
    let stepped = stepping.as_micros();
    writeln!(
        out,
        "{stepped} us for the steps, {at_once} us for the sums made at once"
    )?;
    Ok(())
}

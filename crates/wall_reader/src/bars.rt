// A chart of the rows of one place: a bar for each hour.
ghost use Rattle.std.specs.Prelude.{◌≡◌, ℕ, ◌<◌, ◌≤◌};
ghost use Rattle.rows.specs.Walls.{as_wall};
ghost use Rattle.wall_reader.specs.declared.bars.ChartMistake.TheVariants.{Memory as NoMemory};
ghost use Rattle.wall_reader.specs.Charts.{PlaceSays, ChartSays, bar_of, is_gap, greatest_of};

use rows::Row;
use std::alloc::{AllocFailed, Global};
use thiserror::Error;

// How long the longest bar is.
pub const WIDTH: u64 = 50;

// A line of a chart.
#[derive(Clone, Copy, PartialEq, Eq, Debug)]
pub enum Mark {
    // One hour or more that has no row, between two that have.
    Gap,
    Bar { hour: u64, length: u64, sum: u64 },
}

#[derive(Clone, Copy, PartialEq, Eq, Debug, Error)]
pub enum ChartMistake {
    #[error("there are no rows to chart")]
    NoRows,
    // Two places that both have rows.
    #[error("a chart is of one place, and here are places {0} and {1}")]
    Places(u64, u64),
    #[error("there is not enough memory")]
    Memory,
}

// By hand, as a clause names the error that `?` makes.
impl<T: Drop> From<AllocFailed<T>> for ChartMistake {
    ghost from_gives = { λ _ r. r ≡ NoMemory };

    fn from(_e: AllocFailed<T>) -> ChartMistake {
        ChartMistake::Memory
    }
}

// How long the bar of a sum is where the greatest sum's is as long as the width: in proportion, rounded down.
pub fn bar(sum: u64, greatest: u64, width: u64) -> u64
    ensures length { result ≡ bar_of sum greatest width }
    ensures within { result ≤ width }
    ensures full { 0 < greatest → greatest ≤ sum → result ≡ width }
    ensures none { sum ≡ 0 → result ≡ 0 }
    ensures grows { (less : ℕ) → less ≤ sum → bar_of less greatest width ≤ result }
{
    if greatest == 0 {
        return 0;
    }
    let shown = u128::from(sum.min(greatest));
    (shown * u128::from(width) / u128::from(greatest)) as u64
}

fn greatest(rows: &[Row]) -> u64
    ensures { result ≡ greatest_of (as_wall rows.now) }
{
    rows.iter().map(|row| row.sum).max().unwrap_or(0)
}

// The place that all the rows are of.
fn one_place(rows: &[Row]) -> Result<u64, ChartMistake>
    ensures { PlaceSays (as_wall rows.now) result }
{
    let Some(first) = rows.first() else {
        return Err(ChartMistake::NoRows);
    };
    match rows.iter().find(|row| row.place != first.place) {
        Some(other) => Err(ChartMistake::Places(first.place, other.place)),
        None => Ok(first.place),
    }
}

// Whether hours are missing between the one before and this one.
fn is_gap(before: Option<u64>, hour: u64) -> bool
    ensures { result ≡ is_gap before hour }
{
    before.is_some_and(|last| hour.saturating_sub(last) > 1)
}

// The chart of the rows of one place.
pub fn chart(heap: Global, rows: &[Row]) -> Result<Vec<Mark>, ChartMistake>
    ensures { ChartSays (as_wall rows.now) result }
{
    one_place(rows)?;
    let greatest = greatest(rows);
    let mut marks = Vec::new(heap);
    let mut before = None;
    for row in rows {
        if is_gap(before, row.hour) {
            marks.push(Mark::Gap)?;
        }
        let Row { hour, sum, .. } = *row;
        let length = bar(sum, greatest, WIDTH);
        marks.push(Mark::Bar { hour, length, sum })?;
        before = Some(hour);
    }
    Ok(marks)
}

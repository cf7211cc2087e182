// Which rows are asked for.
ghost use Rattle.std.specs.Prelude.{◌≡◌, true, IfOk};
ghost use Rattle.sums.specs.Sums.{those};
ghost use Rattle.rows.specs.Walls.{as_told, as_wall, in_order};
ghost use Rattle.wall_reader.specs.Filters.{lets_through, is_asked, is_within};

use rows::Row;
use std::alloc::{AllocError, Global};

// Hours from one up to another, and not that other.
#[derive(Clone, Copy, PartialEq, Eq, Debug)]
pub struct Hours {
    pub from: u64,
    pub to: u64,
}

// What is absent lets all through.
#[derive(Clone, Copy, PartialEq, Eq, Debug)]
pub struct Filter {
    pub hour: Option<u64>,
    pub hours: Option<Hours>,
    pub place: Option<u64>,
}

fn is_asked(asked: Option<u64>, number: u64) -> bool
    ensures { result ≡ is_asked asked number }
{
    asked.is_none_or(|one| one == number)
}

fn is_within(hours: Option<Hours>, hour: u64) -> bool
    ensures { result ≡ is_within hours hour }
{
    hours.is_none_or(|Hours { from, to }| from <= hour && hour < to)
}

impl Filter {
    pub const ALL: Filter = Filter {
        hour: None,
        hours: None,
        place: None,
    };

    // Whether a row is asked for.
    pub fn lets(&self, row: Row) -> bool
        ensures { result ≡ lets_through self.now (as_told row) }
    {
        is_asked(self.hour, row.hour)
            && is_asked(self.place, row.place)
            && is_within(self.hours, row.hour)
    }
}

// The rows that are asked for, in the order in which they stand.
pub fn chosen(heap: Global, rows: &[Row], filter: &Filter) -> Result<Vec<Row>, AllocError>
    ensures those { IfOk result (λ v. as_wall v.items ≡ those (lets_through filter.now) (as_wall rows.now)) }
    ensures ordered { IfOk result (λ v. in_order (as_wall rows.now) ≡ true → in_order (as_wall v.items) ≡ true) }
{
    rows.iter()
        .copied()
        .filter(|row| filter.lets(*row))
        .collect(heap)
}

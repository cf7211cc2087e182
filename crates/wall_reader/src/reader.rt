// The text of a wall, read whole.
ghost use Rattle.wall_reader.specs.Reads.{ReadSays, RowTaken, LineTaken};

use crate::line::read_row;
use crate::mistake::WallMistake;
use rows::{Row, Sums, listed};
use std::alloc::Global;
use std::collections::BTreeMap;
use text::{Lines, whole};

// A row more, of the line with this number.
fn take_row(sums: &mut Sums, line: u64, row: Row) -> Result<(), WallMistake>
    ensures { RowTaken line row sums.old sums.new result }
{
    let key = row.key();
    let Some(first) = sums.get(&key).copied() else {
        sums.insert(key, row.sum)?;
        return Ok(());
    };
    if first != row.sum {
        return Err(WallMistake::Contradiction {
            line,
            hour: row.hour,
            place: row.place,
            first,
            second: row.sum,
        });
    }
    Ok(())
}

fn take_line(sums: &mut Sums, number: u64, line: &[u8]) -> Result<(), WallMistake>
    ensures { LineTaken number line.now sums.old sums.new result }
{
    match read_row(line) {
        Ok(row) => take_row(sums, number, row),
        Err(reason) => Err(WallMistake::Line(number, reason)),
    }
}

// The rows of a wall, each once, by hour and place; or the first line that is no row or contradicts one above it.
// A last line without its end is left out.
pub fn read(heap: Global, text: &str) -> Result<Vec<Row>, WallMistake>
    ensures { ReadSays text.now result }
{
    let bytes = text.as_bytes();
    let mut sums = BTreeMap::new(heap);
    for (index, line) in Lines::new(&bytes[..whole(bytes)]).enumerate() {
        take_line(&mut sums, index as u64 + 1, line)?;
    }
    Ok(listed(heap, &sums)?)
}

// Rows as text, a line each.
ghost use Rattle.std.specs.Prelude.{◌≡◌, ◌++◌, IfOk, codes, string_bytes};
ghost use Rattle.text.specs.Written.{lined, lines_of};
ghost use Rattle.rows.specs.Shown.{row_line};
ghost use Rattle.wall_reader.specs.Shown.{csv_line};

use rows::Row;
use std::alloc::{AllocError, Global};

// The rows as they stand on a wall.
pub fn rows_text(heap: Global, rows: &[Row]) -> Result<String, AllocError>
    ensures { IfOk result (λ t. string_bytes t ≡ lines_of row_line rows.now) }
{
    let mut text = String::new(heap);
    for row in rows {
        writeln!(text, "{row}")?;
    }
    Ok(text)
}

// The rows as comma-separated values below a header.
pub fn csv_text(heap: Global, rows: &[Row]) -> Result<String, AllocError>
    ensures { IfOk result (λ t. string_bytes t ≡ lined (codes "hour,place,sum") ++ lines_of csv_line rows.now) }
{
    let mut text = String::new(heap);
    writeln!(text, "hour,place,sum")?;
    for row in rows {
        writeln!(text, "{},{},{}", row.hour, row.place, row.sum)?;
    }
    Ok(text)
}

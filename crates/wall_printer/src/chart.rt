// A chart, a line for each mark.
use crate::output::unwritten;
use rows::Row;
use status::Failure;
use std::fmt;
use std::io::Write;
use wall_reader::{ChartMistake, Mark, chart};

// A mark with its hour in so many columns.
#[derive(Clone, Copy)]
struct Drawn {
    mark: Mark,
    columns: usize,
}

impl fmt::Display for Drawn {
    fn fmt<W: fmt::Write>(&self, f: &mut fmt::Formatter<W>) -> fmt::Result {
        let Mark::Bar { hour, length, sum } = self.mark else {
            return f.write_str("...");
        };
        let columns = self.columns;
        let bar = length as usize;
        write!(f, "{hour:>columns$} |{:#<bar$} {sum}", "")
    }
}

pub fn print_chart<W: Write>(rt: &HostRuntime, out: &mut W, rows: &[Row]) -> Result<(), Failure> {
    let heap = rt.alloc();
    let marks = match chart(heap, rows) {
        Ok(marks) => marks,
        Err(ChartMistake::Memory) => return Err(Failure::wrong(ChartMistake::Memory)),
        Err(mistake) => return Err(Failure::refused(mistake)),
    };
    let columns = match rows.last() {
        Some(Row { hour, .. }) => format!(in heap; "{hour}")?.len(),
        None => 0,
    };
    for &mark in marks.iter() {
        let drawn = Drawn { mark, columns };
        writeln!(out, "{drawn}").map_err(unwritten)?;
    }
    Ok(())
}

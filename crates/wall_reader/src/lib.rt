// The wall, read back: its rows, which of them are asked for, and these as text or as a chart.
#![tactic(auto)]

mod asked;
mod bars;
mod line;
mod mistake;
mod reader;
mod shown;
mod tail;
mod words;

pub use asked::{Filter, Hours, chosen};
pub use bars::{ChartMistake, Mark, WIDTH, bar, chart};
pub use line::{print_and_read, read_row};
pub use mistake::{Reason, WallMistake};
pub use reader::read;
pub use shown::{csv_text, rows_text};
pub use tail::{TailMistake, whole_rows};
pub use words::{Complaint, Form, Misuse, Request, parse_words, worked_requests};

// Rivers: what eight gauges read and what happens to their machines, as text.
#![tactic(auto)]

mod draft;
mod line;
pub mod mistake;
pub mod model;
mod parser;
mod said;
mod take;
mod written;

pub use mistake::{Mistake, Reason};
pub use model::{Item, River};
pub use parser::{parse, parse_within};
pub use said::InFile;
pub use written::{lines_back, rivers_back};

// One gauge: its readings taken in, its hours whole, its checkpoints.
#![tactic(auto)]

pub mod act;
mod checkpoint;
mod keep;
pub mod memory;
mod readings;
mod row;

pub use act::Act;
pub use checkpoint::{save_first, save_next};
pub use keep::keep_record;
pub use memory::{Buffer, Garbled, Memory, Phase, Stage};
pub use readings::{end_row, read, tell_all};
pub use row::{clear_tables, go_on, place, release};

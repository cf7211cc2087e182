// What the player's commands share: rivers that are read, rows that are printed, and how far something long is.
#![tactic(auto)]

mod input;
mod listing;
mod progress;

pub use input::read_river;
pub use listing::{print_rows, print_sums, print_untold, too_much};
pub use progress::{Progress, seconds_left};

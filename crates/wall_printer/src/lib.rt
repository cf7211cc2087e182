// The program `wall`: the rows of a wall, each once, by hour and place, as they are asked for.
#![tactic(auto)]

mod chart;
mod output;
mod program;

pub use output::unwritten;
pub use program::run;

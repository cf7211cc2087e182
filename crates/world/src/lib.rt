// The world that is played, act by act as the definitions have it.
#![tactic(auto)]

mod post;
pub mod tally;
mod turns;
mod wires;
pub mod world;

pub use tally::{Kind, Tally};
pub use world::World;

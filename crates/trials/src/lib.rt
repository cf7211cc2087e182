// Rivers struck at every act, and rivers made at random: played, judged and counted.
#![tactic(auto)]

mod lightning;
mod many;
mod score;

pub use lightning::strike_all;
pub use many::play_all;

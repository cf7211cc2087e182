// One machine in its hut: told events, stepped, and its acts done on what it holds.
#![tactic(auto)]

mod acts;
pub mod effect;
pub mod hut;
mod steps;
pub mod text;
mod turn;

pub use effect::Effect;
pub use hut::{Desk, Hut, Pending};
pub use text::Text;

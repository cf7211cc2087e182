// Numbers and rivers that a seed decides, and rivers as text.
#![tactic(auto)]

mod random;
mod rivers;
mod spelling;

pub use random::Random;
pub use rivers::{last_calm, random_river};
pub use spelling::river_text;

// Rivers played whole, written out, struck and judged.
#![tactic(auto)]

pub mod course;
mod playing;
pub mod score;
pub mod trials;
pub mod verdict;

pub use course::{StrikeError, plain, round, struck};
pub use playing::play;
pub use score::{Ratio, acts_of, strokes_of, told_again};
pub use trials::{Outcome, Score, count_readings, trial};
pub use verdict::{Judgement, Verdict, judge};

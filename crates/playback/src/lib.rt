// One river played, and what came of it, printed to a writer.
#![tactic(auto)]

mod playing;
mod stage;
mod stats;

pub use playing::play_file;

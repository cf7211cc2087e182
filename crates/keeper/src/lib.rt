// One machine on real files: its drawers and the wall, kept so that a kill at any moment leaves the old or the new.
#![tactic(auto)]

mod disk;
mod files;
mod options;
mod own_gauge;
mod plain;
mod program;
mod station;
mod wall;

pub use options::{Options, Request, UsageError};
pub use program::run;
pub use station::Station;

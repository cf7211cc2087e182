// What outlives a crash: the root record, pages of sums, and the cursor, and which drawer holds what.
#![tactic(auto)]

ghost use Rattle.store.specs.Laws.{CheckpointLaws, BootLaw};

pub mod drawers;
pub mod records;

pub use records::{Cursor, PageSet, Record, Root, UnknownSet};

// Theorem: what the drawers stand for changes by the root's one keep, from one checkpoint to the next, and by the cursor's.
pub fn checkpoint_laws()
    ensures { CheckpointLaws }
{}

// Theorem: the root, its pages one by one, and the cursor, as a boot reads them, are what the drawers stand for.
pub fn boot_law()
    ensures { BootLaw }
{}

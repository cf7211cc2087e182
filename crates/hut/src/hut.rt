// One machine in its hut: its memory, its roll of readings, its drawers, and what it will be told next.
ghost use Rattle.std.specs.Prelude.{◌≡◌, length, vec_len};
ghost use Rattle.machine.specs.Entry.{own};

use crate::text::Text;
use sums::Reading;

// What a machine will be told.
#[derive(Drop)]
pub enum Pending {
    Wakes(u64),
    Comes(Reading),
    Later,
    Ends,
    Letter(u64, Text),
    Slot(Text),
    Next,
}

#[derive(Drop)]
pub struct Hut {
    pub memory: Vec<u64>,
    pub pending: Option<Pending>,
    // Where its gauge's row is read next, and what is released of it.
    pub reads_at: u64,
    pub gone: u64,
    pub drawers: Vec<Text>,
    ghost sized: { vec_len memory ≡ length own.start },
}

// What a step works on and writes its answer into, so that an act that may not be leaves its machine as it was.
#[derive(Drop)]
pub struct Desk {
    pub memory: Vec<u64>,
    pub out: Vec<u8>,
    ghost sized: { vec_len memory ≡ length own.start },
    ghost room: { vec_len out ≡ 4096 },
}

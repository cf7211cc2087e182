// What a machine does. Bytes are told by their number: a slice would keep the buffer lent while the act is done.
#[derive(Clone, Copy)]
pub enum Act {
    // The next reading.
    More,
    // Readings are to come from this place of the row on.
    From(u64),
    // Readings before this place are released.
    LetGo(u64),
    // To a machine, so many bytes of the buffer.
    Sends(u8, u16),
    // Into a drawer, so many bytes of the buffer.
    Keep(u8, u16),
    Recall(u64),
    // Hour, place, sum.
    Tells(u64, u64, u64),
    Rests,
}

// What an act did, as far as it is seen outside the machine.
use crate::text::Text;
use rows::Row;

#[derive(Drop)]
pub enum Effect {
    // The next reading was asked for.
    Asked,
    // Readings come from this place on.
    Sought(u64),
    // What is before this place is released.
    Released(u64),
    // A letter to this machine.
    Sent(u64, Text),
    // This drawer has another text.
    Kept(u64),
    // The text of this drawer was asked for.
    Recalled(u64),
    // A row for the wall.
    Told(Row),
    // The machine rests.
    Rested,
    // There is no such act, and nothing was done. No error: the world goes on with its mark.
    Fault,
}

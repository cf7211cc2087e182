// Eight machines of records, in a world in which they are struck: what they promise together.
#![tactic(auto)]

ghost use Rattle.protocol_world.specs.Theorems.{AllReleased, AllToldInCalm, NothingWrong, ReleasedKept, SettledIsDone, SettlesInCalm, ToldAgain, ToldTwiceIfStruck, TurnEnds};

// Theorem: whatever happens to the eight machines, and in any calm after, nothing is at fault and every row that is told is right.
pub fn nothing_wrong()
    ensures { NothingWrong }
{}

// Theorem: no row is told twice, unless its machine was struck between telling it and the end of the act after.
pub fn told_twice_if_struck()
    ensures { ToldTwiceIfStruck }
{}

// Theorem: rows are told again at most as often as machines are struck.
pub fn told_again()
    ensures { ToldAgain }
{}

// Theorem: in calm of so many rounds and acts, whatever has happened before, everything is told.
pub fn all_told_in_calm()
    ensures { AllToldInCalm }
{}

// Theorem: and each machine releases its whole row.
pub fn all_released()
    ensures { AllReleased }
{}

// Theorem: and nothing is left to do.
pub fn settles_in_calm()
    ensures { SettlesInCalm }
{}

// Theorem: a machine that works on rests after so many acts at the most.
pub fn turn_ends()
    ensures { TurnEnds }
{}

// Theorem: where no letter is under way and all machines rest, everything is told and released: no machine ever waits for one that waits for it.
pub fn settled_is_done()
    ensures { SettledIsDone }
{}

// Theorem: a machine releases no reading that its drawers do not account for.
pub fn released_kept()
    ensures { ReleasedKept }
{}

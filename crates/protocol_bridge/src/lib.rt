// Any engine that does what the machines of records do keeps what they promise, in the given world.
#![tactic(auto)]

ghost use Rattle.protocol_bridge.specs.Promises.{MirrorsDoneInCalm, MirrorsEverSafe, MirrorsReleasedKept, MirrorsToldAgain};
ghost use Rattle.protocol_bridge.specs.Views.{MirrorsToldTwiceIfStruck, MirrorsWhole};

// Theorem: the main promise, of eight machines of the given world, whatever their gauges have: for any engine that, as views read its memories and bytes, mirrors
// the machine of records.
pub fn mirrors_whole()
    ensures { MirrorsWhole }
{}

// Theorem: such an engine tells no row twice, unless its machine was struck between telling it and the end of the act after.
pub fn mirrors_told_twice_if_struck()
    ensures { MirrorsToldTwiceIfStruck }
{}

// Theorem: whatever happens to machines with such an engine, however much of it, and in any calm after, nothing is at fault and every row that is told is right.
pub fn mirrors_ever_safe()
    ensures { MirrorsEverSafe }
{}

// Theorem: they tell rows again at most as often as they are struck.
pub fn mirrors_told_again()
    ensures { MirrorsToldAgain }
{}

// Theorem: in calm of so many rounds and acts, whatever has happened before, they tell everything and release their whole rows.
pub fn mirrors_done_in_calm()
    ensures { MirrorsDoneInCalm }
{}

// Theorem: they release no reading that their drawers do not account for.
pub fn mirrors_released_kept()
    ensures { MirrorsReleasedKept }
{}

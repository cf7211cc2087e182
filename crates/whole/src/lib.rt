// The machine that runs does what the protocol does, and so eight of them keep the whole promise.
#![tactic(auto)]

ghost use Rattle.machine.specs.Entry.{own};
ghost use Rattle.promise.specs.Once.{ToldTwiceIfStruck};
ghost use Rattle.promise.specs.Promise.{Whole, core, everything};
ghost use Rattle.protocol_bridge.specs.Promises.{DoneInCalm, ReleasedKept, ToldAgain};
ghost use Rattle.whole.specs.Promises.{AllReleased, EverWhole};
ghost use Rattle.whole.specs.Seen.{own_views};
ghost use Rattle.whole.specs.Stand.{BootStands, CheckpointsStand, DrawersStand, KeptAddsUp};

// Theorem: whatever happens to the eight machines, whatever their gauges have, nothing is ever at fault and every row that is told is right; and after some calm
// everything is told.
pub fn whole_everything()
    ensures { Whole everything own }
{}

// Theorem: so it is where only the first gauge has readings.
pub fn whole_core()
    ensures { Whole core own }
{}

// Theorem: the same of any list of things that happen, however long.
pub fn ever_whole()
    ensures { EverWhole }
{}

// Theorem: a machine releases no reading that its drawers do not account for: each is told, or is in the tables that its pages hold.
pub fn released_kept()
    ensures { ReleasedKept own_views own }
{}

// Theorem: after some calm the whole row of each gauge is released.
pub fn all_released()
    ensures { AllReleased }
{}

// Theorem: rows are told again at most as often as machines are struck, and never in calm.
pub fn told_once()
    ensures { ToldAgain own }
{}

// Theorem: no row is told twice, unless its machine was struck between telling it and the end of the act after.
pub fn told_twice_if_struck()
    ensures { ToldTwiceIfStruck own }
{}

// Theorem: in calm of so many rounds and acts, whatever has happened before, everything is told and all rows are released.
pub fn done_in_calm()
    ensures { DoneInCalm own }
{}

// Theorem: the root record, the cursor and the pages that the machine reads of its drawers are what the drawers stand for, by the one definition of `store`.
pub fn drawers_stand()
    ensures { DrawersStand }
{}

// Theorem: as the machine reads its drawers, a checkpoint is whole or has not been: until the root record is kept nothing is changed, and then all that it names is
// there; and to keep the cursor changes the cursor alone.
pub fn checkpoints_stand()
    ensures { CheckpointsStand }
{}

// Theorem: where the pages that the root record names have come one after the other, the tables in memory are those that the drawers stand for.
pub fn boot_stands()
    ensures { BootStands }
{}

// Theorem: whatever happens, a machine has all its drawers; what is released of its row is before the place of the root record that they stand for; and where that
// names pages, the tables that they stand for are those of its hour, of the readings before its place.
pub fn kept_adds_up()
    ensures { KeptAddsUp }
{}

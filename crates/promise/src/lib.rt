// What the machines promise together.
#![tactic(auto)]

ghost use Rattle.promise.specs.Promise.{InOrder, Outlives, NeverBack};

// Theorem: letters between two machines come in the order in which they were sent.
pub fn in_order()
    ensures { InOrder }
{}

// Theorem: drawers, and what was let go of, outlive a fall.
pub fn outlives()
    ensures { Outlives }
{}

// Theorem: what was told is never taken back.
pub fn never_back()
    ensures { NeverBack }
{}

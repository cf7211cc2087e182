// How many acts of each kind were done.
ghost use Rattle.std.specs.Prelude.{◌≡◌, ◌<◌, Some, slice_index};
ghost use Rattle.world.specs.Tallies.{place_of, kind_of, name_of, none_counted, counted, total_of};

use hut::Effect;
use std::fmt;

// The kinds of acts, and faults.
pub const KINDS: usize = 9;

#[derive(Clone, Copy, PartialEq, Eq, Debug)]
pub enum Kind {
    Asked,
    Sought,
    Released,
    Sent,
    Kept,
    Recalled,
    Told,
    Rested,
    Fault,
}

impl Kind {
    pub const ALL: [Kind; KINDS] = [
        Kind::Asked,
        Kind::Sought,
        Kind::Released,
        Kind::Sent,
        Kind::Kept,
        Kind::Recalled,
        Kind::Told,
        Kind::Rested,
        Kind::Fault,
    ];

    // Its place in a tally.
    fn place(self) -> usize
        ensures place { result ≡ place_of self }
        ensures low { result < 9 }
    {
        self as usize
    }
}

impl From<&Effect> for Kind {
    ghost from_gives = { λ f k. k ≡ kind_of f.now };

    fn from(effect: &Effect) -> Kind {
        match effect {
            Effect::Asked => Kind::Asked,
            Effect::Sought(_) => Kind::Sought,
            Effect::Released(_) => Kind::Released,
            Effect::Sent(..) => Kind::Sent,
            Effect::Kept(_) => Kind::Kept,
            Effect::Recalled(_) => Kind::Recalled,
            Effect::Told(_) => Kind::Told,
            Effect::Rested => Kind::Rested,
            Effect::Fault => Kind::Fault,
        }
    }
}

// As it is counted.
impl fmt::Display for Kind {
    ghost output = { λ k. Some (name_of k) };

    fn fmt<W: fmt::Write>(&self, f: &mut fmt::Formatter<W>) -> fmt::Result {
        f.write_str(match self {
            Kind::Asked => "asked",
            Kind::Sought => "sought",
            Kind::Released => "released",
            Kind::Sent => "sent",
            Kind::Kept => "kept",
            Kind::Recalled => "recalled",
            Kind::Told => "told",
            Kind::Rested => "rested",
            Kind::Fault => "faults",
        })
    }
}

#[derive(Clone, Copy)]
pub struct Tally {
    counts: [u64; KINDS],
}

impl Tally {
    pub fn new() -> Tally
        ensures { result.counts ≡ none_counted }
    {
        Tally { counts: [0; KINDS] }
    }

    // How many of this kind.
    pub fn of(&self, kind: Kind) -> u64
        ensures { result ≡ slice_index self.now.counts (place_of kind) }
    {
        self.counts[kind.place()]
    }

    // One more of this kind; a count that is full stays full.
    pub(crate) fn count(&mut self, kind: Kind)
        ensures { self.new.counts ≡ counted self.old.counts kind }
    {
        let place = kind.place();
        self.counts[place] = self.counts[place].saturating_add(1);
    }

    // All of them together.
    pub fn total(&self) -> u64
        ensures { result ≡ total_of self.now.counts }
    {
        self.counts
            .iter()
            .fold(0, |acts: u64, count| acts.saturating_add(*count))
    }
}

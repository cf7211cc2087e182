// Letters on the wires, in the order in which they were sent.
ghost use Rattle.std.specs.Prelude.{◌≡◌, not, position};
ghost use Rattle.std.specs.Option.{option_to_list};
ghost use Rattle.sums.specs.Sums.{each, those};
ghost use Rattle.machine.specs.Run.{is_between, touches, first_between, without_first};
ghost use Rattle.world.specs.Posts.{as_letter};

use crate::post::Letter;

impl Letter {
    pub fn is_between(&self, i: u64, j: u64) -> bool
        ensures { result ≡ is_between i j (as_letter self.now) }
    {
        self.sender == i && self.reader == j
    }

    pub fn touches(&self, i: u64) -> bool
        ensures { result ≡ touches i (as_letter self.now) }
    {
        self.sender == i || self.reader == i
    }
}

// Where the oldest letter from i to j is, if there is one.
fn oldest(wires: &[Letter], i: u64, j: u64) -> Option<usize>
    ensures { result ≡ position (λ l. is_between i j (as_letter l)) wires.now }
{
    wires.iter().position(|letter| letter.is_between(i, j))
}

// Takes the oldest letter from i to j off the wires, if there is one.
pub fn take_letter(wires: &mut Vec<Letter>, i: u64, j: u64) -> Option<Letter>
    ensures first { first_between i j (each as_letter wires.old.items) ≡ each as_letter (option_to_list result) }
    ensures rest { each as_letter wires.new.items ≡ without_first i j (each as_letter wires.old.items) }
{
    let place = oldest(wires, i, j)?;
    Some(wires.remove(place))
}

// Takes all letters from machine i and to it off the wires.
pub fn cut(wires: &mut Vec<Letter>, i: u64)
    ensures { each as_letter wires.new.items ≡ those (λ l. not (touches i l)) (each as_letter wires.old.items) }
{
    wires.retain(|letter| !letter.touches(i));
}

// Numbers at random that a seed decides (splitmix64).
ghost use Rattle.std.specs.Prelude.{◌≡◌, ◌%◌, ◌<◌};
ghost use Rattle.chance.specs.Chances.{next_state, mixed};

const STRIDE: u64 = 0x9e37_79b9_7f4a_7c15;

const FIRST_FACTOR: u64 = 0xbf58_476d_1ce4_e5b9;

const SECOND_FACTOR: u64 = 0x94d0_49bb_1331_11eb;

#[derive(Drop)]
pub struct Random {
    pub state: u64,
}

impl Random {
    pub fn new(seed: u64) -> Random
        ensures { result.state ≡ seed }
    {
        Random { state: seed }
    }

    // The next number, of all that have 64 bits.
    pub fn draw(&mut self) -> u64
        ensures state { self.new.state ≡ next_state self.old.state }
        ensures value { result ≡ mixed (next_state self.old.state) }
    {
        self.state = self.state.wrapping_add(STRIDE);
        let first = (self.state ^ (self.state >> 30)).wrapping_mul(FIRST_FACTOR);
        let second = (first ^ (first >> 27)).wrapping_mul(SECOND_FACTOR);
        second ^ (second >> 31)
    }

    // A number below n, from the next one; 0 where there is none below n.
    pub fn below(&mut self, n: u64) -> u64
        ensures state { self.new.state ≡ next_state self.old.state }
        ensures bound { 0 < n → result < n }
        ensures value { 0 < n → result ≡ mixed (next_state self.old.state) % n }
        ensures none { n ≡ 0 → result ≡ 0 }
    {
        let number = self.draw();
        if n == 0 {
            return 0;
        }
        number % n
    }
}

//! Numbers that look random, the same ones in each run.

ghost use Rattle.std.specs.Prelude.{◌≤◌, ◌<◌};

/// A generator: each number follows from the one before it.
#[derive(Drop)]
pub struct Dice {
    state: u64,
}

impl Dice {
    /// The generator that begins with this number.
    pub fn new(seed: u64) -> Dice {
        let mut dice = Dice { state: seed };
        dice.turns();
        dice.turns();
        dice
    }

    /// The next number is a multiple of the last one and a constant more, by Knuth's constants for
    /// 64 bits.
    fn turns(&mut self) {
        self.state = self
            .state
            .wrapping_mul(6_364_136_223_846_793_005)
            .wrapping_add(1_442_695_040_888_963_407);
    }

    /// A number below this one.
    pub fn below(&mut self, end: u64) -> u64
        requires { 1 ≤ end }
        ensures { result < end }
    {
        self.turns();
        (self.state >> 33) % end
    }
}

//! Numbers drawn one after the other from a seed, for crates that try others at random.

ghost use Rattle.std.specs.Prelude.{◌<◌};

/// The numbers of a seed that are still to be drawn.
#[derive(Clone, Copy)]
pub struct Draws {
    state: u64,
}

impl Draws {
    /// The draws of a seed.
    pub fn new(seed: u64) -> Draws {
        Draws { state: seed }
    }

    /// The draws of a seed without the first so many: those of small seeds begin alike.
    pub fn behind(seed: u64, first: u32) -> Draws {
        let mut draws = Draws::new(seed);
        for _ in 0..first {
            draws.step();
        }
        draws
    }

    fn step(&mut self) {
        self.state = self
            .state
            .wrapping_mul(6_364_136_223_846_793_005)
            .wrapping_add(1_442_695_040_888_963_407);
    }

    /// A number below `most`.
    pub fn below(&mut self, most: u32) -> u32
        requires { 0 < most }
        ensures { result < most }
    {
        self.step();
        ((self.state >> 33) % u64::from(most)) as u32
    }

    /// True once in so many draws, and always where they are none.
    pub fn once_in(&mut self, times: u32) -> bool {
        times == 0 || self.below(times) == 0
    }
}

//! The clocks of a match.
ghost use Rattle.std.specs.Prelude.{◌≡◌, ◌≤◌, length, take};

use arrayvec::ArrayVec;
use std::marker::Model;

/// The clocks of the steps of a match, in order. Contracts see them as a list.
#[derive(Drop)]
pub struct Clocks {
    clocks: ArrayVec<u32, 8>,
}

impl Model for Clocks {
    ghost use Rattle.std.specs.Prelude.{ℕ, List};

    ghost Value = { List ℕ };

    ghost view = { λ c. c.clocks.items };
}

impl Clocks {
    /// The first `count` of these clocks.
    pub(crate) fn first_of(clocks: &[u32; 8], count: usize) -> Clocks
        requires { count ≤ 8 }
        ensures { result ≡ take count clocks.now }
    {
        let mut first = ArrayVec::new();
        first.try_extend_from_slice(&clocks[..count]).unwrap();
        Clocks { clocks: first }
    }

    /// The clocks, at most 8.
    pub fn as_slice(&self) -> &[u32]
        ensures value { result.now ≡ self.now }
        ensures few { length result.now ≤ 8 }
    {
        self.clocks.as_slice()
    }
}

/// What a hunt found.
#[derive(Drop)]
pub struct Found {
    /// The clock of each step of the least match.
    pub clocks: Clocks,
}

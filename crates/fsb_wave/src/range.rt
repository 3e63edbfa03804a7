ghost use Rattle.std.specs.Prelude.{◌≡◌, ◌≤◌, ◌<◌, ◌+◌};
ghost use Rattle.fsb_wave.specs.WaveText.{first_kept, reached};

/// A range of at most 64 clocks.
#[derive(Clone, Copy)]
pub struct ClockRange {
    /// The first clock.
    pub from: u32,
    /// The last clock.
    pub to: u32,
    ghost ordered: { from ≤ to },
    ghost few: { to ≤ from + 63 },
}

impl ClockRange {
    /// The clock before the range, which is the first one whose sample is kept.
    pub fn first_kept(&self) -> u64
        ensures { result ≡ first_kept self.now.from }
    {
        u64::from(self.from.saturating_sub(1))
    }

    /// The clock of a place of the range.
    pub fn clock_of(&self, place: usize) -> u64
        requires { place < 64 }
        ensures { result ≡ self.now.from + place }
    {
        u64::from(self.from) + place as u64
    }

    /// How many clocks of the range a trace of `count` samples reaches.
    pub fn reached(&self, count: u64) -> usize
        ensures value { result ≡ reached self.now.from self.now.to count }
        ensures few { result ≤ 64 }
    {
        let end = (u64::from(self.to) + 1).min(count);
        end.saturating_sub(u64::from(self.from)) as usize
    }

    /// The place of a clock among the samples that are kept.
    pub fn place_of(&self, clock: u64) -> usize
        requires low { first_kept self.now.from ≤ clock }
        requires high { clock ≤ self.now.to }
        ensures value { result + first_kept self.now.from ≡ clock }
        ensures within { result < 65 }
    {
        (clock - self.first_kept()) as usize
    }
}

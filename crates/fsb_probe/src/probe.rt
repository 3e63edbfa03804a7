//! Objects that weigh samples.
ghost use Rattle.std.specs.Prelude.{◌≡◌, ◌≤◌, ◌+◌, ◌^◌, ℕ};
ghost use Rattle.fsb_signal.specs.declared.sample.Sample.{Sample};

use fsb_signal::Sample;

/// Is shown samples, and adds up their weights. None of its calls takes memory.
///
/// `counted` is its total, and `weight` what a sample weighs for it, which never changes.
pub trait Probe: Drop {
    ghost counted: { Self → ℕ };

    ghost weight: { Self → Sample → ℕ };

    /// Makes the total 0.
    fn clear(&mut self)
        ensures counted { counted self.new ≡ 0 }
        ensures weight_stays { weight self.new ≡ weight self.old };

    /// Adds the weight of the sample, which is at most 64.
    fn see(&mut self, sample: &Sample)
        requires { counted self.old ≤ 2 ^ 63 }
        ensures counted { counted self.new ≡ counted self.old + weight self.old sample.now }
        ensures light { weight self.old sample.now ≤ 64 }
        ensures weight_stays { weight self.new ≡ weight self.old };

    /// The total.
    fn total(&self) -> u64
        ensures { result ≡ counted self.now };
}

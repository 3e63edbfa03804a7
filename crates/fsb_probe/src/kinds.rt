//! The kinds of probes that the bench has.
ghost use Rattle.std.specs.Prelude.{◌≡◌, ◌≤◌, ◌<◌, ◌^◌};
ghost use Rattle.fsb_probe.specs.Weights.{line_weight, data_weight};

use crate::probe::Probe;
use fsb_signal::{Lines, Sample};
use std::marker::Model;

/// Counts the clocks at which a control line is asserted. Contracts see the bit of the line, and
/// the total.
#[derive(Debug, Drop)]
pub struct LineProbe {
    line: Lines,
    total: u64,
}

impl Model for LineProbe {
    ghost use Rattle.std.specs.Prelude.{ℕ};

    ghost Value = { ℕ × ℕ };

    ghost view = { λ probe. (probe.line.0, probe.total) };
}

impl LineProbe {
    /// Of the control line of this number, in the order of the bits of `Lines`.
    pub fn new(line: u8) -> LineProbe
        requires { line < 21 }
        ensures { result ≡ (2 ^ line, 0) }
    {
        LineProbe {
            line: Lines(1 << line),
            total: 0,
        }
    }
}

impl Probe for LineProbe {
    ghost counted = { λ probe. probe.1 };

    ghost weight = { λ probe. line_weight probe.0 };

    fn clear(&mut self) {
        self.total = 0;
    }

    fn see(&mut self, sample: &Sample) {
        self.total += u64::from(sample.has(self.line));
    }

    fn total(&self) -> u64 {
        self.total
    }
}

/// Counts the data bits that are asserted in the clocks with DRDY#. Contracts see the total.
#[derive(Debug, Drop)]
pub struct DataProbe {
    total: u64,
}

impl Model for DataProbe {
    ghost use Rattle.std.specs.Prelude.{ℕ};

    ghost Value = { ℕ };

    ghost view = { λ probe. probe.total };
}

impl DataProbe {
    /// Of no clock yet.
    pub fn new() -> DataProbe
        ensures { result ≡ 0 }
    {
        DataProbe { total: 0 }
    }
}

/// The weight of the data of a sample.
fn data_weight_of(sample: &Sample) -> u64
    ensures weight { result ≡ data_weight sample.now }
    ensures light { result ≤ 64 }
{
    if sample.has(Lines::DRDY) {
        u64::from(sample.dbus.bits.count_ones())
    } else {
        0
    }
}

impl Probe for DataProbe {
    ghost counted = { λ total. total };

    ghost weight = { λ _. data_weight };

    fn clear(&mut self) {
        self.total = 0;
    }

    fn see(&mut self, sample: &Sample) {
        self.total += data_weight_of(sample);
    }

    fn total(&self) -> u64 {
        self.total
    }
}

//! Several probes that are shown one trace.
ghost use Rattle.std.specs.Prelude.{◌≡◌, ◌≤◌, ◌<◌, ◌+◌, ◌^◌, map, length};
ghost use Rattle.fsb_probe.specs.Weights.{total_weight, totals_of};

use crate::probe::Probe;
use fsb_signal::Sample;

/// Clears each object and shows it the samples, in order. It takes no memory.
pub fn watch_all(probes: &mut [Box<dyn Probe>], w: &[Sample])
    requires { length w.now < 2 ^ 32 }
    ensures counted { map (λ p. counted p) probes.new
        ≡ totals_of (map (λ p. weight p) probes.old) w.now }
    ensures weights_stay { map (λ p. weight p) probes.new ≡ map (λ p. weight p) probes.old }
{
    for probe in probes {
        watch_one(probe, w);
    }
}

// Clears one object and shows it the samples.
fn watch_one(probe: &mut Box<dyn Probe>, w: &[Sample])
    requires { length w.now < 2 ^ 32 }
    ensures counted { counted probe.new ≡ total_weight (weight probe.old) w.now }
    ensures weight_stays { weight probe.new ≡ weight probe.old }
{
    probe.clear();
    for sample in w {
        see_one(probe, sample);
    }
}

// Shows one object one sample.
fn see_one(probe: &mut Box<dyn Probe>, sample: &Sample)
    requires { counted probe.old ≤ 2 ^ 63 }
    ensures counted { counted probe.new ≡ counted probe.old + weight probe.old sample.now }
    ensures light { weight probe.old sample.now ≤ 64 }
    ensures weight_stays { weight probe.new ≡ weight probe.old }
{
    probe.see(sample)
}

/// The total of an object.
pub fn total_of(probe: &Box<dyn Probe>) -> u64
    ensures { result ≡ counted probe.now }
{
    probe.total()
}

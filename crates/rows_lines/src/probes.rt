//! The totals of the probes that a list holds.

use fsb_probe::{DataProbe, LineProbe, Probe, total_of, watch_all};
use fsb_signal::{Lines, Sample};
use std::alloc::{AllocError, Global};

/// A sample with these lines and data.
fn sample(lines: Lines, data: u64) -> Sample {
    Sample::known(Lines(lines.0 % (1 << 21)), 0, 0, data)
}

/// A probe of each of three lines, and one of the data.
fn probes_of(alloc: Global) -> Result<Vec<Box<dyn Probe>>, AllocError> {
    let mut probes: Vec<Box<dyn Probe>> = Vec::new(alloc);
    probes.push(Box::new(alloc, LineProbe::new(7))?)?;
    probes.push(Box::new(alloc, LineProbe::new(17))?)?;
    probes.push(Box::new(alloc, LineProbe::new(20))?)?;
    probes.push(Box::new(alloc, DataProbe::new())?)?;
    Ok(probes)
}

/// Whether the probes have these totals.
fn have_totals(probes: &[Box<dyn Probe>], totals: &[u64; 4]) -> bool {
    for (probe, total) in probes.iter().zip(totals.iter()) {
        if total_of(probe) != *total {
            return false;
        }
    }
    true
}

/// Whether the probes have the totals of four samples once they have watched them.
fn have_watched(probes: &mut [Box<dyn Probe>]) -> bool {
    let w = [
        sample(Lines::ADS, 7),
        sample(Lines(Lines::ADS.0 | Lines::DRDY.0), 5),
        sample(Lines::DRDY, u64::MAX),
        sample(Lines::RP, 0),
    ];
    watch_all(probes, &w);
    have_totals(probes, &[2, 2, 1, 66])
}

#[test]
fn each_probe_has_its_total(rt: HostRuntime) {
    let mut probes = probes_of(rt.alloc()).expect(&rt, "out of memory");
    assert!(rt; have_watched(&mut probes));
    // What was counted before is forgotten.
    assert!(rt; have_watched(&mut probes));
    watch_all(&mut probes, &[]);
    assert!(rt; have_totals(&probes, &[0, 0, 0, 0]));
}

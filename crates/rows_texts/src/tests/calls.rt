//! Each public call of the reader once, over a simulator's dump.

use super::joined;
use fsb_signal::Sample;
use rows_store::{SIMULATOR_HEAD, SIMULATOR_RISES, SIMULATOR_START, UNMARKED};
use std::test::Fail;
use vcd_read::{Reader, read_dump};

/// A dump with two rises of BCLK; BREQ0# changes at the time of the first.
const SIMULATOR: [&str; 3] = [SIMULATOR_HEAD, SIMULATOR_START, SIMULATOR_RISES];

/// Whether this sample of the simulator's dump asserts these lines and nothing else, and its data are unknown.
fn is_sample(sample: &Sample, lines: u32) -> bool {
    sample.lines.0 == lines
        && sample.unknown.0 == 0
        && sample.req.bits == 0
        && sample.dbus.unknown == u64::MAX
}

/// Whether these are the samples of the simulator's dump.
fn are_samples(samples: &[Sample]) -> bool {
    match samples {
        [first, second] => is_sample(first, 0) && is_sample(second, 1),
        _ => false,
    }
}

#[test]
fn dump_read_at_once(rt: HostRuntime) -> Result<(), Fail> {
    let bytes = joined(rt.alloc(), &SIMULATOR)?;
    let (marks, samples) = read_dump(rt.alloc(), &bytes)?;
    assert!(rt; marks == UNMARKED);
    assert!(rt; are_samples(&samples));
    Ok(())
}

#[test]
fn dump_fed_in_two_pieces(rt: HostRuntime) -> Result<(), Fail> {
    let bytes = joined(rt.alloc(), &SIMULATOR)?;
    let (first, second) = bytes.split_at(bytes.len() / 2);
    let mut samples = Vec::new(rt.alloc());
    let mut reader = Reader::new(rt.alloc())?;
    assert!(rt; reader.feed(first, &mut samples) == Ok(()));
    assert!(rt; reader.marks() == None, "in the declarations");
    assert!(rt; reader.feed(second, &mut samples) == Ok(()));
    assert!(rt; reader.marks() == Some(UNMARKED));
    assert!(rt; reader.finish(&mut samples) == Ok(()));
    assert!(rt; reader.marks() == Some(UNMARKED));
    assert!(rt; are_samples(&samples));
    Ok(())
}

#[test]
fn dump_as_long_as_the_limit(rt: HostRuntime) -> Result<(), Fail> {
    let bytes = joined(rt.alloc(), &SIMULATOR)?;
    let mut samples = Vec::new(rt.alloc());
    let mut reader = Reader::up_to(rt.alloc(), 2)?;
    assert!(rt; reader.feed(&bytes, &mut samples) == Ok(()));
    assert!(rt; reader.finish(&mut samples) == Ok(()));
    assert!(rt; are_samples(&samples));
    Ok(())
}

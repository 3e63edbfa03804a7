//! The samples of a worked load as the dumps of several tools have it.

use super::Mark;
use fsb_signal::{Lines, Sample, Word, idle_sample};
use rows_store::{LOAD_THEN_STORE_HIT, sample_at, sample_with, with_parity};
use std::alloc::{AllocError, Global};

/// No bit of the data is known.
pub(crate) const NO_DATA: Mark = Mark::Data(0, 0xffff_ffff_ffff_ffff);

/// The sample at a clock of the load: the request in clocks 2 and 3, the response in clock 8, the data in clocks 8 to 11.
fn load_at(at: usize) -> Sample {
    sample_at(&LOAD_THEN_STORE_HIT, &[(8, 0, 7)], at)
}

/// The first 15 clocks of the load.
pub(crate) fn load(alloc: Global) -> Result<Vec<Sample>, AllocError> {
    let mut w = Vec::new(alloc);
    for at in 0..15 {
        w.push(load_at(at))?;
    }
    Ok(w)
}

/// The same, with data that is known in clocks 8 to 11 alone.
pub(crate) fn load_of_known_data(alloc: Global) -> Result<Vec<Sample>, AllocError> {
    let unknown = Word {
        bits: 0,
        unknown: u64::MAX,
    };
    let mut w = Vec::new(alloc);
    for at in 0..15 {
        let seen = load_at(at);
        let dbus = if seen.has(Lines::DRDY) {
            seen.dbus
        } else {
            unknown
        };
        w.push(Sample {
            lines: seen.lines,
            unknown: seen.unknown,
            req: seen.req,
            addr: seen.addr,
            dbus,
        })?;
    }
    Ok(w)
}

/// The first clocks of the load, each one clock late.
pub(crate) fn late_load(alloc: Global) -> Result<Vec<Sample>, AllocError> {
    let mut w = Vec::new(alloc);
    w.push(idle_sample())?;
    for at in 0..4 {
        w.push(load_at(at))?;
    }
    Ok(w)
}

/// The load up to clock 12, with the parity of the address and of the request, in clocks 2 and 3.
pub(crate) fn load_with_parity(alloc: Global) -> Result<Vec<Sample>, AllocError> {
    let mut w = Vec::new(alloc);
    for at in 0..13 {
        let clock = LOAD_THEN_STORE_HIT.get(at).copied().unwrap_or((0, 0, 0));
        let data = if at == 8 { 7 } else { 0 };
        w.push(sample_with(with_parity(clock), data))?;
    }
    Ok(w)
}

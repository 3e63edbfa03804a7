//! The dumps of worked waveforms.

use fsb_io::{MemSink, Memory};
use rows_store::{Clock, Extra, trace_of};
use std::alloc::Global;
use vcd_write::put_dump;

/// The dump of profile 1 that is written of so many clocks of a waveform, with what is asserted beside, idle behind its last
/// clock: at most 10,000 bytes of it.
pub fn written(
    alloc: Global,
    total: usize,
    clocks: &[Clock],
    extras: &[Extra],
) -> Result<MemSink, Memory> {
    let samples = trace_of(alloc, total, clocks, extras)?;
    let mut sink = MemSink::new(alloc, 10_000, &[])?;
    if samples.len() <= 200_000 {
        let _ = put_dump(&mut sink, 1, &samples);
    }
    Ok(sink)
}

//! Worked waveforms that are changed at one clock.

ghost use Rattle.std.specs.Prelude.{◌≡◌, length, IfOk};

use fsb_signal::Sample;
use rows_store::{Clock, sample, trace};
use std::alloc::{AllocError, Global};

/// The trace of these clocks, with this sample at `at`.
pub(crate) fn with_sample(
    alloc: Global,
    clocks: &[Clock],
    at: usize,
    sample: Sample,
) -> Result<Vec<Sample>, AllocError>
    ensures { IfOk result (λ w. length w.items ≡ length clocks.now) }
{
    let mut w = trace(alloc, clocks)?;
    if at < w.len() {
        w[at] = sample;
    }
    Ok(w)
}

/// The trace of these clocks, with these lines turned over at `at`.
pub(crate) fn with_turned(
    alloc: Global,
    clocks: &[Clock],
    at: usize,
    turned: u32,
) -> Result<Vec<Sample>, AllocError>
    ensures { IfOk result (λ w. length w.items ≡ length clocks.now) }
{
    let (lines, req, addr) = clocks.get(at).copied().unwrap_or((0, 0, 0));
    with_sample(alloc, clocks, at, sample((lines ^ turned, req, addr)))
}

//! The samples of the waveforms: all that is laid out clock by clock becomes samples here.

ghost use Rattle.std.specs.Prelude.{◌≡◌, ◌≤◌, IfOk, IsTrue, length};
ghost use Rattle.std.specs.List.{list_all};
ghost use Rattle.fsb_signal.specs.Parity.{has_no_parity};
ghost use Rattle.fsb_signal.specs.Samples.{is_known, is_known_trace};

use crate::lines::ADS;
use crate::runs::Clock;
use fsb_signal::{Lines, Marks, Sample, Word, idle_sample};
use std::alloc::{AllocError, Global};

/// The marks of a dump that declares no parity line.
pub const UNMARKED: Marks = Marks {
    ap: false,
    rp: false,
};

/// What a clock asserts beside what is laid out: the clock, control lines, and data.
pub type Extra = (usize, u32, u64);

/// What of a clock is unknown: control lines, and bits of REQ, of the address word and of the data.
#[derive(Clone, Copy)]
pub struct Blur {
    /// The control lines: where there is one, no line is asserted.
    pub lines: u32,
    /// The bits of REQ: where there is one, no bit of REQ is asserted.
    pub req: u64,
    /// The bits of the address word, likewise.
    pub addr: u64,
    /// The bits of the data.
    pub data: u64,
}

/// Nothing is unknown.
pub const CLEAR: Blur = Blur {
    lines: 0,
    req: 0,
    addr: 0,
    data: 0,
};

/// The sample of a clock, all of it known and with no data asserted.
pub fn sample(clock: Clock) -> Sample
    ensures { IsTrue (is_known result) }
{
    sample_with(clock, 0)
}

/// The sample of a clock, all of it known, with these data.
pub fn sample_with(clock: Clock, data: u64) -> Sample
    ensures { IsTrue (is_known result) }
{
    let (lines, req, addr) = clock;
    Sample::known(
        Lines(lines % (1 << 21)),
        (req % (1 << 5)) as u8,
        addr % (1 << 33),
        data,
    )
}

/// The clock with the parity of its words: AP0# and AP1# where an odd number of the address bits below 21 and from there on is
/// asserted, RP# where one of REQ and ADS# is.
pub fn with_parity(clock: Clock) -> Clock {
    let (lines, req, addr) = clock;
    let begins = u32::from(lines & ADS != 0);
    let counts = [
        (Lines::AP0.0, (addr % (1 << 21)).count_ones()),
        (Lines::AP1.0, (addr >> 21).count_ones()),
        (Lines::RP.0, req.count_ones() % 2 + begins),
    ];
    let mut all = lines;
    for (line, count) in counts {
        if count % 2 == 1 {
            all |= line;
        }
    }
    (all, req, addr)
}

/// The sample of a clock of which this is unknown.
pub fn blurred(clock: Clock, blur: Blur) -> Sample {
    let (lines, req, addr) = clock;
    let unknown = blur.lines % (1 << 21);
    Sample {
        lines: Lines(if unknown == 0 { lines % (1 << 21) } else { 0 }),
        unknown: Lines(unknown),
        req: word(req % (1 << 5), blur.req % (1 << 5)),
        addr: word(addr % (1 << 33), blur.addr % (1 << 33)),
        dbus: word(0, blur.data),
    }
}

/// The word with these bits, or where some are unknown with those and no other.
fn word(bits: u64, unknown: u64) -> Word
    ensures bits { result.bits ≤ bits }
    ensures unknown { result.unknown ≤ unknown }
{
    if unknown == 0 {
        Word::known(bits)
    } else {
        Word { bits: 0, unknown }
    }
}

/// The trace of these clocks.
pub fn trace(alloc: Global, clocks: &[Clock]) -> Result<Vec<Sample>, AllocError>
    ensures { IfOk result (λ w. length w.items ≡ length clocks.now) }
{
    let mut w = Vec::new(alloc);
    for clock in clocks {
        w.push(sample(*clock))?;
    }
    Ok(w)
}

/// The sample at a clock of a waveform of profile 1, with what is asserted beside: idle behind its last clock, and at a clock
/// that asserts a line of parity.
pub fn sample_at(clocks: &[Clock], extras: &[Extra], at: usize) -> Sample
    ensures known { IsTrue (is_known result) }
    ensures parity { IsTrue (has_no_parity result) }
{
    let (lines, req, addr) = clocks.get(at).copied().unwrap_or((0, 0, 0));
    let (more, data) = extra_at(extras, at);
    let sample = sample_with((lines | more, req, addr), data);
    if has_no_parity(&sample) {
        sample
    } else {
        idle_sample()
    }
}

/// The control lines and the data that are asserted beside what is laid out for this clock.
fn extra_at(extras: &[Extra], clock: usize) -> (u32, u64) {
    for &(at, lines, data) in extras {
        if at == clock {
            return (lines, data);
        }
    }
    (0, 0)
}

/// Whether the sample may stand in a dump of profile 1.
fn has_no_parity(sample: &Sample) -> bool
    ensures { result ≡ has_no_parity sample.now }
{
    !(sample.has(Lines::AP0) || sample.has(Lines::AP1) || sample.has(Lines::RP))
}

/// The trace of so many clocks of a waveform of profile 1, with what is asserted beside, idle behind its last clock.
pub fn trace_of(
    alloc: Global,
    total: usize,
    clocks: &[Clock],
    extras: &[Extra],
) -> Result<Vec<Sample>, AllocError>
    ensures total { IfOk result (λ w. length w.items ≡ total) }
    ensures known { IfOk result (λ w. IsTrue (is_known_trace w.items)) }
    ensures parity { IfOk result (λ w. IsTrue (list_all has_no_parity w.items)) }
{
    let mut w = Vec::new(alloc);
    for at in 0..total {
        w.push(sample_at(clocks, extras, at))?;
    }
    Ok(w)
}

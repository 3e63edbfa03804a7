//! The log and the waveform of a bench as the texts that are stored.

use arrayvec::ArrayVec;
use fsb_core::Bench;
use fsb_io::{put_decimal, put_hex};
use fsb_plan_size::access_count;
use fsb_report::{end_line, log_line};
use fsb_signal::{Sample, control_line};

/// Appends the printed log of a bench; None for want of memory.
pub(crate) fn put_log(text: &mut Vec<u8>, bench: &Bench) -> Option<()> {
    for done in bench.log() {
        text.extend_from_slice(log_line(done).as_slice()).ok()?;
    }
    let count = u32::try_from(bench.log().len()).ok()?;
    let last = end_line(bench.plan().clocks, count, access_count(bench.plan()));
    text.extend_from_slice(last.as_slice()).ok()
}

/// Appends a line for each sample: the clock, its control lines or `-`, and its words that are not 0.
pub(crate) fn put_trace(text: &mut Vec<u8>, trace: &[Sample]) -> Option<()> {
    for (clock, sample) in trace.iter().enumerate() {
        put_number(text, clock as u64)?;
        put_lines(text, sample)?;
        put_word(text, " REQ=", sample.req.bits)?;
        put_word(text, " A=", sample.addr.bits)?;
        put_word(text, " D=", sample.dbus.bits)?;
        put(text, "\n")?;
    }
    Some(())
}

/// Appends the control lines that are asserted, or `-`.
fn put_lines(text: &mut Vec<u8>, sample: &Sample) -> Option<()> {
    let mut none = true;
    for number in 0..21 {
        let (name, line) = control_line(number);
        if sample.has(line) {
            put(text, " ")?;
            put(text, name)?;
            none = false;
        }
    }
    if none { put(text, " -") } else { Some(()) }
}

/// Appends a word that is not 0, behind its name.
fn put_word(text: &mut Vec<u8>, name: &str, bits: u64) -> Option<()> {
    if bits == 0 {
        return Some(());
    }
    put(text, name)?;
    put_hex_number(text, bits)
}

/// Appends a word; None for want of memory.
pub(crate) fn put(text: &mut Vec<u8>, word: &str) -> Option<()> {
    text.extend_from_slice(word.as_bytes()).ok()
}

/// Appends a number in decimal.
pub(crate) fn put_number(text: &mut Vec<u8>, number: u64) -> Option<()> {
    let mut digits: ArrayVec<u8, 24> = ArrayVec::new();
    put_decimal(&mut digits, number);
    text.extend_from_slice(digits.as_slice()).ok()
}

/// Appends a number in hexadecimal.
pub(crate) fn put_hex_number(text: &mut Vec<u8>, number: u64) -> Option<()> {
    let mut digits: ArrayVec<u8, 24> = ArrayVec::new();
    put_hex(&mut digits, number);
    text.extend_from_slice(digits.as_slice()).ok()
}

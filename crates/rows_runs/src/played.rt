//! A bench that is played.

use crate::benches::{LOAD_THEN_STORE, bare_bench};
use fsb_io::{MemSink, Memory};
use fsb_play::{Bench, Played, Print, play};
use rows_store::{LOAD_THEN_STORE_HIT, trace_of};
use std::alloc::Global;
use vcd_write::put_dump;

/// The dump of the worked waveform, with the byte that is loaded.
fn wanted_dump(alloc: Global) -> Result<MemSink, Memory> {
    let samples = trace_of(alloc, 60, &LOAD_THEN_STORE_HIT, &[(8, 0, 7)])?;
    let mut wanted = MemSink::new(alloc, 10_000, &[])?;
    if samples.len() <= 200_000 {
        let _ = put_dump(&mut wanted, 1, &samples);
    }
    Ok(wanted)
}

/// Whether the dump has its name, and the bytes of the worked waveform.
fn is_wanted(alloc: Global, dump: &MemSink) -> Result<bool, Memory> {
    let wanted = wanted_dump(alloc)?;
    Ok(
        dump.begun_as() == Some(b"x".as_slice())
            && dump.holds() == wanted.holds()
            && dump.holds().len() == 2_070,
    )
}

/// Whether the log is that of the run.
fn is_log(out: &MemSink) -> bool {
    out.holds() == b"11 0 0 ld 1 40 = 7\n12 0 1 st 1 41 = 5\nend clocks=60 done=2 of=2\n".as_slice()
}

/// Whether a bench before its first clock is played to its end.
fn is_played(bench: &mut Bench, out: &mut MemSink, dump: &mut MemSink) -> bool {
    bench.clock() == 0 && play(bench, &Print::LogAndDump("x"), out, dump) == Played::Done
}

/// Whether it is played with that log and that dump.
fn is_first_run(alloc: Global, bench: &mut Bench) -> Result<bool, Memory> {
    let mut out = MemSink::new(alloc, 1_000, &[])?;
    let mut dump = MemSink::new(alloc, 10_000, &[])?;
    Ok(is_played(bench, &mut out, &mut dump) && is_log(&out) && is_wanted(alloc, &dump)?)
}

/// A load of a byte that memory has, and a store into its line.
#[test]
fn first_run(rt: HostRuntime) {
    let mut bench = bare_bench(rt.alloc(), LOAD_THEN_STORE).expect(&rt, "a bench");
    assert!(rt; matches!(is_first_run(rt.alloc(), &mut bench), Ok(true)));
}

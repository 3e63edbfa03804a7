//! Dumps as they are written: whole ones, and clocks by themselves.

ghost use Rattle.std.specs.Prelude.{IsTrue};
ghost use Rattle.fsb_signal.specs.Samples.{is_known_trace};

use fsb_io::{Failed, MemSink};
use fsb_signal::{Sample, idle_sample};
use rows_store::{
    LOAD_THEN_STORE_HIT, NO_SAMPLES, PARITY_OF_A_LOAD, sample, sample_at, trace_of, with_parity,
};
use std::test::Fail;
use vcd_write::{put_clock, put_dump, put_header};

const TWO_CLOCKS: &str = "\
#20
0!
0)
b11001 *
b111111111111111111111111111110111 +
#25
1!
#30
0!
1\"
1)
b11101 *
b111111111111111111111111111111101 +
#35
1!
";

/// Clocks 2, 3 and 4 of a load of address 40 in profile 2.
const THREE_CLOCKS_WITH_PARITY: [&str; 3] = [
    "\
#20
0!
0)
b11001 *
b111111111111111111111111111110111 +
b10 5
06
#25
1!
",
    "\
#30
0!
1\"
1)
b11101 *
b111111111111111111111111111111101 +
#35
1!
",
    "\
#40
0!
b11111 *
b111111111111111111111111111111111 +
b11 5
16
#45
1!
",
];

#[test]
fn dump_of_no_samples(rt: HostRuntime) -> Result<(), Fail> {
    let mut sink = MemSink::new(rt.alloc(), 2_000, &[])?;
    assert!(rt; put_dump(&mut sink, 1, &[]) == Ok(()));
    assert!(rt; sink.holds() == NO_SAMPLES.as_bytes());
    assert!(rt; sink.calls() == 1, "one piece");
    Ok(())
}

#[test]
fn two_request_clocks(rt: HostRuntime) -> Result<(), Fail> {
    let asks = sample_at(&LOAD_THEN_STORE_HIT, &[], 1);
    let begins = sample_at(&LOAD_THEN_STORE_HIT, &[], 2);
    let goes_on = sample_at(&LOAD_THEN_STORE_HIT, &[], 3);
    let mut sink = MemSink::new(rt.alloc(), 2_000, &[])?;
    assert!(rt; put_clock(&mut sink, 1, 2, &asks, &begins) == Ok(()));
    assert!(rt; put_clock(&mut sink, 1, 3, &begins, &goes_on) == Ok(()));
    assert!(rt; sink.holds() == TWO_CLOCKS.as_bytes());
    assert!(rt; sink.calls() == 2, "one piece a clock");
    Ok(())
}

#[test]
fn fault_leaves_the_pieces_before_it(rt: HostRuntime) -> Result<(), Fail> {
    let first = sample_at(&LOAD_THEN_STORE_HIT, &[], 1);
    let samples = trace_of(rt.alloc(), 3, &LOAD_THEN_STORE_HIT[1..], &[])?;
    let mut whole = MemSink::new(rt.alloc(), 2_000, &[])?;
    assert!(rt; put_header(&mut whole, 1, &first) == Ok(()));
    assert!(rt; put_clock(&mut whole, 1, 0, &idle_sample(), &first) == Ok(()));
    let mut sink = MemSink::new(rt.alloc(), 2_000, &[2])?;
    assert!(rt; put_dump(&mut sink, 1, &samples) == Err(Failed));
    assert!(rt; sink.holds() == whole.holds(), "the header and clock 0");
    let mut clock_zero = MemSink::new(rt.alloc(), 10, &[])?;
    assert!(rt; put_clock(&mut clock_zero, 1, 0, &idle_sample(), &first) == Ok(()));
    assert!(rt; clock_zero.holds() == b"#5\n1!\n".as_slice());
    assert!(rt; sink.faults() == 1);
    Ok(())
}

/// Clocks 0 to 4 of a load of address 40 in profile 2.
fn load_with_parity() -> [Sample; 5]
    ensures { IsTrue (is_known_trace result) }
{
    let asks = sample(LOAD_THEN_STORE_HIT[0]);
    let begins = sample(with_parity(LOAD_THEN_STORE_HIT[2]));
    let goes_on = sample(with_parity(LOAD_THEN_STORE_HIT[3]));
    [asks, asks, begins, goes_on, idle_sample()]
}

#[test]
fn parity_lines_in_profile_2(rt: HostRuntime) -> Result<(), Fail> {
    let samples = load_with_parity();
    for (at, text) in THREE_CLOCKS_WITH_PARITY.iter().enumerate() {
        let mut sink = MemSink::new(rt.alloc(), 2_000, &[])?;
        let answer = put_clock(
            &mut sink,
            2,
            at as u32 + 2,
            &samples[at + 1],
            &samples[at + 2],
        );
        assert!(rt; answer == Ok(()));
        assert!(rt; sink.holds() == text.as_bytes(), "clock {at}");
    }
    let mut sink = MemSink::new(rt.alloc(), 2_000, &[])?;
    assert!(rt; put_dump(&mut sink, 2, &samples) == Ok(()));
    assert!(rt; PARITY_OF_A_LOAD.as_bytes().starts_with(sink.holds()));
    assert!(rt;
        sink.holds()
            .ends_with(THREE_CLOCKS_WITH_PARITY[2].as_bytes())
    );
    Ok(())
}

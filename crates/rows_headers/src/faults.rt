//! Texts with a fault in their header.

use crate::headers::{PREFACE, STRICT, WIDE, read};
use vcd_header::{HeaderRules, HeaderStop, VcdCause};

/// Rules, a text, and the place and the cause of its first fault.
const FAULTS: [(HeaderRules, &'static str, u64, VcdCause); 12] = [
    (STRICT, PREFACE, 0, VcdCause::Header),
    (STRICT, "", 0, VcdCause::Cut),
    (WIDE, "a $var $var wire 1 ! clk $end ", 2, VcdCause::Header),
    (WIDE, "no dump at all", 14, VcdCause::Cut),
    (STRICT, "$var wire 1 ! clk $end", 22, VcdCause::Cut),
    (STRICT, " $var wire 1 ! $end ", 1, VcdCause::Header),
    (
        STRICT,
        "$end $var wire one ! clk $end ",
        5,
        VcdCause::Header,
    ),
    (STRICT, "$var wire 1000001 ! clk $end ", 0, VcdCause::Header),
    (
        WIDE,
        "$var wire 4294967296 ! clk $end ",
        0,
        VcdCause::Header,
    ),
    (
        WIDE,
        "$var wire 99999999999999999999 ! clk $end ",
        0,
        VcdCause::Header,
    ),
    (STRICT, "$scope module tb $end clk ", 22, VcdCause::Header),
    (
        STRICT,
        "$var wire 1 ! clk $end $enddefinitions",
        38,
        VcdCause::Cut,
    ),
];

#[test]
fn first_faults_of_headers(rt: HostRuntime) {
    let alloc = rt.alloc();
    for (rules, text, place, cause) in FAULTS.iter() {
        for size in 1..50 {
            match read(alloc, *rules, text, size) {
                Err(HeaderStop::Bad(fault)) => {
                    assert!(rt; fault.place == *place);
                    assert!(rt; fault.cause == *cause);
                }
                _ => assert!(rt; false),
            }
        }
    }
}

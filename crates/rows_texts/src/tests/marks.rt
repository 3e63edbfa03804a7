//! Which parity lines a text's declarations have.

use super::texts::{LINES, PARITY_LINES, VALUES};
use super::{Wanted, joined, says};
use fsb_signal::Marks;
use rows_store::{FALLING_VERILATOR, NO_SAMPLES, PARITY_OF_A_LOAD, UNMARKED};
use std::alloc::{AllocError, Global};
use std::test::Fail;

/// Whether a text is read, and has these marks, in whatever pieces it comes.
fn is_marked(alloc: Global, bytes: &[u8], marks: Marks) -> bool {
    says(alloc, bytes, Wanted::Marked(marks))
}

/// Declarations behind those of the needed lines, and whether they are of the parity of the address and of the request.
type Declared = (&'static str, bool, bool);

const MARKED: [Declared; 7] = [
    ("", false, false),
    ("$var wire 2 5 AP_n [1:0] $end ", true, false),
    ("$var wire 1 6 RP_n $end ", false, true),
    (PARITY_LINES, true, true),
    (
        "$var reg 1 ! RP_n[0] $end $var wire 2 ! AP_n $end ",
        true,
        true,
    ),
    (
        "$var real 64 5 AP_n $end $var wire 1 6 RP $end ",
        false,
        false,
    ),
    ("$comment $var wire 2 5 AP_n $end ", false, false),
];

/// Whether the declarations have those marks.
fn is_declared(alloc: Global, row: &Declared) -> Result<bool, AllocError> {
    let &(lines, ap, rp) = row;
    let bytes = joined(alloc, &[LINES, lines, VALUES])?;
    Ok(is_marked(alloc, &bytes, Marks { ap, rp }))
}

#[test]
fn marks_of_each_dump(rt: HostRuntime) -> Result<(), Fail> {
    for (at, row) in MARKED.iter().enumerate() {
        assert!(rt; is_declared(rt.alloc(), row)?, "row {at}");
    }
    Ok(())
}

#[test]
fn marks_of_each_dump_that_is_whole(rt: HostRuntime) {
    assert!(rt; is_marked(rt.alloc(), NO_SAMPLES.as_bytes(), UNMARKED));
    assert!(rt; is_marked(rt.alloc(), FALLING_VERILATOR.as_bytes(), UNMARKED));
    let both = Marks { ap: true, rp: true };
    assert!(rt; is_marked(rt.alloc(), PARITY_OF_A_LOAD.as_bytes(), both));
}

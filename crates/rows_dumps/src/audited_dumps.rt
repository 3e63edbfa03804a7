//! Audits of dumps that are written of worked waveforms, and the lines that are printed of them.

use crate::written;
use fsb_audit::{Finding, FoulAt};
use fsb_audit_dump::{Audited, audit_dump, audit_line};
use fsb_io::{MemSource, Memory};
use fsb_rules::Broken;
use rows_store::{
    Clock, DEFERRED_AND_REPLIED, DIRTY_VICTIM_WRITTEN_BACK, Extra, HIT, REQUEST_SPACING_BROKEN,
    SHARED_LINE_INVALIDATED, STORE_HANDED_OVER_BEFORE_ARRIVAL, UPGRADE_OF_A_SHARED_LINE,
};
use std::alloc::Global;

fn foul(clock: u32, addr: u64) -> Result<u64, Finding> {
    Err(Finding::Foul(FoulAt { clock, addr }))
}

fn broken(clock: u32, rule: u8) -> Result<u64, Finding> {
    Err(Finding::Broken(Broken { clock, rule }))
}

/// The clocks of a waveform and what is asserted beside, what an audit of its dump of 60 clocks finds, and the line that is
/// printed of it.
type Row<'a> = (&'a [Clock], &'a [Extra], Result<u64, Finding>, &'a str);

/// Whether the audit of the dump finds this, and this line is printed of it.
fn is_audited(alloc: Global, dump: &[u8], audited: Audited, text: &str) -> Result<bool, Memory> {
    let mut source = MemSource::new(alloc, dump, &[])?;
    Ok(
        audit_dump(alloc, "d.vcd", &mut source) == Ok(audited)
            && audit_line(audited).as_slice() == text.as_bytes(),
    )
}

/// Whether that is so of the row.
fn is_so(alloc: Global, row: &Row<'_>) -> Result<bool, Memory> {
    let &(clocks, extras, found, text) = row;
    let dump = written(alloc, 60, clocks, extras)?;
    is_audited(alloc, dump.holds(), Audited { clocks: 60, found }, text)
}

#[test]
fn clean_and_foul_dumps(rt: HostRuntime) {
    // A line that is read twice and upgraded, and one that is read twice, and read and invalidated, each first as it was and then
    // otherwise; one that is written back and read again, as it was written and otherwise, and a rule is broken before; a line
    // that an owner hands over; a deferred line that is read again behind its reply, as the reply gave it and otherwise; a broken
    // rule.
    let table: [Row<'_>; 12] = [
        (
            &UPGRADE_OF_A_SHARED_LINE,
            &[],
            Ok(8),
            "clean clocks=60 chunks=8\n",
        ),
        (
            &UPGRADE_OF_A_SHARED_LINE,
            &[(12, 0, 1)],
            foul(12, 0x40),
            "foul clock=12 addr=40\n",
        ),
        (
            &SHARED_LINE_INVALIDATED,
            &[],
            Ok(12),
            "clean clocks=60 chunks=12\n",
        ),
        (
            &SHARED_LINE_INVALIDATED,
            &[(12, 0, 1)],
            foul(12, 0x40),
            "foul clock=12 addr=40\n",
        ),
        (
            &DIRTY_VICTIM_WRITTEN_BACK,
            &[],
            Ok(16),
            "clean clocks=60 chunks=16\n",
        ),
        (
            &DIRTY_VICTIM_WRITTEN_BACK,
            &[(22, 0, 1), (46, 0, 1)],
            Ok(16),
            "clean clocks=60 chunks=16\n",
        ),
        (
            &DIRTY_VICTIM_WRITTEN_BACK,
            &[(22, 0, 1)],
            foul(46, 0x40),
            "foul clock=46 addr=40\n",
        ),
        (
            &DIRTY_VICTIM_WRITTEN_BACK,
            &[(10, HIT, 0), (22, 0, 1)],
            broken(10, 11),
            "rejected clock=10 rule=11\n",
        ),
        (
            &STORE_HANDED_OVER_BEFORE_ARRIVAL,
            &[(14, 0, 5)],
            Ok(8),
            "clean clocks=60 chunks=8\n",
        ),
        (
            &DEFERRED_AND_REPLIED,
            &[(28, 0, 5), (32, 0, 5)],
            Ok(8),
            "clean clocks=60 chunks=8\n",
        ),
        (
            &DEFERRED_AND_REPLIED,
            &[(28, 0, 5)],
            foul(32, 0x1008),
            "foul clock=32 addr=1008\n",
        ),
        (
            &REQUEST_SPACING_BROKEN,
            &[],
            broken(4, 2),
            "rejected clock=4 rule=2\n",
        ),
    ];
    for (at, row) in table.iter().enumerate() {
        assert!(rt; matches!(is_so(rt.alloc(), row), Ok(true)), "row {at}");
    }
}

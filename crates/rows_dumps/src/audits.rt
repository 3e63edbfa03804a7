//! Audits of worked waveforms.

ghost use Rattle.std.specs.Prelude.{◌^◌, ◌<◌, length};

use fsb_audit::{Audit, Finding, FoulAt};
use fsb_io::Memory;
use fsb_rules::Broken;
use rows_store::{
    Clock, DEFERRED_AND_REPLIED, DIRTY_VICTIM_WRITTEN_BACK, Extra, HIT,
    STORE_HANDED_OVER_BEFORE_ARRIVAL, UNMARKED, sample_at,
};
use std::alloc::Global;

/// What an audit finds in these clocks, and where it finds nothing how many chunks it has seen moved.
fn audited(
    alloc: Global,
    clocks: &[Clock],
    extras: &[Extra],
) -> Result<(Option<Finding>, u64), Memory>
    requires { length clocks.now < 2 ^ 32 }
{
    let mut audit = Audit::new(alloc, UNMARKED)?;
    let mut found = None;
    for clock in 0..clocks.len() {
        found = audit.feed(&sample_at(clocks, extras, clock))?;
    }
    match found {
        Some(finding) => Ok((Some(finding), 0)),
        None => Ok((None, audit.chunks())),
    }
}

fn foul(clock: u32, addr: u64) -> Option<Finding> {
    Some(Finding::Foul(FoulAt { clock, addr }))
}

/// The clocks of a waveform and what is asserted beside, what an audit finds, and where it finds nothing the chunks.
type Row<'a> = (&'a [Clock], &'a [Extra], Option<Finding>, u64);

/// Whether the audit finds what the row says.
fn is_so(alloc: Global, row: &Row<'_>) -> Result<bool, Memory> {
    let &(clocks, extras, found, chunks) = row;
    Ok(clocks.len() < 100 && audited(alloc, clocks, extras)? == (found, chunks))
}

#[test]
fn audit_clean_and_foul(rt: HostRuntime) {
    let broken = Some(Finding::Broken(Broken {
        clock: 10,
        rule: 11,
    }));
    // Data moved into memory and read back; lost; read back otherwise, and a rule is broken before; a line that an owner hands over;
    // a deferred line that is read again behind its reply, as the reply gave it and otherwise.
    let rows: [Row<'_>; 6] = [
        (
            &DIRTY_VICTIM_WRITTEN_BACK,
            &[(22, 0, 1), (46, 0, 1)],
            None,
            16,
        ),
        (&DIRTY_VICTIM_WRITTEN_BACK, &[(22, 0, 1)], foul(46, 0x40), 0),
        (
            &DIRTY_VICTIM_WRITTEN_BACK,
            &[(10, HIT, 0), (22, 0, 1)],
            broken,
            0,
        ),
        (&STORE_HANDED_OVER_BEFORE_ARRIVAL, &[(14, 0, 5)], None, 8),
        (&DEFERRED_AND_REPLIED, &[(28, 0, 5), (32, 0, 5)], None, 8),
        (&DEFERRED_AND_REPLIED, &[(28, 0, 5)], foul(32, 0x1008), 0),
    ];
    for (at, row) in rows.iter().enumerate() {
        assert!(rt; matches!(is_so(rt.alloc(), row), Ok(true)), "row {at}");
    }
}

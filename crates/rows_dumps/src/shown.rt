//! Tables of dumps that are written of worked waveforms, with the totals of probes.

use crate::written;
use fsb_io::{MemSink, MemSource, Memory};
use fsb_probe::{DataProbe, LineProbe, Probe};
use fsb_show::{ShowStop, put_show, show_dump};
use rows_store::{
    CANCELLED_BY_ADDRESS_ERROR, Clock, DEFERRED_AND_REPLIED, Extra, LOAD_THEN_STORE_HIT,
    REQUEST_SPACING_BROKEN, UPGRADE_OF_A_SHARED_LINE,
};
use std::alloc::{AllocError, Global};
use std::process::Abort;
use vcd_read::{VcdCause, VcdFault};

/// The table of a dump as text, with the totals of these probes; nothing where there is none.
fn shown_of(
    alloc: Global,
    dump: &[u8],
    probes: &mut Vec<Box<dyn Probe>>,
) -> Result<MemSink, Memory> {
    let mut source = MemSource::new(alloc, dump, &[])?;
    let mut out = MemSink::new(alloc, 1_000, &[])?;
    if let Ok(shown) = show_dump(alloc, "d.vcd", &mut source, probes) {
        let _ = put_show(&mut out, &shown, probes);
    }
    Ok(out)
}

/// The clocks of a waveform, and the table of its dump of 60 clocks.
type Shown<'a> = (&'a [Clock], &'a str);

/// Whether the dump of the waveform, with this beside, is shown so with the probes.
fn is_shown(
    alloc: Global,
    row: &Shown<'_>,
    extras: &[Extra],
    probes: &mut Vec<Box<dyn Probe>>,
) -> Result<bool, Memory> {
    let &(clocks, text) = row;
    let dump = written(alloc, 60, clocks, extras)?;
    let shown = shown_of(alloc, dump.holds(), probes)?;
    Ok(shown.holds() == text.as_bytes())
}

/// Expects the dump of each waveform, with this beside, to be shown so with the probes.
fn expect_shown(
    rt: &impl Abort,
    alloc: Global,
    table: &[Shown<'_>],
    extras: &[Extra],
    probes: &mut Vec<Box<dyn Probe>>,
) {
    for (at, row) in table.iter().enumerate() {
        assert!(rt;
            matches!(is_shown(alloc, row, extras, probes), Ok(true)),
            "row {at}"
        );
    }
}

/// Probes of two lines, and one of the data.
fn three_probes(alloc: Global) -> Result<Vec<Box<dyn Probe>>, AllocError> {
    let mut probes: Vec<Box<dyn Probe>> = Vec::new(alloc);
    probes.push(Box::new(alloc, LineProbe::new(7))?)?;
    probes.push(Box::new(alloc, LineProbe::new(17))?)?;
    probes.push(Box::new(alloc, DataProbe::new())?)?;
    Ok(probes)
}

#[test]
fn tables_of_dumps(rt: HostRuntime) {
    let load = "probe 0 = 1\nprobe 1 = 4\nprobe 2 = 3\n\
        0 2 0 read 40 6 8 11 granted\naccepted clocks=60\n";
    let cancelled = "probe 0 = 2\nprobe 1 = 4\nprobe 2 = 0\n\
        0 2 0 read 40 - - - aerr\n1 8 0 read 40 12 14 17 granted\naccepted clocks=60\n";
    let deferred = "probe 0 = 5\nprobe 1 = 8\nprobe 2 = 0\n\
        0 2 0 read 1000 6 8 8 deferred\n1 5 1 invalidate 1000 9 11 11 retried\n\
        2 14 1 invalidate 1000 18 20 20 retried\n3 21 p reply - 25 27 30 replied\n\
        4 24 1 invalidate 1000 28 31 34 granted\naccepted clocks=60\n";
    let upgraded = "probe 0 = 3\nprobe 1 = 8\nprobe 2 = 3\n\
        0 2 0 read 40 6 8 11 granted\n1 5 1 read 40 9 12 15 granted\n\
        2 14 0 upgrade 40 18 20 20 upgraded\naccepted clocks=60\n";
    let table: [Shown<'_>; 5] = [
        (&LOAD_THEN_STORE_HIT, load),
        (&CANCELLED_BY_ADDRESS_ERROR, cancelled),
        (&DEFERRED_AND_REPLIED, deferred),
        (&UPGRADE_OF_A_SHARED_LINE, upgraded),
        (&REQUEST_SPACING_BROKEN, "rejected clock=4 rule=2\n"),
    ];
    let mut probes = three_probes(rt.alloc()).expect(&rt, "out of memory");
    expect_shown(&rt, rt.alloc(), &table, &[(8, 0, 7)], &mut probes);
}

#[test]
fn tables_without_probes(rt: HostRuntime) {
    let cancelled =
        "0 2 0 read 40 - - - aerr\n1 8 0 read 40 12 14 17 granted\naccepted clocks=60\n";
    let table: [Shown<'_>; 2] = [
        (&CANCELLED_BY_ADDRESS_ERROR, cancelled),
        (&REQUEST_SPACING_BROKEN, "rejected clock=4 rule=2\n"),
    ];
    let mut probes = Vec::new(rt.alloc());
    expect_shown(&rt, rt.alloc(), &table, &[], &mut probes);
}

/// Whether the bytes are refused so, where these calls of their source fail.
fn is_refused(alloc: Global, bytes: &[u8], fails: &[u32], stop: ShowStop) -> Result<bool, Memory> {
    let mut source = MemSource::new(alloc, bytes, fails)?;
    let mut probes: Vec<Box<dyn Probe>> = Vec::new(alloc);
    let refused = show_dump(alloc, "d.vcd", &mut source, &mut probes).err();
    Ok(refused == Some(stop))
}

#[test]
fn no_dump_is_refused(rt: HostRuntime) {
    let fault = VcdFault {
        place: 5,
        cause: VcdCause::Header,
    };
    let bad = ShowStop::Bad(fault);
    assert!(rt; matches!(is_refused(rt.alloc(), b"$end 5", &[], bad), Ok(true)));
    assert!(rt;
        matches!(
            is_refused(rt.alloc(), b"", &[0], ShowStop::ReadFault),
            Ok(true)
        )
    );
}

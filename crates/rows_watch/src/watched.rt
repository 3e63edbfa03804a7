//! What is shown a watcher, and what stops the reading.

use crate::dumps::{HEADER, QUIET, checked, joined, rising};
use fsb_io::MemSource;
use scope_watch::{
    Begun, EventWatcher, Picked, ScopeStop, WatchStop, pick_bus, read_header, watch_values,
};
use scope_wiring::Choice;
use std::alloc::Global;
use vcd_course::{CourseEvent, Told};

/// Counts samples, and the begins and the ends of holes; stops behind so many events.
#[derive(Drop)]
struct Counter {
    samples: u32,
    holes: u32,
    resumed: u32,
    left: u32,
}

impl EventWatcher for Counter {
    ghost has_seen = { λ _ _ _. Unit {0} };

    ghost has_failed = { λ _ _. Unit {0} };

    ghost most = { 0 };

    fn see(&mut self, event: &CourseEvent) -> Result<(), WatchStop> {
        if self.left == 0 {
            return Err(WatchStop::WriteFault);
        }
        self.left -= 1;
        match event.told {
            Told::Sampled(_) => self.samples = self.samples.saturating_add(1),
            Told::Hole => self.holes = self.holes.saturating_add(1),
            Told::Resumed => self.resumed = self.resumed.saturating_add(1),
        }
        Ok(())
    }
}

/// What a watcher counts that stops behind so many events.
fn counted(alloc: Global, text: &[u8], size: usize, left: u32) -> Result<Counter, ScopeStop> {
    let Ok(mut source) = MemSource::new(alloc, text, &[]) else {
        return Err(ScopeStop::Memory);
    };
    let mut room = vec![in alloc; 0; size.max(1)]?;
    let Begun { header, behind } = read_header(alloc, "a.vcd", &mut source, &mut room)?;
    let choice = Choice {
        scope: None,
        lines: Vec::new(alloc),
        without: Vec::new(alloc),
    };
    let mut counter = Counter {
        samples: 0,
        holes: 0,
        resumed: 0,
        left,
    };
    match pick_bus(alloc, &header.variables, &choice)? {
        Picked::Refused(_) => {}
        Picked::Wired(bus) => {
            let _early_end = watch_values(
                alloc,
                &mut source,
                &mut room,
                behind,
                bus.wires,
                rising(alloc),
                &mut counter,
            )?;
        }
    }
    Ok(counter)
}

#[test]
fn each_event_is_shown_once(rt: HostRuntime) {
    let alloc = rt.alloc();
    let parts = [
        HEADER,
        QUIET,
        "$dumpoff xa $end #40 $dumpon 0a $end #45 1a #50 ",
    ];
    let text = joined(alloc, &parts).ok().expect(&rt, "memory");
    for size in [1, 4096] {
        let counter = counted(alloc, &text, size, 100).ok().expect(&rt, "watched");
        assert!(rt; counter.samples == 4);
        assert!(rt; counter.holes == 1);
        assert!(rt; counter.resumed == 1);
    }
}

#[test]
fn a_watcher_stops_the_reading(rt: HostRuntime) {
    let alloc = rt.alloc();
    let text = joined(alloc, &[HEADER, QUIET]).ok().expect(&rt, "memory");
    assert!(rt; counted(alloc, &text, 1, 3).is_ok());
    match counted(alloc, &text, 1, 2) {
        Err(ScopeStop::WriteFault) => {}
        _ => assert!(rt; false),
    }
}

#[test]
fn a_source_that_fails_is_told_before_a_fault(rt: HostRuntime) {
    let alloc = rt.alloc();
    let text = joined(alloc, &[HEADER, "\n#4 1y #5 #6 "])
        .ok()
        .expect(&rt, "memory");
    for fails in [0, 1, 2, 3] {
        match checked(alloc, &text, 512, &[fails]) {
            Err(ScopeStop::ReadFault) => {}
            _ => assert!(rt; false),
        }
    }
}

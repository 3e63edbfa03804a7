//! The requests of a dump, counted by agent and kind while it is read: `example_watcher <dump>`.
//!
//! `watch_dump` reads the file in pieces, and gives each to the reader of dumps; [`Census`] is shown the samples that come
//! of it, and keeps none of them.
#![tactic(auto)]

use fsb_encode::{Kind, Pair, decode};
use fsb_io::{FileSource, Memory};
use fsb_signal::{Lines, Marks, Sample};
use fsb_trace::known_pair;
use fsb_watch::{DumpStop, Watcher, watch_dump};
use std::process::ExitCode;
use std::rt::{Env, Files};

/// How many requests of each kind there were.
#[derive(Clone, Copy, Debug)]
struct Counts {
    reads: u64,
    invalidates: u64,
    write_backs: u64,
    upgrades: u64,
    replies: u64,
}

impl Counts {
    /// Of no request yet.
    fn new() -> Counts {
        Counts {
            reads: 0,
            invalidates: 0,
            write_backs: 0,
            upgrades: 0,
            replies: 0,
        }
    }

    /// One request more of this kind.
    fn add(&mut self, kind: Kind) {
        match kind {
            Kind::Read => self.reads = self.reads.saturating_add(1),
            Kind::Invalidate => self.invalidates = self.invalidates.saturating_add(1),
            Kind::WriteBack => self.write_backs = self.write_backs.saturating_add(1),
            Kind::Upgrade => self.upgrades = self.upgrades.saturating_add(1),
            Kind::Reply => self.replies = self.replies.saturating_add(1),
        }
    }
}

/// Counts the requests that it is shown, by the agent whose ID they have.
#[derive(Drop)]
struct Census {
    /// The words of the last sample, where a request began there.
    first: Option<Pair>,
    agents: [Counts; 4],
}

impl Watcher for Census {
    ghost is_ready = { λ _. Unit {0} };

    ghost has_seen = { λ _ _ _ _. Unit {0} };

    fn begin(&mut self, _marks: Marks) -> Result<(), Memory> {
        Ok(())
    }

    fn see(&mut self, sample: &Sample) -> Result<(), Memory> {
        let words = known_pair(sample);
        if let (Some(first), Some(second)) = (self.first, words) {
            if let Ok(request) = decode(first, second) {
                if let Some(counts) = self.agents.get_mut(usize::from(request.did / 16)) {
                    counts.add(request.kind);
                }
            }
        }
        self.first = if sample.has(Lines::ADS) { words } else { None };
        Ok(())
    }
}

fn main(rt: HostRuntime) -> ExitCode {
    let mut census = Census {
        first: None,
        agents: [Counts::new(); 4],
    };
    match read(&rt, &mut census) {
        None => {
            let _ = println!(rt; "not read: no word names a dump");
            ExitCode::FAILURE
        }
        Some(Err(stop)) => {
            let _ = println!(rt; "not read: {stop:?}");
            ExitCode::FAILURE
        }
        Some(Ok(clocks)) => {
            let _ = println!(rt; "{clocks} clocks");
            for (agent, counts) in census.agents.iter().enumerate() {
                let _ = println!(rt; "agent {agent}: {counts:?}");
            }
            ExitCode::SUCCESS
        }
    }
}

/// Shows the watcher the samples of the dump that the first word names; answers how many there are.
fn read<W: Watcher>(
    rt: &(impl Files + Env + AllocGlobal),
    watcher: &mut W,
) -> Option<Result<u32, DumpStop>>
    requires { W.is_ready watcher.old }
{
    let name = std::env::args(rt).ok()?.nth(1)?;
    if name.len() > 4_096 {
        return None;
    }
    let mut source = FileSource::new(rt);
    Some(watch_dump(rt.alloc(), name.as_str(), &mut source, watcher))
}

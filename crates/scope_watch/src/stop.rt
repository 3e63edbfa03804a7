use std::alloc::AllocError;
use vcd_grammar::VcdFault;

/// Why a dump was not read to its end, or is none.
#[derive(Clone, Copy, Debug, PartialEq, Eq)]
pub enum ScopeStop {
    /// The file is no dump; this is its first fault.
    Bad(VcdFault),
    /// The file is no dump: no `$` begins a word among its first 2^20 bytes.
    NoHeader,
    /// The source failed in this call.
    ReadFault,
    /// The file has more than 2^40 bytes.
    TooLong,
    /// The watcher counts no more clocks or holes.
    TooMany,
    /// What the watcher writes to failed.
    WriteFault,
    /// Memory was lacking.
    Memory,
}

/// Why a watcher stops.
#[derive(Clone, Copy, Debug, PartialEq, Eq)]
pub enum WatchStop {
    /// It counts no more clocks or holes.
    TooMany,
    /// What it writes to failed.
    WriteFault,
    /// Memory was lacking.
    Memory,
}

impl From<AllocError> for ScopeStop {
    ghost use Rattle.std.specs.Prelude.{◌≡◌};
    ghost use Rattle.scope_watch.specs.declared.stop.ScopeStop.TheVariants as stops;

    ghost from_gives = { λ _ stop. stop ≡ stops.Memory };

    fn from(_error: AllocError) -> ScopeStop {
        ScopeStop::Memory
    }
}

impl From<WatchStop> for ScopeStop {
    ghost use Rattle.std.specs.Prelude.{◌≡◌};
    ghost use Rattle.scope_watch.specs.Stops.{stop_of};

    ghost from_gives = { λ stop answer. answer ≡ stop_of stop };

    fn from(stop: WatchStop) -> ScopeStop {
        match stop {
            WatchStop::TooMany => ScopeStop::TooMany,
            WatchStop::WriteFault => ScopeStop::WriteFault,
            WatchStop::Memory => ScopeStop::Memory,
        }
    }
}

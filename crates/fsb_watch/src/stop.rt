use fsb_io::Memory;
use std::alloc::AllocError;
use vcd_read::VcdFault;

/// Why a dump was not read to its end, or is none.
#[derive(Clone, Copy, Debug, PartialEq, Eq)]
pub enum DumpStop {
    /// The file is no dump; this is its first fault.
    Bad(VcdFault),
    /// The source failed in this call.
    ReadFault,
    /// The file has more than 2^40 bytes, or more than 2^32 - 1 samples before its first fault, or in all of it where it has
    /// no fault.
    TooLong,
    /// Memory was lacking.
    Memory,
}

impl From<Memory> for DumpStop {
    ghost use Rattle.std.specs.Prelude.{◌≡◌};
    ghost use Rattle.fsb_watch.specs.declared.stop.DumpStop.TheVariants as stops;

    ghost from_gives = { λ _ stop. stop ≡ stops.Memory };

    fn from(_memory: Memory) -> DumpStop {
        DumpStop::Memory
    }
}

impl From<AllocError> for DumpStop {
    ghost use Rattle.std.specs.Prelude.{◌≡◌};
    ghost use Rattle.fsb_watch.specs.declared.stop.DumpStop.TheVariants as stops;

    ghost from_gives = { λ _ stop. stop ≡ stops.Memory };

    fn from(_error: AllocError) -> DumpStop {
        DumpStop::Memory
    }
}

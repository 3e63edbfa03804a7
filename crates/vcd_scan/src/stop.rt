use std::alloc::AllocError;
use vcd_grammar::VcdFault;

/// Why the values of a dump were not read.
#[derive(Clone, Copy, Debug, PartialEq, Eq)]
pub enum ScanStop {
    /// This is the first fault.
    Bad(VcdFault),
    /// Memory was wanting.
    Memory,
}

impl From<AllocError> for ScanStop {
    ghost use Rattle.std.specs.Prelude.{◌≡◌};
    ghost use Rattle.vcd_scan.specs.declared.stop.ScanStop.TheVariants as stops;

    ghost from_gives = { λ _ stop. stop ≡ stops.Memory };

    fn from(_error: AllocError) -> ScanStop {
        ScanStop::Memory
    }
}

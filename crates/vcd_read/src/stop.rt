use fsb_io::Memory;
use std::alloc::AllocError;
use vcd_grammar::VcdFault;

/// Why a dump was not read.
#[derive(Clone, Copy, Debug, PartialEq, Eq)]
pub enum VcdStop {
    /// The text is no dump, and this is its first fault.
    Bad(VcdFault),
    /// It has more samples than the limit.
    TooLong,
    /// Memory was wanting.
    Memory,
}

impl From<Memory> for VcdStop {
    ghost use Rattle.std.specs.Prelude.{◌≡◌};
    ghost use Rattle.vcd_read.specs.declared.stop.VcdStop.TheVariants as stops;

    ghost from_gives = { λ _ stop. stop ≡ stops.Memory };

    fn from(_memory: Memory) -> VcdStop {
        VcdStop::Memory
    }
}

impl From<AllocError> for VcdStop {
    ghost use Rattle.std.specs.Prelude.{◌≡◌};
    ghost use Rattle.vcd_read.specs.declared.stop.VcdStop.TheVariants as stops;

    ghost from_gives = { λ _ stop. stop ≡ stops.Memory };

    fn from(_error: AllocError) -> VcdStop {
        VcdStop::Memory
    }
}

use std::alloc::AllocError;
use vcd_grammar::VcdFault;

/// Why a header was not read.
#[derive(Clone, Copy, Debug, PartialEq, Eq)]
pub enum HeaderStop {
    /// The text is no dump, and this is its first fault.
    Bad(VcdFault),
    /// Memory was wanting.
    Memory,
}

impl From<AllocError> for HeaderStop {
    ghost use Rattle.std.specs.Prelude.{◌≡◌};
    ghost use Rattle.vcd_header.specs.declared.stop.HeaderStop.TheVariants as stops;

    ghost from_gives = { λ _ stop. stop ≡ stops.Memory };

    fn from(_error: AllocError) -> HeaderStop {
        HeaderStop::Memory
    }
}

use fsb_io::Memory;
use vcd_read::VcdFault;

/// Why a dump is not shown.
#[derive(Clone, Copy, Debug, PartialEq, Eq)]
pub enum ShowStop {
    /// The file is no dump; this is its first fault.
    Bad(VcdFault),
    /// The source failed in this call.
    ReadFault,
    /// The file has more than 268,435,456 bytes, or is a dump of more than 200,000 samples.
    TooLong,
    /// Memory was lacking.
    Memory,
}

impl From<Memory> for ShowStop {
    ghost use Rattle.std.specs.Prelude.{◌≡◌};
    ghost use Rattle.fsb_show.specs.declared.stop.ShowStop.TheVariants as stops;

    ghost from_gives = { λ _ stop. stop ≡ stops.Memory };

    fn from(_memory: Memory) -> ShowStop {
        ShowStop::Memory
    }
}

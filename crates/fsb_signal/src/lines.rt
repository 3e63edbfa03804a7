ghost use Rattle.std.specs.Prelude.{⊤};
ghost use Rattle.fsb_signal.specs.ControlLines.{line_names};

use bitflags::{Flag, Flags, bitflag_items};

/// A set of the 21 control lines, which are asserted low on the bus; a line is in the set where it is asserted. The
/// last three are the parity of the address, of its low and of its high part, and of the request.
///
/// The lines are the bits 0 to 20. A bit above them is no line: no question about a line looks at it, and a `Sample`
/// has none.
#[derive(Clone, Copy, Debug, PartialEq, Eq)]
pub struct Lines(pub u32);

bitflag_items! {
    impl Lines: u32 {
        const BREQ0 = 1;
        const BREQ1 = 2;
        const BREQ2 = 4;
        const BREQ3 = 8;
        const BPRI = 16;
        const LOCK = 32;
        const BNR = 64;
        const ADS = 128;
        const AERR = 256;
        const HIT = 512;
        const HITM = 1024;
        const DEFER = 2048;
        const RS0 = 4096;
        const RS1 = 8192;
        const RS2 = 16384;
        const TRDY = 32768;
        const DBSY = 65536;
        const DRDY = 131072;
        const AP0 = 262144;
        const AP1 = 524288;
        const RP = 1048576;
    }
}

impl Flags for Lines {
    type Bits = u32;

    ghost exact = { ⊤ };

    ghost table = { line_names };

    ghost set_of = { λ lines. lines.0 };

    fn flags<'a>() -> &'a [Flag<Lines>] {
        Lines::FLAGS
    }

    fn bits(&self) -> u32 {
        self.0
    }

    fn from_bits_retain(bits: u32) -> Lines {
        Lines(bits)
    }
}

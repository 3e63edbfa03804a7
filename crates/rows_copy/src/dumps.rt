//! Dumps that are copied: their text, and what is written of them.

use fsb_io::{MemSink, MemSource};
use scope_check::Part;
use scope_copy::{Copied, copy_dump};
use scope_watch::{Sampling, ScopeStop};
use scope_wiring::Choice;
use std::alloc::Global;
use vcd_way::Edge;

/// A header in lower case with the needed lines, of which the address has 36 bits, and another variable.
pub(crate) const HEADER: &str = "$timescale 1ps $end
$scope module tb $end
$var wire 1 z go $end
$scope module bus $end
$var wire 1 a bclk $end
$var wire 1 b breq0_l $end
$var wire 1 c ads_l $end
$var wire 5 d req_l [4:0] $end
$var wire 36 e a_l [35:0] $end
$var wire 1 f hit_l $end
$var wire 1 g hitm_l $end
$var wire 3 h rs_l [2:0] $end
$var wire 1 i trdy_l $end
$var wire 1 j dbsy_l $end
$var wire 1 k drdy_l $end
$var wire 64 l d_l [63:0] $end
$upscope $end $upscope $end
$enddefinitions $end
";

/// Three clocks: before reset all lines are unknown, then none is asserted, then a request comes.
pub(crate) const VALUES: &str = "#0
0a xb xc bx d bx e xf xg bx h xi xj xk bx l 0z
#500
1a
#1000
0a 1b 1c b11111 d b111111111111111111111111111111111111 e 1f 1g b111 h 1i 1j 1k b1111111111111111111111111111111111111111111111111111111111111111 l
#1500
1a 1z
#2000
0a 0c b11110 d b011111111111111111111111111111110101 e
#2500
1a
#3000
0a
";

/// The header that is written of it.
pub(crate) const WRITTEN: &str = "$version p6scope 1 $end
$timescale 1 ns $end
$scope module fsb $end
$var wire 1 ! BCLK $end
$var wire 1 \" BREQ0_n $end
$var wire 1 ) ADS_n $end
$var wire 5 * REQ_n [4:0] $end
$var wire 33 + A_n [35:3] $end
$var wire 1 - HIT_n $end
$var wire 1 . HITM_n $end
$var wire 3 0 RS_n [2:0] $end
$var wire 1 1 TRDY_n $end
$var wire 1 2 DBSY_n $end
$var wire 1 3 DRDY_n $end
$var wire 64 4 D_n [63:0] $end
$upscope $end
$enddefinitions $end
";

/// The values of a clock at which all lines are unknown.
pub(crate) const UNKNOWN: &str = "x\"
x)
bxxxxx *
bxxxxxxxxxxxxxxxxxxxxxxxxxxxxxxxxx +
x-
x.
bxxx 0
x1
x2
x3
bxxxxxxxxxxxxxxxxxxxxxxxxxxxxxxxxxxxxxxxxxxxxxxxxxxxxxxxxxxxxxxxx 4
";

/// Those of one at which none is asserted.
pub(crate) const IDLE: &str = "1\"
1)
b11111 *
b111111111111111111111111111111111 +
1-
1.
b111 0
11
12
13
b1111111111111111111111111111111111111111111111111111111111111111 4
";

/// What changes as the request comes; of the address the lines from 35 to 3 are written.
pub(crate) const REQUEST: &str = "0)
b11110 *
b011111111111111111111111111111110 +
";

/// The text of some parts, one behind the other.
pub(crate) fn joined(alloc: Global, parts: &[&str]) -> Result<Vec<u8>, ScopeStop> {
    let mut text = Vec::new(alloc);
    for part in parts {
        text.extend_from_slice(part.as_bytes())?;
    }
    Ok(text)
}

/// The choice of one who names nothing.
pub(crate) fn plain(alloc: Global) -> Choice {
    Choice {
        scope: None,
        lines: Vec::new(alloc),
        without: Vec::new(alloc),
    }
}

/// The clock's rising edge, and nothing beside.
pub(crate) fn rising(alloc: Global) -> Sampling {
    Sampling {
        edge: Edge::Rising,
        takes_first: false,
        late: Vec::new(alloc),
    }
}

/// A sink for a dump, where the calls of these numbers fail.
pub(crate) fn sink(alloc: Global, fails: &[u32]) -> Result<MemSink, ScopeStop> {
    match MemSink::new(alloc, 65_536, fails) {
        Ok(sink) => Ok(sink),
        Err(_) => Err(ScopeStop::Memory),
    }
}

/// What is told of a text that comes in pieces of a size, and whose part is copied.
pub(crate) fn copied(
    alloc: Global,
    text: &[u8],
    size: usize,
    part: Part,
    out: &mut MemSink,
) -> Result<Copied, ScopeStop> {
    let Ok(mut source) = MemSource::new(alloc, text, &[]) else {
        return Err(ScopeStop::Memory);
    };
    let mut room = vec![in alloc; 0; size.max(1)]?;
    let choice = plain(alloc);
    let sampling = rising(alloc);
    copy_dump(
        alloc,
        "a.vcd",
        &mut source,
        &mut room,
        &choice,
        part,
        sampling,
        out,
    )
}

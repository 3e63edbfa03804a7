//! Dumps of a bus with names in lower case, and what reads them.

use fsb_io::MemSource;
use scope_check::Part;
use scope_parts::Plan;
use scope_watch::{Checked, Sampling, ScopeStop, check_dump};
use scope_wiring::Choice;
use std::alloc::Global;
use vcd_way::Edge;

/// A header with the needed lines in one scope, and another variable. No white space stands behind it.
pub(crate) const HEADER: &str = "$timescale 1ns $end
$scope module tb $end
$var wire 1 z go $end
$scope module dut $end
$scope module bus $end
$var wire 1 a bclk $end
$var wire 1 b breq0_l $end
$var wire 1 c ads_l $end
$var wire 5 d req_l [4:0] $end
$var wire 33 e a_l [35:3] $end
$var wire 1 f hit_l $end
$var wire 1 g hitm_l $end
$var wire 3 h rs_l [2:0] $end
$var wire 1 i trdy_l $end
$var wire 1 j dbsy_l $end
$var wire 1 k drdy_l $end
$var wire 64 l d_l [63:0] $end
$upscope $end $upscope $end $upscope $end
$enddefinitions $end";

/// Three rising edges: at the first all lines are unknown, at the others none is asserted.
pub(crate) const QUIET: &str = "
#0
0a xb xc bx d bx e xf xg bx h xi xj xk bx l 0z
#5
1a
#10
0a 1b 1c b11111 d b111111111111111111111111111111111 e 1f 1g b111 h 1i 1j 1k b1111111111111111111111111111111111111111111111111111111111111111 l
#15
1a
#20
0a
#25
1a
#30
0a
";

/// This part first, and behind a broken rule nothing.
pub(crate) fn once(first: Part) -> Plan {
    Plan {
        first,
        quiet: 2,
        most: 1,
    }
}

/// The text of some parts, one behind the other.
pub(crate) fn joined(alloc: Global, parts: &[&str]) -> Result<Vec<u8>, ScopeStop> {
    let mut text = Vec::new(alloc);
    for part in parts {
        text.extend_from_slice(part.as_bytes())?;
    }
    Ok(text)
}

/// The clock's rising edge, and nothing beside.
pub(crate) fn rising(alloc: Global) -> Sampling {
    Sampling {
        edge: Edge::Rising,
        takes_first: false,
        late: Vec::new(alloc),
    }
}

/// What is found of a text that comes in pieces of a size, where the calls of these numbers fail.
pub(crate) fn checked(
    alloc: Global,
    text: &[u8],
    size: usize,
    fails: &[u32],
) -> Result<Checked, ScopeStop> {
    checked_part(alloc, text, size, fails, Part::whole())
}

/// The same of a part of the dump.
pub(crate) fn checked_part(
    alloc: Global,
    text: &[u8],
    size: usize,
    fails: &[u32],
    part: Part,
) -> Result<Checked, ScopeStop> {
    let Ok(mut source) = MemSource::new(alloc, text, fails) else {
        return Err(ScopeStop::Memory);
    };
    let mut room = vec![in alloc; 0; size.max(1)]?;
    let choice = Choice {
        scope: None,
        lines: Vec::new(alloc),
        without: Vec::new(alloc),
    };
    check_dump(
        alloc,
        "a.vcd",
        &mut source,
        &mut room,
        &choice,
        once(part),
        rising(alloc),
    )
}

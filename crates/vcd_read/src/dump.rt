ghost use Rattle.std.specs.Prelude.{◌≡◌, IfOk};
ghost use Rattle.vcd_grammar.specs.Reading.{Reads};
ghost use Rattle.vcd_read.specs.Answers.{Answers, dump_stop, stop_of_dump};

use crate::scan::Scan;
use crate::stop::VcdStop;
use fsb_signal::{Marks, Sample};
use std::alloc::Global;
use vcd_grammar::VcdFault;

/// The most samples of a dump that is read whole.
const MOST: u32 = 200_000;

/// Reads a whole dump of at most 200,000 samples: its marks, and its trace.
pub fn read_dump(alloc: Global, bytes: &[u8]) -> Result<(Marks, Vec<Sample>), VcdStop>
    ensures answer { Answers result (stop_of_dump 200000 bytes.now) }
    ensures trace { IfOk result (λ told. Reads bytes.now told.0 told.1.items) }
{
    let mut scan = Scan::new(alloc)?;
    let mut samples = Vec::new(alloc);
    scan.absorb(bytes, MOST, &mut samples)?;
    let more = scan.finish(MOST, &mut samples)?;
    match refusal(scan.machine.decided, scan.machine.fault, more) {
        None => Ok((scan.machine.declared_marks(), samples)),
        Some(stop) => Err(stop),
    }
}

/// Why the text is not read, by the count of samples that were decided, the first fault, and whether the end decides one
/// more.
#[tactic(auto, unfolding(crate::specs::Answers::dump_stop))]
fn refusal(decided: u64, fault: Option<VcdFault>, more: bool) -> Option<VcdStop>
    ensures { result ≡ dump_stop 200000 decided fault more }
{
    if let Some(fault) = fault {
        return Some(VcdStop::Bad(fault));
    }
    if u64::from(MOST) < decided || (more && decided == u64::from(MOST)) {
        return Some(VcdStop::TooLong);
    }
    None
}

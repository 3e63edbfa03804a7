//! The checker over a whole trace.

ghost use Rattle.std.specs.Prelude.{◌^◌, ◌<◌, length};

use fsb_rules::Checker;
use fsb_signal::{Marks, Sample};

/// What the checker says of a trace of a dump with these marks: the clock and the number of the rule that is broken first.
pub fn checked(marks: Marks, w: &[Sample]) -> Option<(u32, u8)>
    requires { length w.now < 2 ^ 32 }
{
    let mut checker = Checker::new(marks);
    let mut found = None;
    for sample in w {
        found = checker.feed(sample);
    }
    found.map(|broken| (broken.clock, broken.rule))
}

//! The line of a verdict.
ghost use Rattle.std.specs.Prelude.{◌≡◌, ◌≤◌, None, Some};
ghost use Rattle.arrayvec.specs.ArrayVec.{array_vec_len};
ghost use Rattle.fsb_report.specs.VerdictText.{rejected_text, verdict_text};

use arrayvec::ArrayVec;
use fsb_io::{Line, put_decimal, put_text};
use fsb_rules::Broken;

/// The line of the verdict on a trace, with its line feed: `accepted clocks=<clocks>`, or
/// `rejected clock=<clock> rule=<rule>` where a rule is broken. It takes no memory.
pub fn verdict_line(clocks: u32, broken: Option<Broken>) -> Line
    ensures { result.items ≡ verdict_text clocks broken }
{
    match broken {
        None => accepted_line(clocks),
        Some(broken) => broken_line(&broken),
    }
}

// The line of a trace that breaks no rule.
fn accepted_line(clocks: u32) -> Line
    ensures { result.items ≡ verdict_text clocks None }
{
    let mut line = ArrayVec::new();
    put_text(&mut line, "accepted clocks=");
    put_decimal(&mut line, u64::from(clocks));
    put_text(&mut line, "\n");
    line
}

/// A broken rule, without a line feed: `rejected clock=<clock> rule=<rule>`. It takes no memory.
pub fn rejected_line(broken: &Broken) -> Line
    ensures items { result.items ≡ rejected_text broken.now }
    ensures short { array_vec_len result ≤ 61 }
{
    let mut line = ArrayVec::new();
    put_text(&mut line, "rejected clock=");
    put_decimal(&mut line, u64::from(broken.clock));
    put_text(&mut line, " rule=");
    put_decimal(&mut line, u64::from(broken.rule));
    line
}

// The line of the verdict on a trace that breaks this rule.
fn broken_line(broken: &Broken) -> Line
    ensures { result.items ≡ verdict_text 0 (Some broken.now) }
{
    let mut line = rejected_line(broken);
    put_text(&mut line, "\n");
    line
}

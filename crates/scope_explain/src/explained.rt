//! What is said of a broken clock.

ghost use Rattle.std.specs.Prelude.{◌≡◌, ◌<◌, ◌^◌, [], ◌∷◌, ◌++◌, OnOk, length};
ghost use Rattle.std.specs.Option.{option_to_list};
ghost use Rattle.fsb_signal.specs.declared.marks.Marks.{Marks};
ghost use Rattle.fsb_trace.specs.At.{Trace};
ghost use Rattle.fsb_laws.specs.Orderly.{Orderly};
ghost use Rattle.fsb_why.specs.Look.{Stands as WhyStands};
ghost use Rattle.fsb_why_queue.specs.Queue.{Stands as QueueStands, fed};
ghost use Rattle.scope_explain.specs.Reasons.{AreReasonsOf, SaysWhy, is_answered};

use fsb_reasons::{Reason, reasons_name_broken_rules};
use fsb_recent::Around;
use fsb_signal::Sample;
use fsb_why::Why;
use fsb_why_queue::Queue;
use std::alloc::AllocError;

/// The first broken clock of a part, and why the rules that are broken there are.
#[derive(Debug, Drop)]
pub struct Explained {
    /// The clock, counted from the first one of the part.
    pub clock: u32,
    /// The least rule that is broken there.
    pub rule: u8,
    /// A reason for each rule that is broken there and `is_answered`, in the order of the rules.
    pub reasons: Vec<Reason>,
    /// The requests in flight after the clocks before it, and the last ten that were over in them.
    pub around: Around,
}

/// Whether reasons are found for the rule of this number.
pub fn is_answered(rule: u8) -> bool
    ensures { result ≡ is_answered rule }
{
    fsb_why::is_line_rule(rule) || fsb_why_queue::is_queue_rule(rule)
}

/// Why the rule is broken with this sample, which one machine took already, and the other one did not yet.
fn reason_for(why: &Why, queue: &Queue, sample: &Sample, rule: u8) -> Option<Reason>
    requires { fed queue.now < 2 ^ 32 }
    ensures { (m : Marks) (h : Trace) → WhyStands why.now m (h ++ sample.now ∷ []) →
        QueueStands queue.now h → Orderly h →
        SaysWhy m (h ++ sample.now ∷ []) (length h) rule result }
{
    reasons_name_broken_rules();
    if fsb_why::is_line_rule(rule) {
        why.why(rule)
    } else if fsb_why_queue::is_queue_rule(rule) {
        queue.why(rule, sample)
    } else {
        None
    }
}

// Keeps a reason, if there is one.
fn keep(reasons: &mut Vec<Reason>, reason: Option<Reason>) -> Result<(), AllocError>
    ensures { OnOk result (reasons.new.items ≡ reasons.old.items ++ option_to_list reason) }
{
    match reason {
        None => Ok(()),
        Some(reason) => {
            reasons.push(reason)?;
            Ok(())
        }
    }
}

/// Puts the reasons of those of the rules that are broken with this sample.
pub(crate) fn put_reasons(
    reasons: &mut Vec<Reason>,
    rules: &[u8],
    why: &Why,
    queue: &Queue,
    sample: &Sample,
) -> Result<(), AllocError>
    requires { fed queue.now < 2 ^ 32 }
    ensures { (m : Marks) (h : Trace) → WhyStands why.now m (h ++ sample.now ∷ []) →
        QueueStands queue.now h → Orderly h → reasons.old.items ≡ [] →
        OnOk result (AreReasonsOf rules.now m (h ++ sample.now ∷ []) (length h) reasons.new.items) }
{
    for rule in rules {
        keep(reasons, reason_for(why, queue, sample, *rule))?;
    }
    Ok(())
}

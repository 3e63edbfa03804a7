//! Numbers of the reasons for snoops.

ghost use Rattle.std.specs.Prelude.{◌≡◌, OnOk};
ghost use Rattle.serde_json.specs.View.{members_view};
ghost use Rattle.reason_facts.specs.Facts.{snoop_facts};

use crate::value::{Object, put_count, put_request, put_snoop};
use fsb_reasons::Reason;
use std::alloc::{AllocError, Global};

/// Puts the numbers of rules 11 and 12.
#[tactic(auto, unfolding(crate::specs::Facts::snoop_facts))]
pub(crate) fn put_snooped(
    object: &mut Object,
    alloc: Global,
    reason: &Reason,
) -> Result<(), AllocError>
    ensures { OnOk result (members_view object.new.entries
        ≡ snoop_facts reason.now (members_view object.old.entries)) }
{
    match reason {
        Reason::SnoopsOver { lines } => put_snoop(object, alloc, *lines),
        Reason::SnoopEarly {
            lines,
            request,
            start,
        } => {
            put_snoop(object, alloc, *lines)?;
            put_request(object, alloc, *request)?;
            put_count(object, alloc, "snoop_start", *start)
        }
        Reason::SnoopBetween {
            lines,
            request,
            start,
        } => {
            put_snoop(object, alloc, *lines)?;
            put_request(object, alloc, *request)?;
            put_count(object, alloc, "snoop_start", *start)
        }
        Reason::WriteBackSnooped { lines, request } => {
            put_snoop(object, alloc, *lines)?;
            put_request(object, alloc, *request)
        }
        Reason::ReplySnooped { lines, request } => {
            put_snoop(object, alloc, *lines)?;
            put_request(object, alloc, *request)
        }
        _ => Ok(()),
    }
}

//! The name of a reason's kind.

ghost use Rattle.std.specs.Prelude.{◌≡◌};
ghost use Rattle.reason_facts.specs.Kinds.{kind_of};

use fsb_reasons::Reason;

/// The name of its kind, which stays the same from version to version.
#[tactic(auto, unfolding(crate::specs::Kinds::kind_of))]
pub fn kind_of(reason: &Reason) -> &'static str
    ensures { result.now ≡ kind_of reason.now }
{
    match reason {
        Reason::UnknownLines { .. } => "unknown_lines",
        Reason::AtStart => "at_start",
        Reason::TooSoon { .. } => "too_soon",
        Reason::UnknownBits { .. } => "unknown_bits",
        Reason::Unlawful { .. } => "unlawful",
        Reason::QueueFull { .. } => "queue_full",
        Reason::Blocked { .. } => "blocked",
        Reason::NotArbitrated => "not_arbitrated",
        Reason::Locked { .. } => "locked",
        Reason::NoneAsks { .. } => "none_asks",
        Reason::NoId => "no_id",
        Reason::ReplyByOther { .. } => "reply_by_other",
        Reason::IdOfOther { .. } => "id_of_other",
        Reason::Dropped { .. } => "dropped",
        Reason::Held { .. } => "held",
        Reason::LockAlone => "lock_alone",
        Reason::ErrorAlone { .. } => "error_alone",
        Reason::SnoopsOver { .. } => "snoops_over",
        Reason::SnoopEarly { .. } => "snoop_early",
        Reason::SnoopBetween { .. } => "snoop_between",
        Reason::WriteBackSnooped { .. } => "write_back_snooped",
        Reason::ReplySnooped { .. } => "reply_snooped",
        Reason::NothingToAnswer { .. } => "nothing_to_answer",
        Reason::ResponseEarly { .. } => "response_early",
        Reason::CodeForNone { .. } => "code_for_none",
        Reason::CodeUnsettled { .. } => "code_unsettled",
        Reason::CodeWrong { .. } => "code_wrong",
        Reason::ReadyForNone { .. } => "ready_for_none",
        Reason::ReadyUnsettled { .. } => "ready_unsettled",
        Reason::ReadyUnwanted { .. } => "ready_unwanted",
        Reason::ReadyEarly { .. } => "ready_early",
        Reason::ReadyTwice { .. } => "ready_twice",
        Reason::ResponseUnready { .. } => "response_unready",
        Reason::DataForNone { .. } => "data_for_none",
        Reason::BusyMissing { .. } => "busy_missing",
        Reason::BusyForNone { .. } => "busy_for_none",
        Reason::UnknownData { .. } => "unknown_data",
        Reason::ReplyUnawaited { .. } => "reply_unawaited",
        Reason::IdTaken { .. } => "id_taken",
        Reason::TooMany { .. } => "too_many",
        Reason::AddressParity { .. } => "address_parity",
        Reason::RequestParity => "request_parity",
    }
}

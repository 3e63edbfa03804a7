//! Laws of the list of deferrals, for the simulator that keeps it: small functions with no code, whose contracts are the
//! laws. They hold for every list that stands for the deferrals of a trace at a clock.

ghost use Rattle.std.specs.Prelude.{◌≡◌, ℕ, List, Some, None, true};
ghost use Rattle.fsb_signal.specs.declared.marks.Marks.{Marks};
ghost use Rattle.fsb_encode.specs.declared.request.Request.{Request};
ghost use Rattle.fsb_trace.specs.At.{Trace};
ghost use Rattle.fsb_trace.specs.Requests.{live_request_of};
ghost use Rattle.fsb_trace.specs.Flight.{reply_number_of};
ghost use Rattle.fsb_trace.specs.Deferral.{due_at, is_pending};
ghost use Rattle.fsb_trace.specs.Verdict.{verdict};
ghost use Rattle.fsb_bridge.specs.declared.deferral.Waiting.{Waiting};
ghost use Rattle.fsb_bridge.specs.Deferrals.{deferral_of_id, due_deferral, is_waited_for, waiting_without};
ghost use Rattle.fsb_bridge.specs.DeferralList.{AreEntriesOf, HaveOwnIds, IsThatOf, RespondsInOrder, StandsFor, first_waiting_with_id, waiting_besides, waits};

/// The lines of the list are the pending lines of the trace.
pub fn list_has_the_pending_lines()
    ensures { (list : List Waiting) (w : Trace) (turns : List ℕ) (c line : ℕ) →
        StandsFor list w turns c →
        is_waited_for line list ≡ is_pending w turns line c }
{}

/// In a trace that breaks no phase rule, no request responds before its snoop end.
pub fn accepted_traces_respond_in_order()
    ensures { (m : Marks) (w : Trace) (c : ℕ) → verdict m w ≡ None → RespondsInOrder w c }
{}

/// The first deferral of the list whose reply is due is that of the least request that is due in the trace, and there is
/// none where none is due. No request may respond before its snoop end, below the clock.
pub fn list_has_the_due_deferral()
    ensures { (list : List Waiting) (w : Trace) (turns : List ℕ) (c : ℕ) →
        RespondsInOrder w c → StandsFor list w turns c →
        IsThatOf w (due_deferral c list) (due_at w turns c) }
{}

/// The deferral that an ID takes from the list is that of the least request that waits with this ID, and there is none
/// where none does. Where the requests that wait have IDs of their own, the ID of a reply takes the one that it answers,
/// and leaves an entry for each of the others.
pub fn reply_takes_its_deferral()
    ensures first { (list : List Waiting) (w : Trace) (turns : List ℕ) (c did : ℕ) →
        StandsFor list w turns c →
        IsThatOf w (deferral_of_id did list) (first_waiting_with_id w turns c did) }
    ensures answered { (list : List Waiting) (w : Trace) (turns : List ℕ) (c i j : ℕ)
        (reply : Request) →
        HaveOwnIds w turns c → StandsFor list w turns c →
        waits w turns c i ≡ true → reply_number_of w i ≡ Some j → live_request_of w j ≡ Some reply →
        IsThatOf w (deferral_of_id reply.did list) (Some i) }
    ensures rest { (list : List Waiting) (w : Trace) (turns : List ℕ) (c i j : ℕ) (reply : Request)
        → HaveOwnIds w turns c → StandsFor list w turns c →
        waits w turns c i ≡ true → reply_number_of w i ≡ Some j → live_request_of w j ≡ Some reply →
        AreEntriesOf (waiting_besides w turns c i) (waiting_without reply.did list) w turns c }
{}

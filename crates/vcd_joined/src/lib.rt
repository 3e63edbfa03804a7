//! The two readers of a dump are one: what `vcd_header` answers up to the end of a header and what
//! `vcd_scan` answers behind it are together what `vcd_way` defines, for each way that keeps what is
//! declared and chooses its lines at the header's end. The contracts are laws on the words in which
//! the contracts of both readers are stated.
#![tactic(auto)]

ghost use Rattle.std.specs.Prelude.{◌≡◌, ℕ, ◌++◌, false, List, [], None};
ghost use Rattle.vcd_grammar.specs.Tokens.{Token, tokens_so_far, tokens_of};
ghost use Rattle.vcd_way.specs.Declarations.{Declaration};
ghost use Rattle.vcd_way.specs.Ways.{ValueRules};
ghost use Rattle.vcd_way.specs.Steps.{first_state, happenings_in, is_past_header_at, unknown_from_here};
ghost use Rattle.vcd_way.specs.Answers.{state_of, events_so_far_by, events_before_end_by, events_by, early_end_by, header_by, fault_so_far_by, first_fault_by};
ghost use Rattle.scope_wiring.specs.declared.wire.Wire.{Wire};
ghost use Rattle.scope_way.specs.Wired.{way_by};
ghost use Rattle.vcd_header.specs.Gathering.{header_fault_so_far, header_fault_of};
ghost use Rattle.vcd_scan.specs.Begun.{begun};
ghost use Rattle.vcd_scan.specs.Wired.{Wiring, wired};
ghost use Rattle.vcd_scan.specs.Standing.{known_after, tokens_after, last_tokens_after, told_after, all_told_after};
ghost use Rattle.vcd_scan.specs.Ending.{early_end_after, fault_to_end, told_to_end};
ghost use Rattle.vcd_joined.specs.Choosing.{Choice, choosing, IsTaken, of_values};
ghost use Rattle.vcd_joined.specs.Behind.{gathered_in, IsHeader, behind};
ghost use Rattle.vcd_joined.specs.Texts.{IsHeadWith, IsWholeWith};
ghost use Rattle.vcd_joined.specs.Picking.{picking};

use vcd_course::told_step_by_step;

/// Up to the end of the header, a way that chooses its lines there knows what is known where
/// declarations are only gathered; at that end the lines that it chooses are unknown, and a reader
/// of values that begins there knows the rest.
pub fn a_header_is_gathered()
    ensures known { (c : Choice) (m : ValueRules) (ts : List Token) →
        is_past_header_at (gathered_in m ts).spot ≡ false →
        state_of (choosing c m) ts ≡ gathered_in m ts }
    ensures quiet { (c : Choice) (m : ValueRules) (ts : List Token) →
        is_past_header_at (gathered_in m ts).spot ≡ false →
        happenings_in (choosing c m) (first_state (choosing c m)) ts ≡ [] }
    ensures at_end { (c : Choice) (m : ValueRules) (ts : List Token) → IsHeader m ts →
        state_of (choosing c m) ts ≡ gathered_in m ts }
    ensures unknown { (c : Choice) (m : ValueRules) (ts : List Token) → IsHeader m ts →
        happenings_in (choosing c m) (first_state (choosing c m)) ts
        ≡ unknown_from_here (c.lines (gathered_in m ts).header) }
    ensures begins { (m : ValueRules) (w : Wiring) (ts : List Token) → IsHeader m ts →
        gathered_in m ts ≡ behind (gathered_in m ts) (begun w) }
{}

/// Behind the header, whatever tokens follow: what is known by the way is what a reader of the wires
/// that were taken knows, beside the scopes, the declarations and the sections of the header; and
/// the same happens to the lines, which are unknown at first.
pub fn a_value_reader_goes_on()
    ensures known { (c : Choice) (m : ValueRules) (w : Wiring) (hs ts : List Token) →
        IsHeader m hs → IsTaken c (gathered_in m hs).header w →
        state_of (choosing c m) (hs ++ ts)
        ≡ behind (gathered_in m hs) (known_after (of_values m) w ts) }
    ensures happened { (c : Choice) (m : ValueRules) (w : Wiring) (hs ts : List Token) →
        IsHeader m hs → IsTaken c (gathered_in m hs).header w →
        happenings_in (choosing c m) (first_state (choosing c m)) (hs ++ ts)
        ≡ unknown_from_here w.lines ++ happenings_in (wired (of_values m)) (begun w) ts }
{}

/// In a header nothing is told. Behind it the events by the way, of the first bytes of a text and of
/// a text up to its last time stamp, are what a reader of the wires tells; and the way keeps what the
/// header declares.
pub fn events_are_told_behind()
    ensures none { (c : Choice) (m : ValueRules) (fed : List ℕ) →
        is_past_header_at (gathered_in m (tokens_so_far fed)).spot ≡ false →
        events_so_far_by (choosing c m) fed ≡ [] }
    ensures so_far { (c : Choice) (m : ValueRules) (w : Wiring) (head fed : List ℕ) →
        IsHeadWith c m w head →
        events_so_far_by (choosing c m) (head ++ fed)
        ≡ told_after (of_values m) w (tokens_after head fed) }
    ensures before_end { (c : Choice) (m : ValueRules) (w : Wiring) (head fed : List ℕ) →
        IsHeadWith c m w head →
        events_before_end_by (choosing c m) (head ++ fed)
        ≡ told_after (of_values m) w (last_tokens_after head fed) }
    ensures header { (c : Choice) (m : ValueRules) (w : Wiring) (head fed : List ℕ) →
        IsHeadWith c m w head →
        header_by (choosing c m) (head ++ fed) ≡ (gathered_in m (tokens_so_far head)).header }
{
    told_step_by_step();
}

/// The first fault by the way is the one in the header, in first bytes and in a whole text; behind
/// the header it is the one that a reader of the wires finds, and so is what the text tells in all.
/// A text that ends early has no fault, tells what is over, and its early end is what that reader
/// says.
pub fn texts_end_as_the_readers_say()
    ensures fault_in_header { (c : Choice) (m : ValueRules) (fed : List ℕ) →
        is_past_header_at (gathered_in m (tokens_so_far fed)).spot ≡ false →
        fault_so_far_by (choosing c m) fed ≡ header_fault_so_far m fed }
    ensures fault_of_header { (c : Choice) (m : ValueRules) (text : List ℕ) →
        is_past_header_at (gathered_in m (tokens_of text)).spot ≡ false →
        first_fault_by (choosing c m) text ≡ header_fault_of m text }
    ensures fault_so_far { (c : Choice) (m : ValueRules) (w : Wiring) (head fed : List ℕ) →
        IsHeadWith c m w head →
        fault_so_far_by (choosing c m) (head ++ fed)
        ≡ (known_after (of_values m) w (tokens_after head fed)).fault }
    ensures fault { (c : Choice) (m : ValueRules) (w : Wiring) (head fed : List ℕ) →
        IsHeadWith c m w head →
        first_fault_by (choosing c m) (head ++ fed) ≡ fault_to_end (of_values m) w head fed }
    ensures early { (c : Choice) (m : ValueRules) (w : Wiring) (head fed : List ℕ) →
        IsHeadWith c m w head →
        early_end_by (choosing c m) (head ++ fed) ≡ early_end_after (of_values m) w head fed }
    ensures events { (c : Choice) (m : ValueRules) (w : Wiring) (head fed : List ℕ) →
        IsHeadWith c m w head →
        events_by (choosing c m) (head ++ fed) ≡ told_to_end (of_values m) w head fed }
{
    told_step_by_step();
}

/// A text may end with the `$end` of its header: it has no fault and no early end, and tells what a
/// reader of the wires tells of nothing.
pub fn headers_may_be_all()
    ensures fault { (c : Choice) (m : ValueRules) (text : List ℕ) → IsHeader m (tokens_of text) →
        first_fault_by (choosing c m) text ≡ None }
    ensures early { (c : Choice) (m : ValueRules) (text : List ℕ) → IsHeader m (tokens_of text) →
        early_end_by (choosing c m) text ≡ None }
    ensures header { (c : Choice) (m : ValueRules) (text : List ℕ) → IsHeader m (tokens_of text) →
        header_by (choosing c m) text ≡ (gathered_in m (tokens_of text)).header }
    ensures events { (c : Choice) (m : ValueRules) (w : Wiring) (text : List ℕ) →
        IsWholeWith c m w text →
        events_by (choosing c m) text ≡ all_told_after (of_values m) w [] }
{
    told_step_by_step();
}

/// The ways by wires that are picked of a header are such ways.
pub fn picked_wires_choose()
    ensures { (choose : List Declaration → List Wire) (m : ValueRules) →
        way_by choose m ≡ choosing (picking choose) m }
{}

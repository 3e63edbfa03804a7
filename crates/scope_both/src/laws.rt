ghost use Rattle.std.specs.Prelude.{◌≡◌, ℕ, Bool, true, List, None, length};
ghost use Rattle.vcd_grammar.specs.Judging.{marks_of_lines};
ghost use Rattle.vcd_grammar.specs.Reading.{first_fault, samples_of, marks_of};
ghost use Rattle.vcd_way.specs.Events.{samples_among};
ghost use Rattle.vcd_way.specs.Answers.{first_fault_by, events_by};
ghost use Rattle.vcd_way.specs.Strict.{strict};
ghost use Rattle.scope_wiring.specs.declared.wire.Wire.{Wire};
ghost use Rattle.scope_way.specs.Wired.{wired_way, wired_lines};
ghost use Rattle.fsb_rules.specs.Checker.{as_broken};
ghost use Rattle.fsb_trace.specs.Verdict.{verdict};
ghost use Rattle.scope_check.specs.declared.finding.Judged.{Judged};
ghost use Rattle.scope_check.specs.Findings.{IsFoundIn};
ghost use Rattle.scope_both.specs.Finding.{begins_known, whole_part, IsJudgedWhole};
ghost use Rattle.scope_both.specs.Usual.{usual_rules};
ghost use Rattle.scope_both.specs.Taking.{TakesStrictly};
ghost use Rattle.scope_both.specs.Alike.{never_stops, TellsNoHole, IsReadAlike};

use vcd_way::strict_is_the_grammar;

/// A dump that the strict grammar reads has no fault by wires that take the same of it. If it tells of no hole, it tells
/// the same: the same samples, each with the same stamp; and its marks are the same. It tells of no hole where no word of
/// it is `$dumpoff`. Whether a text may end early makes no difference.
pub fn strict_dumps_are_read_alike()
    ensures fault { (ws : List Wire) (early : Bool) (text : List ℕ) → first_fault text ≡ None →
        TakesStrictly ws (usual_rules early) text →
        first_fault_by (wired_way ws (usual_rules early)) text ≡ None }
    ensures trace { (ws : List Wire) (early : Bool) (text : List ℕ) → first_fault text ≡ None →
        IsReadAlike ws (usual_rules early) text →
        samples_among (events_by (wired_way ws (usual_rules early)) text) ≡ samples_of text }
    ensures events { (ws : List Wire) (early : Bool) (text : List ℕ) → first_fault text ≡ None →
        IsReadAlike ws (usual_rules early) text →
        events_by (wired_way ws (usual_rules early)) text ≡ events_by strict text }
    ensures marks { (ws : List Wire) (early : Bool) (text : List ℕ) →
        TakesStrictly ws (usual_rules early) text →
        marks_of_lines (wired_lines ws) ≡ marks_of text }
    ensures no_hole { (ws : List Wire) (early : Bool) (text : List ℕ) → first_fault text ≡ None →
        TakesStrictly ws (usual_rules early) text → never_stops text ≡ true →
        TellsNoHole ws (usual_rules early) text }
{
    strict_is_the_grammar();
}

/// Of a dump that both read alike, in whose first sample no control line is unknown, all clocks are judged from the first
/// one on, and what is found is the verdict on the trace that the strict grammar reads.
pub fn both_find_the_same()
    ensures { (ws : List Wire) (early : Bool) (text : List ℕ) (f : Judged) →
        first_fault text ≡ None → IsReadAlike ws (usual_rules early) text →
        begins_known (samples_of text) ≡ true →
        IsFoundIn f whole_part (marks_of_lines (wired_lines ws)) (events_by (wired_way ws (usual_rules early)) text) →
        IsJudgedWhole f (length (samples_of text)) (as_broken (verdict (marks_of text) (samples_of text))) }
{
    strict_is_the_grammar();
}

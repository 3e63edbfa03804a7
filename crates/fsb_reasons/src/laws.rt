//! What reasons are worth: functions with no code, whose contracts are the laws.

ghost use Rattle.std.specs.Prelude.{◌≡◌, ℕ, ◌+◌, true, nat_le, Some, take};
ghost use Rattle.fsb_count.specs.Options.{is_some_and};
ghost use Rattle.fsb_signal.specs.declared.marks.Marks.{Marks};
ghost use Rattle.fsb_trace.specs.At.{Trace};
ghost use Rattle.fsb_trace.specs.Response.{answer_from};
ghost use Rattle.fsb_trace.specs.Rules.{breaks, may_answer};
ghost use Rattle.fsb_trace.specs.Verdict.{verdict};
ghost use Rattle.fsb_reasons.specs.declared.reason.Reason.{Reason};
ghost use Rattle.fsb_reasons.specs.RuleOf.{rule_of};
ghost use Rattle.fsb_reasons.specs.Holds.{Holds, HasReason};

/// A reason that holds at a clock names a rule that is broken there.
pub fn reasons_name_broken_rules()
    ensures { (m : Marks) (v : Trace) (c : ℕ) (reason : Reason) → Holds m v c reason →
        breaks m v c (rule_of reason) ≡ true }
{}

/// A rule that is broken at a clock has a reason that holds there. Nothing is asked of the clocks before, nor of the
/// other rules.
pub fn broken_rules_have_reasons()
    ensures { (m : Marks) (v : Trace) (c j : ℕ) → breaks m v c j ≡ true → HasReason m v c j }
{}

/// A live request may be answered exactly from one clock on, the one that `ResponseEarly` and `ReadyEarly` name as the
/// earliest; where that clock is not reached, it may not be answered.
pub fn answers_begin_at_the_earliest()
    ensures { (v : Trace) (c i : ℕ) →
        may_answer v c i ≡ is_some_and (answer_from v i) (λ from. nat_le from c) }
{}

/// The rule of a verdict has a reason that holds at the verdict's clock, of the samples up to it.
pub fn verdicts_have_reasons()
    ensures { (m : Marks) (w : Trace) (c j : ℕ) → verdict m w ≡ Some (c, j) →
        HasReason m (take (c + 1) w) c j }
{}

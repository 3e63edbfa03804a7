//! Laws over what `bench` says of a call: no code but the laws that they rest on.

ghost use Rattle.std.specs.Prelude.{◌≡◌, ◌≢◌, ◌≤◌, ◌<◌, ◌-◌, ◌^◌, ◌++◌, ◌⊎◌, ℕ, Bool, false};
ghost use Rattle.std.specs.Prelude.{IsTrue, List, Option, Some, length, slice_get};
ghost use Rattle.std.specs.List.{fold, list_any};
ghost use Rattle.fsb_access.specs.declared.log.Done.{Done as Entry};
ghost use Rattle.fsb_audit.specs.Fouls.{finding_of};
ghost use Rattle.fsb_audit.specs.declared.finding.FoulAt.{FoulAt};
ghost use Rattle.fsb_calls.specs.Calls.{Call, EndsSo, held, left_of, named_as, printed};
ghost use Rattle.fsb_calls.specs.Calls.{printed_before};
ghost use Rattle.fsb_command.specs.Form.{Form, audit, check, find, gen, run, show, wave};
ghost use Rattle.fsb_encode.specs.declared.request.Request.{Request};
ghost use Rattle.fsb_hazard.specs.Asking.{AreAnswers};
ghost use Rattle.fsb_hazard.specs.Choice.{join, quiet_choice};
ghost use Rattle.fsb_hazard.specs.Told.{Told};
ghost use Rattle.fsb_hazard.specs.declared.choice.Ask.TheVariants.{Begun, Clock};
ghost use Rattle.fsb_hazard.specs.declared.choice.Choice.{Choice};
ghost use Rattle.fsb_io.specs.Appends.{AppendsPart};
ghost use Rattle.fsb_top.specs.Printed.{run_log};
ghost use Rattle.fsb_top.specs.RunOf.{IsRunOf};
ghost use Rattle.fsb_top.specs.Writing.{HasPart, IsAsBefore};
ghost use Rattle.fsb_report.specs.VerdictText.{trace_text};
ghost use Rattle.fsb_rules.specs.Checker.{as_broken};
ghost use Rattle.fsb_rules.specs.declared.broken.Broken.{Broken};
ghost use Rattle.fsb_script.specs.Drafts.{BenchText};
ghost use Rattle.fsb_script.specs.Plans.{PlanView};
ghost use Rattle.fsb_script.specs.declared.fault.ScriptFault.{ScriptFault};
ghost use Rattle.fsb_show.specs.ShownDump.{IsLongDump};
ghost use Rattle.fsb_signal.specs.declared.marks.Marks.{Marks};
ghost use Rattle.fsb_signal.specs.declared.sample.Sample.{Sample};
ghost use Rattle.fsb_timely.specs.Runs.{Run};
ghost use Rattle.fsb_calls.specs.StatusSays.{HasRun};
ghost use Rattle.fsb_top.specs.BenchEnds.{IsTooLong};
ghost use Rattle.fsb_calls.specs.StatusSays.{IsTold};
ghost use Rattle.fsb_top.specs.BenchEnds.{IsDumped, IsLogged, IsWritten};
ghost use Rattle.fsb_top.specs.BenchEnds.{IsOfAudit, IsOfCheck, IsOfFind, IsOfGen, IsOfRun, IsOfWave};
ghost use Rattle.fsb_top.specs.Complete.{IsComplete, IsDumpWithin, IsReadable};
ghost use Rattle.fsb_top.specs.declared.status.Status.TheVariants.{BadBench, BadDump, BadWords, Done};
ghost use Rattle.fsb_top.specs.declared.status.Status.TheVariants.{DumpFault, Foul, NotFound};
ghost use Rattle.fsb_top.specs.declared.status.Status.TheVariants.{ReadFault, Rejected, TooLong};
ghost use Rattle.fsb_top.specs.declared.status.Status.TheVariants.{WriteFault};
ghost use Rattle.fsb_trace.specs.Verdict.{verdict};
ghost use Rattle.fsb_trigger.specs.Match.{least_match};
ghost use Rattle.fsb_trigger.specs.TriggerSteps.{StepView};
ghost use Rattle.fsb_watch.specs.Watched.{HasManySamples};
ghost use Rattle.vcd_grammar.specs.Reading.{Reads};
ghost use Rattle.vcd_grammar.specs.declared.fault.VcdFault.{VcdFault};
ghost use Rattle.fsb_headline.specs.FileStatuses.{status_of_broken, status_of_finding, status_of_match};
ghost use Rattle.fsb_headline.specs.Headline.{KeepsHeadline, printed_of};
ghost use Rattle.fsb_headline.specs.PhaseRules.{IsAccepted, IsRejected};
ghost use Rattle.fsb_headline.specs.PrintedLogs.{IsLogOf};
ghost use Rattle.fsb_headline.specs.Refusals.{IsNoBench, IsNoDump, IsReadInPieces, WasReadWhole};

use fsb_calls::{files_are_read_as_told, runs_leave_log_and_dump, statuses_have_causes};
use fsb_io::{Sink, Source};
use fsb_script::one_answer;
use fsb_script_laws::plans_that_were_read_are_lawful;

/// For every bench file within the limits and every hazard object handed in, after the file's
/// number of clocks, the accesses printed are, for each agent, a prefix of its script; one byte
/// memory that serves them singly in printed order gives exactly the printed values; each locked
/// sequence stands together; and the dump written reads back to a trace that breaks no phase
/// rule.
pub fn runs_are_as_promised<S: Source, O: Sink, D: Sink>()
    ensures { (call : Call S.Source O.Sink D.Sink) → EndsSo call →
        IsTrue S.tells → IsTrue O.tells → IsTrue D.tells → (bench name : List ℕ) →
        call.words ≡ Some (run bench (Some name)) → call.status ≡ Done →
        KeepsHeadline (held call) (printed_before call) (printed call) (D.holds call.last) }
{
    runs_leave_log_and_dump::<S, O, D>();
}

/// The accesses printed are known from the text: two logs of one plan that print alike are one. So
/// two runs of one bench file that print alike have one log, whatever hazard objects stand there.
pub fn printed_text_determines_the_log()
    ensures logs { (plan : PlanView) (a b : List Entry) → IsLogOf plan.scripts a →
        IsLogOf plan.scripts b → printed_of plan a ≡ printed_of plan b → a ≡ b }
    ensures runs { (text : List ℕ) (plan : PlanView) (told also_told : List (Option Told))
        (r s : Run) → BenchText text plan → IsRunOf told plan r → IsRunOf also_told plan s →
        run_log r ≡ run_log s → r.log ≡ s.log }
{
    plans_that_were_read_are_lawful();
}

/// A check, or a table, that ends with `Done` was of a dump that breaks no phase rule, and one
/// that ends with `Rejected` of a dump that breaks this rule at this clock, no rule before, and
/// no lesser rule there. No dump is both, and none is rejected for two rules.
pub fn verdicts_are_first_and_least<S: Source, O: Sink, D: Sink>()
    ensures accepted { (call : Call S.Source O.Sink D.Sink) → EndsSo call → IsTrue S.tells →
        (name : List ℕ) → call.words ≡ Some (check name) → call.status ≡ Done →
        IsAccepted (held call) }
    ensures rejected { (call : Call S.Source O.Sink D.Sink) → EndsSo call → IsTrue S.tells →
        (name : List ℕ) (first : Broken) → call.words ≡ Some (check name) →
        call.status ≡ Rejected first → IsRejected (held call) first }
    ensures accepted_table { (call : Call S.Source O.Sink D.Sink) → EndsSo call →
        IsTrue S.tells → (name : List ℕ) → call.words ≡ Some (show name) → call.status ≡ Done →
        IsAccepted (held call) }
    ensures rejected_table { (call : Call S.Source O.Sink D.Sink) → EndsSo call →
        IsTrue S.tells → (name : List ℕ) (first : Broken) → call.words ≡ Some (show name) →
        call.status ≡ Rejected first → IsRejected (held call) first }
    ensures not_both { (held : List ℕ) (first : Broken) → IsAccepted held →
        IsRejected held first → ⊥ }
{
    files_are_read_as_told::<S, O, D>();
}

/// A file that is refused was read whole, under the name in the words and within the limit, and
/// this is its first fault: no other is, and it says no plan, or no trace.
pub fn refusals_name_the_first_fault<S: Source, O: Sink, D: Sink>()
    ensures bench { (call : Call S.Source O.Sink D.Sink) → EndsSo call → IsTrue S.tells →
        (name : List ℕ) (dump : Option (List ℕ)) (fault : ScriptFault) →
        call.words ≡ Some (run name dump) → call.status ≡ BadBench fault →
        WasReadWhole 4194304 name (held call) (left_of call) (named_as call)
        × IsNoBench (held call) fault }
    ensures dump { (call : Call S.Source O.Sink D.Sink) → EndsSo call → IsTrue S.tells →
        (form : Form) (name : List ℕ) (fault : VcdFault) → IsReadInPieces form name →
        call.words ≡ Some form → call.status ≡ BadDump fault →
        WasReadWhole (2 ^ 40) name (held call) (left_of call) (named_as call)
        × IsNoDump (held call) fault }
    ensures table { (call : Call S.Source O.Sink D.Sink) → EndsSo call → IsTrue S.tells →
        (name : List ℕ) (fault : VcdFault) → call.words ≡ Some (show name) →
        call.status ≡ BadDump fault →
        WasReadWhole 268435456 name (held call) (left_of call) (named_as call)
        × IsNoDump (held call) fault }
{
    one_answer();
    statuses_have_causes::<S, O, D>();
}

/// What a file is decides how a command ends that looks at it, unless its sink fails: a check, or
/// a table, by the verdict; an audit by what it finds first; a search by the least match. So
/// `Done`, `Rejected`, `Foul` and `NotFound` exclude one another.
pub fn files_decide_the_status<S: Source, O: Sink, D: Sink>()
    ensures check { (call : Call S.Source O.Sink D.Sink) → EndsSo call → IsTrue S.tells →
        (marks : Marks) (trace : List Sample) → Reads (held call) marks trace →
        (name : List ℕ) → call.words ≡ Some (check name) → HasRun call.status →
        call.status ≢ WriteFault →
        call.status ≡ status_of_broken (as_broken (verdict marks trace)) }
    ensures table { (call : Call S.Source O.Sink D.Sink) → EndsSo call → IsTrue S.tells →
        (marks : Marks) (trace : List Sample) → Reads (held call) marks trace →
        (name : List ℕ) → call.words ≡ Some (show name) → HasRun call.status →
        call.status ≢ WriteFault →
        call.status ≡ status_of_broken (as_broken (verdict marks trace)) }
    ensures audit { (call : Call S.Source O.Sink D.Sink) → EndsSo call → IsTrue S.tells →
        (marks : Marks) (trace : List Sample) → Reads (held call) marks trace →
        (name : List ℕ) → call.words ≡ Some (audit name) → HasRun call.status →
        call.status ≢ WriteFault →
        call.status ≡ status_of_finding (finding_of marks trace) }
    ensures search { (call : Call S.Source O.Sink D.Sink) → EndsSo call → IsTrue S.tells →
        (marks : Marks) (trace : List Sample) → Reads (held call) marks trace →
        (name : List ℕ) (steps : List StepView) → call.words ≡ Some (find name steps) →
        HasRun call.status → call.status ≢ WriteFault →
        call.status ≡ status_of_match (least_match steps trace) }
{
    files_are_read_as_told::<S, O, D>();
}

/// What the sinks hold after a call. Of a run: after `Done` the log behind what was held, after
/// `DumpFault` too, and after `WriteFault` a first part of it; of the dump after `DumpFault` a
/// first part, or the sink is as it was. Of a command that looks at a dump: its text behind what
/// was held, or after `WriteFault` a first part of that.
pub fn sinks_hold_what_the_status_tells()
    ensures log { (text before held : List ℕ) →
        (IsLogged Done text before held → held ≡ before ++ text)
        × (IsLogged DumpFault text before held → held ≡ before ++ text)
        × (IsLogged WriteFault text before held → AppendsPart text before held) }
    ensures dump { (text name before held : List ℕ) (was_begun_as begun_as : Option (List ℕ)) →
        IsDumped DumpFault text (Some name) before was_begun_as held begun_as →
        HasPart text name held begun_as ⊎ IsAsBefore before held was_begun_as begun_as }
    ensures verdict { (m : Marks) (w : List Sample) (before held : List ℕ) (broken : Broken) →
        (IsTold Done m w before held → held ≡ before ++ trace_text m w)
        × (IsTold (Rejected broken) m w before held → held ≡ before ++ trace_text m w)
        × (IsTold WriteFault m w before held → AppendsPart (trace_text m w) before held) }
    ensures text { (text before held : List ℕ) (broken : Broken) (foul : FoulAt) →
        (IsWritten Done text before held → held ≡ before ++ text)
        × (IsWritten NotFound text before held → held ≡ before ++ text)
        × (IsWritten (Rejected broken) text before held → held ≡ before ++ text)
        × (IsWritten (Foul foul) text before held → held ≡ before ++ text)
        × (IsWritten WriteFault text before held → AppendsPart text before held) }
{}

/// How no command ends: each status that is left out comes of another command alone. A call that
/// nothing stops ends in none that tells of a fault.
pub fn commands_end_in_their_own_statuses()
    ensures run { (broken : Broken) (bad_dump : VcdFault) (foul : FoulAt) →
        ¬ IsOfRun (Rejected broken) × ¬ IsOfRun (BadDump bad_dump) × ¬ IsOfRun BadWords
        × ¬ IsOfRun (Foul foul) × ¬ IsOfRun NotFound }
    ensures made { (bench : ScriptFault) (dump : VcdFault) (broken : Broken) (foul : FoulAt) →
        ¬ IsOfGen DumpFault × ¬ IsOfGen BadWords × ¬ IsOfGen (BadBench bench)
        × ¬ IsOfGen (BadDump dump) × ¬ IsOfGen ReadFault × ¬ IsOfGen TooLong
        × ¬ IsOfGen (Rejected broken) × ¬ IsOfGen (Foul foul) × ¬ IsOfGen NotFound }
    ensures check { (fault : ScriptFault) (foul : FoulAt) →
        ¬ IsOfCheck DumpFault × ¬ IsOfCheck BadWords × ¬ IsOfCheck (BadBench fault)
        × ¬ IsOfCheck (Foul foul) × ¬ IsOfCheck NotFound }
    ensures audit { (fault : ScriptFault) →
        ¬ IsOfAudit DumpFault × ¬ IsOfAudit BadWords × ¬ IsOfAudit (BadBench fault)
        × ¬ IsOfAudit NotFound }
    ensures search { (fault : ScriptFault) (broken : Broken) (foul : FoulAt) →
        ¬ IsOfFind DumpFault × ¬ IsOfFind BadWords × ¬ IsOfFind (BadBench fault)
        × ¬ IsOfFind (Rejected broken) × ¬ IsOfFind (Foul foul) }
    ensures wave { (fault : ScriptFault) (broken : Broken) (foul : FoulAt) →
        ¬ IsOfWave NotFound × ¬ IsOfWave DumpFault × ¬ IsOfWave BadWords
        × ¬ IsOfWave (BadBench fault) × ¬ IsOfWave (Rejected broken) × ¬ IsOfWave (Foul foul) }
    ensures complete { (bad_bench : ScriptFault) (bad_dump : VcdFault) →
        ¬ IsComplete BadWords × ¬ IsComplete (BadBench bad_bench)
        × ¬ IsComplete (BadDump bad_dump) × ¬ IsComplete ReadFault × ¬ IsComplete WriteFault
        × ¬ IsComplete DumpFault × ¬ IsComplete TooLong }
{}

/// Each command that looks at a dump, and is not stopped before it ends, read all of the file under
/// the name in the words, and that is a dump within its limits of bytes and samples.
pub fn looks_are_of_whole_dumps<S: Source, O: Sink, D: Sink>()
    ensures pieces { (call : Call S.Source O.Sink D.Sink) → EndsSo call → IsTrue S.tells →
        (form : Form) (name : List ℕ) → IsReadInPieces form name → call.words ≡ Some form →
        HasRun call.status →
        WasReadWhole (2 ^ 40) name (held call) (left_of call) (named_as call)
        × IsDumpWithin (2 ^ 40) (2 ^ 32 - 1) (held call) }
    ensures table { (call : Call S.Source O.Sink D.Sink) → EndsSo call → IsTrue S.tells →
        (name : List ℕ) → call.words ≡ Some (show name) → HasRun call.status →
        WasReadWhole 268435456 name (held call) (left_of call) (named_as call)
        × IsDumpWithin 268435456 200000 (held call) }
{
    files_are_read_as_told::<S, O, D>();
}

/// What is too long for a command has more bytes or samples than it reads, and a file within its
/// limits is enough for it.
pub fn limits_are_all_that_is_asked()
    ensures too_long { (name held : List ℕ) (dump : Option (List ℕ)) (steps : List StepView)
        (from to seed agents items : ℕ) →
        (IsTooLong (run name dump) held → 4194304 < length held)
        × (IsTooLong (check name) held → (2 ^ 40 < length held) ⊎ HasManySamples held)
        × (IsTooLong (audit name) held → (2 ^ 40 < length held) ⊎ HasManySamples held)
        × (IsTooLong (show name) held → (268435456 < length held) ⊎ IsLongDump held)
        × (IsTooLong (find name steps) held → (2 ^ 40 < length held) ⊎ HasManySamples held)
        × (IsTooLong (wave name from to) held → (2 ^ 40 < length held) ⊎ HasManySamples held)
        × ¬ IsTooLong (gen seed agents items) held }
    ensures bench { (name held : List ℕ) (dump : Option (List ℕ)) (plan : PlanView) →
        BenchText held plan → length held ≤ 4194304 → IsReadable (run name dump) held }
    ensures dump { (name held : List ℕ) (steps : List StepView) (from to : ℕ) (marks : Marks)
        (trace : List Sample) → Reads held marks trace → length held ≤ 2 ^ 40 →
        length trace ≤ 2 ^ 32 - 1 →
        IsReadable (check name) held × IsReadable (audit name) held
        × IsReadable (find name steps) held × IsReadable (wave name from to) held }
    ensures table { (name held : List ℕ) (marks : Marks) (trace : List Sample) →
        Reads held marks trace → length held ≤ 268435456 → length trace ≤ 200000 →
        IsReadable (show name) held }
{}

/// Whatever hazard objects are handed in, the choice for a request of a run is what one answer of
/// each object to its beginning joins to, BNR# left out; and BNR# is asked for at a clock where one
/// of their answers to it does.
pub fn objects_choose_the_hazards()
    ensures choices { (told : List (Option Told)) (plan : PlanView) (r : Run) →
        IsRunOf told plan r → (k : ℕ) (choice : Choice) → slice_get r.choices k ≡ Some choice →
        (request : Request) × (answers : List Choice) × AreAnswers told (Begun k request) answers
        × (choice ≡ record (fold join quiet_choice answers) { bnr = false }) }
    ensures holds { (told : List (Option Told)) (plan : PlanView) (r : Run) → IsRunOf told plan r →
        (c : ℕ) (hold : Bool) → slice_get r.holds c ≡ Some hold →
        (answers : List Choice) × AreAnswers told (Clock c) answers
        × (hold ≡ list_any (λ (answer : Choice). answer.bnr) answers) }
{}

//! What follows from how a call ends: each promise of `bench`, by what a reader looks for. No code
//! but the law that one of them rests on.

ghost use Rattle.std.specs.Prelude.{◌≡◌, ◌≢◌, ◌⊎◌, ℕ, IsTrue, List, None, Option, Some};
ghost use Rattle.fsb_command.specs.Form.{Asked, Form, ask, audit, check, find, gen, looks_only};
ghost use Rattle.fsb_command.specs.Form.{run, show, wave};
ghost use Rattle.fsb_io.specs.Faults.{Rose};
ghost use Rattle.fsb_top.specs.Printed.{run_dump, run_log, run_summary};
ghost use Rattle.fsb_script.specs.Made.{made_plan};
ghost use Rattle.fsb_script.specs.declared.fault.ScriptFault.{ScriptFault};
ghost use Rattle.fsb_show.specs.ShowText.{show_text};
ghost use Rattle.fsb_signal.specs.declared.marks.Marks.{Marks};
ghost use Rattle.fsb_signal.specs.declared.sample.Sample.{Sample};
ghost use Rattle.fsb_calls.specs.FileSays.{FromLook, FromRun, HasFinding, HasLooked};
ghost use Rattle.fsb_calls.specs.FileSays.{HasLookedAs};
ghost use Rattle.fsb_calls.specs.StatusSays.{HasRun};
ghost use Rattle.fsb_calls.specs.FileSays.{HasTable, HasVerdict, IsBadBench};
ghost use Rattle.fsb_top.specs.BenchEnds.{HasRunFrom, HasRunOf};
ghost use Rattle.fsb_calls.specs.FileSays.{IsBadDump, IsBadTable};
ghost use Rattle.fsb_top.specs.BenchEnds.{IsDumped, IsLogged, IsOfAudit};
ghost use Rattle.fsb_top.specs.BenchEnds.{IsOfCheck, IsOfFind, IsOfGen, IsOfLook, IsOfRun};
ghost use Rattle.fsb_top.specs.BenchEnds.{IsOfWave};
ghost use Rattle.fsb_top.specs.BenchEnds.{IsPlanOf};
ghost use Rattle.fsb_calls.specs.StatusSays.{IsSilent, IsTold, TellsMatch};
ghost use Rattle.fsb_top.specs.BenchEnds.{IsTooLong, IsWritten};
ghost use Rattle.fsb_calls.specs.StatusSays.{TellsFound, TellsNothing};
ghost use Rattle.fsb_top.specs.FileRead.{file_of};
ghost use Rattle.fsb_top.specs.Looks.{finding_text, look_at, match_text};
ghost use Rattle.fsb_top.specs.Complete.{IsComplete, IsReadable};
ghost use Rattle.fsb_calls.specs.FileSays.{HasBegunNoOther, HasReadSome, HasReadTooLong};
ghost use Rattle.fsb_top.specs.declared.status.Status.TheVariants.{BadBench, BadDump, BadWords};
ghost use Rattle.fsb_top.specs.declared.status.Status.TheVariants.{DumpFault, OutOfMemory};
ghost use Rattle.fsb_top.specs.declared.status.Status.TheVariants.{ReadFault};
ghost use Rattle.fsb_top.specs.declared.status.Status.TheVariants.{TooLong, WriteFault};
ghost use Rattle.fsb_trigger.specs.TriggerSteps.{StepView};
ghost use Rattle.fsb_wave.specs.WaveText.{wave_text};
ghost use Rattle.vcd_grammar.specs.Reading.{Reads};
ghost use Rattle.vcd_grammar.specs.declared.fault.VcdFault.{VcdFault};
ghost use Rattle.fsb_calls.specs.Calls.{Call, EndsSo, held, left_of, named_as, printed};
ghost use Rattle.fsb_calls.specs.Calls.{printed_before};

use fsb_io::{Sink, Source};
use fsb_top::files_have_one_answer;

/// Which statuses each form of the words may end in, and what each status but `OutOfMemory` comes
/// from: the words, a count of faults that rose, the length of the file, or its first fault. A call
/// that nothing stops does all that its words ask for.
pub fn statuses_have_causes<S: Source, O: Sink, D: Sink>()
    ensures bad_words { (call : Call S.Source O.Sink D.Sink) → EndsSo call →
        call.status ≡ BadWords → call.words ≡ None }
    ensures no_form { (call : Call S.Source O.Sink D.Sink) → EndsSo call →
        call.words ≡ None → (call.status ≡ BadWords) ⊎ (call.status ≡ OutOfMemory) }
    ensures read_fault { (call : Call S.Source O.Sink D.Sink) → EndsSo call →
        call.status ≡ ReadFault →
        Rose (S.faults call.was) (S.faults call.now) }
    ensures too_long { (call : Call S.Source O.Sink D.Sink) → EndsSo call →
        IsTrue S.tells → call.status ≡ TooLong → (form : Form) →
        call.words ≡ Some form → IsTooLong form (held call) }
    ensures bad_bench { (call : Call S.Source O.Sink D.Sink) → EndsSo call →
        IsTrue S.tells → (fault : ScriptFault) → call.status ≡ BadBench fault →
        FromRun call.words
        (λ name. IsBadBench name (held call) (left_of call) (named_as call) fault) }
    ensures bad_dump { (call : Call S.Source O.Sink D.Sink) → EndsSo call →
        IsTrue S.tells → (fault : VcdFault) → call.status ≡ BadDump fault →
        FromLook call.words
        (λ name. IsBadDump name (held call) (left_of call) (named_as call) fault)
        (λ name. IsBadTable name (held call) (left_of call) (named_as call) fault) }
    ensures write_fault { (call : Call S.Source O.Sink D.Sink) → EndsSo call →
        call.status ≡ WriteFault →
        Rose (O.faults call.before) (O.faults call.after) }
    ensures dump_fault { (call : Call S.Source O.Sink D.Sink) → EndsSo call →
        call.status ≡ DumpFault →
        Rose (D.faults call.first) (D.faults call.last) }
    ensures dump_has_name { (call : Call S.Source O.Sink D.Sink) → EndsSo call →
        (bench : List ℕ) → call.words ≡ Some (run bench None) →
        call.status ≢ DumpFault }
    ensures complete { (call : Call S.Source O.Sink D.Sink) → EndsSo call →
        IsTrue S.tells → (form : Form) → call.words ≡ Some form →
        IsReadable form (held call) →
        ¬ Rose (S.faults call.was) (S.faults call.now) →
        ¬ Rose (O.faults call.before) (O.faults call.after) →
        ¬ Rose (D.faults call.first) (D.faults call.last) →
        IsComplete call.status }
    ensures of_run { (call : Call S.Source O.Sink D.Sink) → EndsSo call →
        (name : List ℕ) (dump_name : Option (List ℕ)) →
        call.words ≡ Some (run name dump_name) → IsOfRun call.status }
    ensures of_gen { (call : Call S.Source O.Sink D.Sink) → EndsSo call →
        (seed agents items : ℕ) → call.words ≡ Some (gen seed agents items) →
        IsOfGen call.status }
    ensures of_look { (call : Call S.Source O.Sink D.Sink) → EndsSo call →
        (name : List ℕ) (asked : Asked) → call.words ≡ Some (ask name asked) →
        IsOfLook (look_at asked) call.status }
    ensures of_check { (call : Call S.Source O.Sink D.Sink) → EndsSo call →
        (name : List ℕ) → call.words ≡ Some (check name) → IsOfCheck call.status }
    ensures of_audit { (call : Call S.Source O.Sink D.Sink) → EndsSo call →
        (name : List ℕ) → call.words ≡ Some (audit name) → IsOfAudit call.status }
    ensures of_show { (call : Call S.Source O.Sink D.Sink) → EndsSo call →
        (name : List ℕ) → call.words ≡ Some (show name) → IsOfCheck call.status }
    ensures of_find { (call : Call S.Source O.Sink D.Sink) → EndsSo call →
        (name : List ℕ) (steps : List StepView) →
        call.words ≡ Some (find name steps) → IsOfFind call.status }
    ensures of_wave { (call : Call S.Source O.Sink D.Sink) → EndsSo call →
        (name : List ℕ) (from to : ℕ) → call.words ≡ Some (wave name from to) →
        IsOfWave call.status }
{
    files_have_one_answer();
}

/// What was read of the file that the words name, and what it is: all of it where a command looked
/// at its dump, and then the status tells of its trace what it is to tell; else as far as the call
/// came before it was stopped.
pub fn files_are_read_as_told<S: Source, O: Sink, D: Sink>()
    ensures looked { (call : Call S.Source O.Sink D.Sink) → EndsSo call →
        IsTrue S.tells → (name : List ℕ) (asked : Asked) → call.words ≡ Some (ask name asked) →
        HasRun call.status →
        HasLookedAs (file_of (look_at asked).kind) (TellsFound (look_at asked)) call.status name
        (held call) (left_of call) (named_as call) }
    ensures judged { (call : Call S.Source O.Sink D.Sink) → EndsSo call →
        IsTrue S.tells → (name : List ℕ) → call.words ≡ Some (check name) →
        HasRun call.status →
        HasVerdict call.status name (held call) (left_of call) (named_as call) }
    ensures audited { (call : Call S.Source O.Sink D.Sink) → EndsSo call →
        IsTrue S.tells → (name : List ℕ) → call.words ≡ Some (audit name) →
        HasRun call.status →
        HasFinding call.status name (held call) (left_of call) (named_as call) }
    ensures tabled { (call : Call S.Source O.Sink D.Sink) → EndsSo call →
        IsTrue S.tells → (name : List ℕ) → call.words ≡ Some (show name) →
        HasRun call.status →
        HasTable call.status name (held call) (left_of call) (named_as call) }
    ensures searched { (call : Call S.Source O.Sink D.Sink) → EndsSo call →
        IsTrue S.tells → (name : List ℕ) (steps : List StepView) →
        call.words ≡ Some (find name steps) → HasRun call.status →
        HasLooked (TellsMatch steps) call.status name (held call) (left_of call)
        (named_as call) }
    ensures drawn { (call : Call S.Source O.Sink D.Sink) → EndsSo call →
        IsTrue S.tells → (name : List ℕ) (from to : ℕ) →
        call.words ≡ Some (wave name from to) → HasRun call.status →
        HasLooked TellsNothing call.status name (held call) (left_of call) (named_as call) }
    ensures long_read { (call : Call S.Source O.Sink D.Sink) → EndsSo call →
        IsTrue S.tells → call.status ≡ TooLong → (form : Form) →
        call.words ≡ Some form →
        HasReadTooLong form (held call) (left_of call) (named_as call) }
    ensures memory_read { (call : Call S.Source O.Sink D.Sink) → EndsSo call →
        IsTrue S.tells → call.status ≡ OutOfMemory → (form : Form) →
        call.words ≡ Some form → (call.now ≡ call.was)
        ⊎ HasReadSome form (held call) (left_of call) (named_as call) }
    ensures not_read { (call : Call S.Source O.Sink D.Sink) → EndsSo call →
        IsTrue S.tells → call.status ≡ ReadFault → (form : Form) →
        call.words ≡ Some form →
        HasBegunNoOther form (S.begun_as call.was) (named_as call)
        (S.left call.was) (left_of call) }
{}

/// What a run leaves: of one and the same run, whose choices and holds are what the objects answer
/// once they were given the hazard lines of its plan, the log or the summary, and the dump.
pub fn runs_leave_log_and_dump<S: Source, O: Sink, D: Sink>()
    ensures ran { (call : Call S.Source O.Sink D.Sink) → EndsSo call →
        (name : List ℕ) (dump_name : Option (List ℕ)) →
        call.words ≡ Some (run name dump_name) → HasRun call.status →
        HasRunFrom (λ plan. IsTrue S.tells →
        IsPlanOf name (held call) (left_of call) (named_as call) plan) call.told
        (λ r. (IsTrue O.tells →
        IsLogged call.status (run_log r) (printed_before call) (printed call))
        × (IsTrue D.tells → IsDumped call.status (run_dump r) dump_name
        (D.holds call.first) (D.begun_as call.first)
        (D.holds call.last) (D.begun_as call.last))) }
    ensures generated { (call : Call S.Source O.Sink D.Sink) → EndsSo call →
        (seed agents items : ℕ) → call.words ≡ Some (gen seed agents items) →
        HasRun call.status → let plan = made_plan seed agents items in
        HasRunOf (call.told plan) plan
        (λ r. IsTrue O.tells →
        IsLogged call.status (run_summary seed agents items r) (printed_before call)
        (printed call)) }
{}

/// What a command prints that looks at a dump: the line of the verdict, of the audit or of the
/// search, the table, or the wave, of whatever trace the dump is.
pub fn looks_print_what_they_find<S: Source, O: Sink, D: Sink>()
    ensures looked_text { (call : Call S.Source O.Sink D.Sink) → EndsSo call →
        IsTrue S.tells → IsTrue O.tells → (m : Marks) (w : List Sample) →
        Reads (held call) m w → (name : List ℕ) (asked : Asked) →
        call.words ≡ Some (ask name asked) →
        IsWritten call.status ((look_at asked).text call.weights m w) (printed_before call)
        (printed call) }
    ensures told { (call : Call S.Source O.Sink D.Sink) → EndsSo call →
        IsTrue S.tells → IsTrue O.tells → (m : Marks) (w : List Sample) →
        Reads (held call) m w → (name : List ℕ) → call.words ≡ Some (check name) →
        IsTold call.status m w (printed_before call) (printed call) }
    ensures audited_text { (call : Call S.Source O.Sink D.Sink) → EndsSo call →
        IsTrue S.tells → IsTrue O.tells → (m : Marks) (w : List Sample) →
        Reads (held call) m w → (name : List ℕ) → call.words ≡ Some (audit name) →
        IsWritten call.status (finding_text m w) (printed_before call) (printed call) }
    ensures tabled_text { (call : Call S.Source O.Sink D.Sink) → EndsSo call →
        IsTrue S.tells → IsTrue O.tells → (m : Marks) (w : List Sample) →
        Reads (held call) m w → (name : List ℕ) → call.words ≡ Some (show name) →
        IsWritten call.status (show_text call.weights m w) (printed_before call) (printed call) }
    ensures searched_text { (call : Call S.Source O.Sink D.Sink) → EndsSo call →
        IsTrue S.tells → IsTrue O.tells → (m : Marks) (w : List Sample) →
        Reads (held call) m w → (name : List ℕ) (steps : List StepView) →
        call.words ≡ Some (find name steps) →
        IsWritten call.status (match_text steps w) (printed_before call) (printed call) }
    ensures drawn_text { (call : Call S.Source O.Sink D.Sink) → EndsSo call →
        IsTrue S.tells → IsTrue O.tells → (m : Marks) (w : List Sample) →
        Reads (held call) m w → (name : List ℕ) (from to : ℕ) →
        call.words ≡ Some (wave name from to) →
        IsWritten call.status (wave_text w from to) (printed_before call) (printed call) }
{}

/// What a call leaves as it was: everything, where the words have no form; what is printed and
/// dumped, where it was stopped; the source, where a plan is made; the dump, where the words name
/// none, and where what comes before it could not be printed.
pub fn the_rest_stays_as_it_was<S: Source, O: Sink, D: Sink>()
    ensures not_called { (call : Call S.Source O.Sink D.Sink) → EndsSo call →
        call.words ≡ None → call.now ≡ call.was }
    ensures nothing_read { (call : Call S.Source O.Sink D.Sink) → EndsSo call →
        (seed agents items : ℕ) → call.words ≡ Some (gen seed agents items) →
        call.now ≡ call.was }
    ensures silent { (call : Call S.Source O.Sink D.Sink) → EndsSo call →
        IsSilent call.status → call.after ≡ call.before }
    ensures no_dump { (call : Call S.Source O.Sink D.Sink) → EndsSo call →
        IsSilent call.status → call.last ≡ call.first }
    ensures not_begun { (call : Call S.Source O.Sink D.Sink) → EndsSo call →
        call.status ≡ WriteFault → call.last ≡ call.first }
    ensures not_named { (call : Call S.Source O.Sink D.Sink) → EndsSo call →
        (bench : List ℕ) → call.words ≡ Some (run bench None) → call.last ≡ call.first }
    ensures not_dumped { (call : Call S.Source O.Sink D.Sink) → EndsSo call →
        (seed agents items : ℕ) → call.words ≡ Some (gen seed agents items) →
        call.last ≡ call.first }
    ensures not_written { (call : Call S.Source O.Sink D.Sink) → EndsSo call →
        (form : Form) → call.words ≡ Some form → IsTrue (looks_only form) →
        call.last ≡ call.first }
{}

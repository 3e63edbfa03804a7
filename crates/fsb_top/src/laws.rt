//! A law over what a source holds: no code.

ghost use Rattle.std.specs.Prelude.{◌⊎◌, List, ℕ};
ghost use Rattle.fsb_command.specs.Form.{Form};
ghost use Rattle.fsb_top.specs.BenchEnds.{IsTooLong};
ghost use Rattle.fsb_top.specs.Complete.{IsFaulty, IsReadable};

use fsb_script::one_answer;

/// What a source holds is what a command reads within its limits, or has a first fault of which the command tells, or is
/// too long: exactly one of the three. So of `Done` and what goes with it, of `BadBench` and `BadDump`, and of `TooLong` no
/// two have one cause.
pub fn files_have_one_answer()
    ensures some { (form : Form) (held : List ℕ) →
        IsReadable form held ⊎ (IsFaulty form held ⊎ IsTooLong form held) }
    ensures not_faulty { (form : Form) (held : List ℕ) → IsReadable form held →
        IsFaulty form held → ⊥ }
    ensures not_long { (form : Form) (held : List ℕ) → IsReadable form held →
        IsTooLong form held → ⊥ }
    ensures not_both { (form : Form) (held : List ℕ) → IsFaulty form held →
        IsTooLong form held → ⊥ }
{
    one_answer();
}

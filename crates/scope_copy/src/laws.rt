ghost use Rattle.std.specs.Prelude.{◌≡◌, ℕ, List, [], Ok};
ghost use Rattle.scope_check.specs.declared.part.Part.{Part};
ghost use Rattle.scope_watch.specs.declared.values.Sampling.{Sampling};
ghost use Rattle.scope_wiring.specs.declared.wiring.Choice.{Choice};
ghost use Rattle.scope_wiring.specs.declared.wiring.Wiring.{Wiring};
ghost use Rattle.scope_copy.specs.declared.copy.Copied.{Copied};
ghost use Rattle.scope_copy.specs.declared.copy.CopiedText.{CopiedText};
ghost use Rattle.scope_copy.specs.declared.copy.CopyFinding.TheVariants as findings;
ghost use Rattle.scope_copy.specs.Copying.{IsCopied, ReadsAsPart};

use scope_write::shown_dumps_read_back;

/// What `copy_dump` wrote to an empty sink is a dump by the strict grammar, and says the samples of the part, as many as it
/// told; its marks are those of the picked wires.
pub fn copied_dumps_read_back()
    ensures { (copied : Copied) (w : Wiring) (told : CopiedText) (choice : Choice) (p : Part)
        (s : Sampling) (text dump : List ℕ) → IsCopied (Ok copied) choice p s text [] dump →
        copied.finding ≡ findings.Copied w told → ReadsAsPart dump told w p s text }
{
    shown_dumps_read_back();
}

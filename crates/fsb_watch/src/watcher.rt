//! What is shown the samples of a dump.
ghost use Rattle.std.specs.Prelude.{◌<◌, ◌^◌, ◌++◌, ◌∷◌, List, [], OnOk, length};
ghost use Rattle.fsb_signal.specs.declared.marks.Marks.{Marks};
ghost use Rattle.fsb_signal.specs.declared.sample.Sample.{Sample};

use fsb_io::Memory;
use fsb_signal::{Marks, Sample};

/// Is told which parity lines a dump declares, and is then shown its samples, one after another.
///
/// `is_ready` says that a value may be told the marks. `has_seen` says of two values that the second is what the first has
/// become once it was told these marks and shown these samples. Want of memory is the only thing that stops a watcher.
pub trait Watcher {
    ghost is_ready: { Self → Type 0 };

    ghost has_seen: { Self → Self → Marks → List Sample → Type 0 };

    /// Tells the marks of the dump, before its first sample.
    fn begin(&mut self, marks: Marks) -> Result<(), Memory>
        requires { is_ready self.old }
        ensures { OnOk result (has_seen self.old self.new marks []) };

    /// Shows the next sample. Fewer than 2^32 samples were shown before.
    fn see(&mut self, sample: &Sample) -> Result<(), Memory>
        requires { (begun : Self) × (marks : Marks) × (h : List Sample)
            × has_seen begun self.old marks h × (length h < 2 ^ 32) }
        ensures { OnOk result ((begun : Self) (marks : Marks) (h : List Sample) →
            has_seen begun self.old marks h →
            has_seen begun self.new marks (h ++ sample.now ∷ [])) };
}

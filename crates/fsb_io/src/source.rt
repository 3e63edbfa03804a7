//! Where bytes come from.
ghost use Rattle.std.specs.Prelude.{◌≡◌, ◌≤◌, ◌<◌, ◌++◌, ℕ, Bool, List, [], Option, IsTrue, IfOk, OnOk, OnErr, length, take};
ghost use Rattle.fsb_io.specs.Begun.{IsBegun};
ghost use Rattle.fsb_io.specs.Faults.{HasCause};

use crate::Failed;

/// Gives bytes to read, one after another, once it is begun under a name.
///
/// `tells` says whether an implementation tells what it holds, what of that is left to read and
/// the name begun last. Each has a count of faults, which never falls.
pub trait Source {
    ghost tells: { Bool };

    ghost holds: { Self → List ℕ };

    ghost left: { Self → List ℕ };

    ghost begun_as: { Self → Option (List ℕ) };

    ghost faults: { Self → ℕ };

    /// Begins to give all that it holds, under `name` of at most 4,096 bytes. After `Failed`
    /// neither what is left nor the name begun last has changed.
    fn begin(&mut self, name: &str) -> Result<(), Failed>
        requires { length name.now ≤ 4096 }
        ensures begun { IsTrue tells →
            OnOk result (IsBegun (holds self.old) (left self.new) name.now (begun_as self.new)) }
        ensures left_stays { IsTrue tells → OnErr result (left self.new ≡ left self.old) }
        ensures name_stays { IsTrue tells → OnErr result (begun_as self.new ≡ begun_as self.old) }
        ensures holds_stays { IsTrue tells → holds self.new ≡ holds self.old }
        ensures cause { HasCause (faults self.old) (faults self.new) result };

    /// Takes the first bytes of what is left into the front of `buf`, and answers how many. For a
    /// buffer that is not empty, 0 is the end: nothing is left. What is left after `Failed` is not
    /// said here.
    fn read(&mut self, buf: &mut [u8]) -> Result<usize, Failed>
        ensures within { IfOk result (λ n. n ≤ length buf.new) }
        ensures bytes { IsTrue tells →
            IfOk result (λ n. left self.old ≡ take n buf.new ++ left self.new) }
        ensures end { IsTrue tells → 0 < length buf.old →
            IfOk result (λ n. n ≡ 0 → left self.new ≡ []) }
        ensures name_stays { IsTrue tells → begun_as self.new ≡ begun_as self.old }
        ensures holds_stays { IsTrue tells → holds self.new ≡ holds self.old }
        ensures cause { HasCause (faults self.old) (faults self.new) result };
}

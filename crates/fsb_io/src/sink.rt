//! Where bytes go.
ghost use Rattle.std.specs.Prelude.{◌≡◌, ◌≤◌, ◌<◌, ◌++◌, ℕ, Bool, List, Option, IsTrue, IfOk, OnOk, OnErr, length, take};
ghost use Rattle.fsb_io.specs.Appends.{AppendsPart};
ghost use Rattle.fsb_io.specs.Begun.{IsEmptied};
ghost use Rattle.fsb_io.specs.Faults.{HasCause};

use crate::Failed;

/// Takes bytes, one piece after another.
///
/// `tells` says whether an implementation tells what it holds and the name begun last. Each has a
/// count of faults, which never falls.
pub trait Sink {
    ghost tells: { Bool };

    ghost holds: { Self → List ℕ };

    ghost begun_as: { Self → Option (List ℕ) };

    ghost faults: { Self → ℕ };

    /// Empties the sink and begins it under `name` of at most 4,096 bytes. After `Failed` neither
    /// what it holds nor the name begun last has changed.
    fn begin(&mut self, name: &str) -> Result<(), Failed>
        requires { length name.now ≤ 4096 }
        ensures begun { IsTrue tells →
            OnOk result (IsEmptied (holds self.new) name.now (begun_as self.new)) }
        ensures holds_stays { IsTrue tells → OnErr result (holds self.new ≡ holds self.old) }
        ensures name_stays { IsTrue tells → OnErr result (begun_as self.new ≡ begun_as self.old) }
        ensures cause { HasCause (faults self.old) (faults self.new) result };

    /// Appends the first bytes of `piece`, and answers how many: at least one of a piece that is
    /// not empty. After `Failed` nothing was appended.
    fn write(&mut self, piece: &[u8]) -> Result<usize, Failed>
        ensures within { IfOk result (λ n. n ≤ length piece.now) }
        ensures some { 0 < length piece.now → IfOk result (λ n. 0 < n) }
        ensures appends { IsTrue tells →
            IfOk result (λ n. holds self.new ≡ holds self.old ++ take n piece.now) }
        ensures holds_stays { IsTrue tells → OnErr result (holds self.new ≡ holds self.old) }
        ensures name_stays { IsTrue tells → begun_as self.new ≡ begun_as self.old }
        ensures cause { HasCause (faults self.old) (faults self.new) result };
}

/// Appends the whole of `piece`. After `Failed` a first part of it was appended, maybe none of it.
/// Takes no memory.
pub fn put_all<O: Sink>(sink: &mut O, piece: &[u8]) -> Result<(), Failed>
    ensures whole { IsTrue O.tells →
        OnOk result (O.holds sink.new ≡ O.holds sink.old ++ piece.now) }
    ensures part { IsTrue O.tells → AppendsPart piece.now (O.holds sink.old) (O.holds sink.new) }
    ensures name_stays { IsTrue O.tells → O.begun_as sink.new ≡ O.begun_as sink.old }
    ensures cause { HasCause (O.faults sink.old) (O.faults sink.new) result }
{
    let mut rest = piece;
    while !rest.is_empty() {
        let count = sink.write(rest)?;
        rest = &rest[count..];
    }
    Ok(())
}

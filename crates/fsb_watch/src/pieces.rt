//! The pieces of a dump.
ghost use Rattle.std.specs.Prelude.{◌≡◌, ◌<◌, ◌+◌, ◌^◌, ◌++◌, ℕ, List, [], Option, length, IfOk, OnOk};
ghost use Rattle.fsb_signal.specs.declared.marks.Marks.{Marks};
ghost use Rattle.fsb_signal.specs.declared.sample.Sample.{Sample};
ghost use Rattle.fsb_watch.specs.Watching.{CanShow, Ends, HasShown, Parsed, Stood};

use crate::show::{show, tell};
use crate::stop::DumpStop;
use crate::watcher::Watcher;
use fsb_io::Memory;
use fsb_signal::Sample;
use std::alloc::Global;
use vcd_read::{Reader, VcdStop};

/// Parses each piece of a dump as it comes, and shows the samples that it decides.
#[derive(Drop)]
pub struct Pieces {
    reader: Reader,
    /// Whether the watcher was told the marks.
    told: bool,
    /// How many samples were shown.
    shown: u32,
    /// The samples of the last piece.
    samples: Vec<Sample>,
}

impl Pieces {
    /// Before the first byte.
    pub fn new(alloc: Global) -> Result<Self, Memory>
        ensures { IfOk result (λ pieces. Parsed pieces []) }
    {
        Ok(Pieces {
            reader: Reader::new(alloc)?,
            told: false,
            shown: 0,
            samples: Vec::new(alloc),
        })
    }

    /// Takes the next piece.
    pub fn take<W: Watcher>(&mut self, piece: &[u8], watcher: &mut W) -> Result<(), Memory>
        requires { (first : W) × (fed : List ℕ) × W.is_ready first
            × Stood W.has_seen first watcher.old self.old fed
            × (length fed + length piece.now < 2 ^ 64) }
        ensures { OnOk result ((first : W) (fed : List ℕ) → W.is_ready first →
            Stood W.has_seen first watcher.old self.old fed →
            Stood W.has_seen first watcher.new self.new (fed ++ piece.now)) }
    {
        self.samples.clear();
        match self.reader.feed(piece, &mut self.samples) {
            Ok(()) => self.show(watcher),
            Err(VcdStop::Memory) => Err(Memory),
            // The rest is read all the same; the end tells the refusal.
            Err(VcdStop::Bad(_)) => Ok(()),
            Err(VcdStop::TooLong) => Ok(()),
        }
    }

    /// Takes the end of the dump, and tells how many samples it has.
    pub fn end<W: Watcher>(&mut self, watcher: &mut W) -> Result<u32, DumpStop>
        requires { (first : W) × (fed : List ℕ) × W.is_ready first
            × Stood W.has_seen first watcher.old self.old fed }
        ensures { (first : W) (fed : List ℕ) → W.is_ready first →
            Stood W.has_seen first watcher.old self.old fed →
            Ends (W.has_seen first watcher.new) result fed }
    {
        self.samples.clear();
        match self.reader.finish(&mut self.samples) {
            Ok(()) => {
                self.show(watcher)?;
                Ok(self.shown)
            }
            Err(VcdStop::Bad(fault)) => Err(DumpStop::Bad(fault)),
            Err(VcdStop::TooLong) => Err(DumpStop::TooLong),
            Err(VcdStop::Memory) => Err(DumpStop::Memory),
        }
    }

    // Shows the samples of the last piece, behind the marks.
    fn show<W: Watcher>(&mut self, watcher: &mut W) -> Result<(), Memory>
        requires { (first : W) × (before : Option Marks) × (h : List Sample) × W.is_ready first
            × CanShow W.has_seen first watcher.old self.old before h }
        ensures shown { OnOk result ((first : W) (before : Option Marks) (h : List Sample) →
            CanShow W.has_seen first watcher.old self.old before h →
            HasShown W.has_seen first watcher.new self.old self.new h) }
        ensures reader_stays { self.new.reader ≡ self.old.reader }
    {
        let marks = self.reader.marks();
        tell(watcher, self.told, marks)?;
        self.told = marks.is_some();
        show(watcher, marks, self.samples.as_slice())?;
        self.shown += self.samples.len() as u32;
        Ok(())
    }
}

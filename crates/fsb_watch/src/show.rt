//! The showing of samples to a watcher.
ghost use Rattle.std.specs.Prelude.{◌≡◌, ◌<◌, ◌+◌, ◌^◌, ◌++◌, List, [], Option, Some, None, false, is_some, length, OnOk};
ghost use Rattle.fsb_signal.specs.declared.marks.Marks.{Marks};
ghost use Rattle.fsb_signal.specs.declared.sample.Sample.{Sample};
ghost use Rattle.fsb_watch.specs.Watching.{IsShown, MarksStay};

use crate::watcher::Watcher;
use fsb_io::Memory;
use fsb_signal::{Marks, Sample};

/// Tells the watcher the marks, where they are told by now and it was not told before.
pub fn tell<W: Watcher>(watcher: &mut W, told: bool, marks: Option<Marks>) -> Result<(), Memory>
    requires { told ≡ false → W.is_ready watcher.old }
    ensures { OnOk result ((first : W) (before : Option Marks) (h : List Sample) →
        told ≡ is_some before →
        IsShown W.has_seen first watcher.old before h → MarksStay before marks →
        IsShown W.has_seen first watcher.new marks h) }
{
    if told {
        return Ok(());
    }
    match marks {
        Some(marks) => watcher.begin(marks),
        None => Ok(()),
    }
}

/// Shows the next samples, of which there are none before the marks.
pub fn show<W: Watcher>(
    watcher: &mut W,
    marks: Option<Marks>,
    samples: &[Sample],
) -> Result<(), Memory>
    requires { (first : W) × (h : List Sample) × IsShown W.has_seen first watcher.old marks h
        × (length h + length samples.now < 2 ^ 32) }
    ensures { OnOk result ((first : W) (h : List Sample) →
        IsShown W.has_seen first watcher.old marks h →
        (marks ≡ None → samples.now ≡ []) →
        IsShown W.has_seen first watcher.new marks (h ++ samples.now)) }
{
    match marks {
        Some(_) => show_each(watcher, samples),
        None => Ok(()),
    }
}

// Shows the next samples.
fn show_each<W: Watcher>(watcher: &mut W, samples: &[Sample]) -> Result<(), Memory>
    requires { (first : W) × (marks : Marks) × (h : List Sample)
        × W.has_seen first watcher.old marks h
        × (length h + length samples.now < 2 ^ 32) }
    ensures { OnOk result ((first : W) (marks : Marks) (h : List Sample) →
        W.has_seen first watcher.old marks h →
        W.has_seen first watcher.new marks (h ++ samples.now)) }
{
    for sample in samples {
        watcher.see(sample)?;
    }
    Ok(())
}

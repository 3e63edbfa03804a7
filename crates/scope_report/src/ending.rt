//! How a command of p6scope ends.

ghost use Rattle.std.specs.Prelude.{◌≡◌};
ghost use Rattle.scope_report.specs.Endings.{ending_after, status_of};

use scope_check::Verdict;

/// How a command of p6scope ends.
#[derive(Clone, Copy, Debug, PartialEq, Eq)]
pub enum Ending {
    /// At least one clock was judged, and no rule is broken; or a text was printed that was asked for.
    Clean,
    /// A rule is broken.
    Broken,
    /// The words of the command are wrong.
    BadWords,
    /// The file is no dump, or too long; or its lines are not found, or no clock could be judged.
    Unjudged,
    /// A file or standard output could not be read or written.
    Failed,
    /// Memory was lacking.
    NoMemory,
}

/// The exit status of the program.
pub fn status(ending: Ending) -> u8
    ensures { result ≡ status_of ending }
{
    match ending {
        Ending::Clean => 0,
        Ending::Broken => 1,
        Ending::BadWords => 2,
        Ending::Unjudged => 3,
        Ending::Failed => 4,
        Ending::NoMemory => 5,
    }
}

/// How a command ends that has judged a dump.
pub fn ending_of(verdict: &Verdict) -> Ending
    ensures { result ≡ ending_after verdict.now }
{
    match verdict {
        Verdict::Nothing => Ending::Unjudged,
        Verdict::Accepted => Ending::Clean,
        Verdict::Broken { .. } => Ending::Broken,
    }
}

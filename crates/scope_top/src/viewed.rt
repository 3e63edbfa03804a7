//! The answer of a check, and what became of the files that show what it found.

ghost use Rattle.std.specs.Prelude.{◌≡◌, IfOk, Ok};

use crate::answer::Answer;
use crate::formed::formed;
use crate::stop::ViewStop;
use scope_report::views_text;
use scope_words::{Format, Views};
use std::alloc::{AllocError, Global};

/// The answer of a check, and why a file that it names is not written, if one is not.
#[derive(Drop)]
pub(crate) struct Viewed {
    pub(crate) answer: Answer,
    pub(crate) shown: Result<(), ViewStop>,
}

/// An answer of a dump that is not judged: it tells of the files that the words name that they are not written.
pub(crate) fn unviewed(
    alloc: Global,
    name: &str,
    views: Views<'_>,
    answer: Answer,
) -> Result<Viewed, AllocError>
    ensures { IfOk result (λ v. (v.answer.ending ≡ answer.ending) × (v.shown ≡ Ok tt)) }
{
    viewed_as(alloc, name, views, false, answer, Ok(()))
}

/// An answer of a dump in which a rule is found broken, or none: a text for people tells of the files that they are there, or
/// not written. Where one could not be written, nothing more is told.
pub(crate) fn viewed_as(
    alloc: Global,
    name: &str,
    views: Views<'_>,
    is_broken: bool,
    answer: Answer,
    shown: Result<(), ViewStop>,
) -> Result<Viewed, AllocError>
    ensures { IfOk result (λ v. (v.answer.ending ≡ answer.ending) × (v.shown ≡ shown)) }
{
    let mut answer = formed(alloc, views.format, name, answer)?;
    if shown.is_ok() && views.format == Format::Text {
        let text = views_text(alloc, name, views.save, views.cut, is_broken)?;
        answer.text.extend_from_slice(&text)?;
    }
    Ok(Viewed { answer, shown })
}

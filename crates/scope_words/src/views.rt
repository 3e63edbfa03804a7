//! How an order has what was found shown: the form of the report, and the files that show the first broken rule.

ghost use Rattle.std.specs.Prelude.{IfOk, IfErr, IfSome};
ghost use Rattle.scope_words.specs.Orders.{IsError, IsName, KeepsViews};

use crate::order::{Format, TableForm, Views};
use crate::told::{Stop, wrong_value};
use crate::wires::named;
use clap::ArgMatches;
use std::alloc::Global;

/// The form and the files that the options name.
pub(crate) fn views_of<'a>(alloc: Global, found: &ArgMatches<'a>) -> Result<Views<'a>, Stop>
    ensures ok { IfOk result KeepsViews }
    ensures err { IfErr result IsError }
{
    Ok(Views {
        format: format_of(alloc, found)?,
        save: file_of(alloc, "--save", found.get_str("save"))?,
        cut: file_of(alloc, "--cut", found.get_str("cut"))?,
    })
}

fn format_of(alloc: Global, found: &ArgMatches<'_>) -> Result<Format, Stop>
    ensures err { IfErr result IsError }
{
    match found.get_str("format") {
        None => Ok(Format::Text),
        Some("text") => Ok(Format::Text),
        Some("json") => Ok(Format::Json),
        Some("csv") => Ok(Format::Csv),
        Some(word) => {
            Err(wrong_value(
                alloc,
                "--format",
                word,
                "there is no such form of a report",
                "text, json or csv may stand there",
            ))
        }
    }
}

/// The form of a table that the options name.
pub(crate) fn table_form_of(alloc: Global, found: &ArgMatches<'_>) -> Result<TableForm, Stop>
    ensures err { IfErr result IsError }
{
    match found.get_str("format") {
        None => Ok(TableForm::Text),
        Some("text") => Ok(TableForm::Text),
        Some("csv") => Ok(TableForm::Csv),
        Some(word) => {
            Err(wrong_value(
                alloc,
                "--format",
                word,
                "there is no such form of a table",
                "text or csv may stand there",
            ))
        }
    }
}

fn file_of<'a>(alloc: Global, option: &str, word: Option<&'a str>) -> Result<Option<&'a str>, Stop>
    ensures ok { IfOk result (λ o. IfSome o (λ w. IsName w.now)) }
    ensures err { IfErr result IsError }
{
    match word {
        None => Ok(None),
        Some(word) => Ok(Some(named(alloc, option, word)?)),
    }
}

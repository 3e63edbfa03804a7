//! What a dump declares.

use crate::refusal::put_cause;
use crate::scale::put_time;
use crate::scopes::Heading;
use crate::text::{put, put_bytes, put_count, put_scope};
use scope_pick::{Named, Variable};
use scope_time::{Scale, scale_of};
use scope_wiring::{Choice, Home, Picking, found_count, heads};
use std::alloc::{AllocError, Global};
use vcd_header::Section;

/// What a file declares of the bus: each scope with a variable that is named like a line, and how many of the needed lines
/// it has; of those with the most, the lines found and what lacks. The last line says what `check` takes of it where no
/// option is given, which is `picking`.
pub fn lines_text(
    alloc: Global,
    file: &str,
    variables: &[Variable],
    remarks: &[Section],
    choice: &Choice,
    picking: &Picking,
) -> Result<Vec<u8>, AllocError> {
    let heading = Heading::new(alloc, variables)?;
    let scale = scale_of(alloc, remarks)?;
    let mut text = Vec::new(alloc);
    put_bytes(&mut text, file.as_bytes())?;
    put(&mut text, ": ")?;
    put_count(&mut text, variables.len() as u64, "variable")?;
    put_step(&mut text, scale)?;
    put_scopes(&mut text, &heading)?;
    put(&mut text, "p6scope check ")?;
    put_bytes(&mut text, file.as_bytes())?;
    put_end(&mut text, &heading, choice, picking)?;
    put(&mut text, "\n")?;
    Ok(text)
}

// What a check takes.
fn put_end(
    text: &mut Vec<u8>,
    heading: &Heading<'_>,
    choice: &Choice,
    picking: &Picking,
) -> Result<(), AllocError> {
    match picking {
        Picking::Wired(wiring) => {
            put(text, ": judges ")?;
            put_home(text, heading.variables, wiring.home)
        }
        Picking::Refused(refusal) => {
            put(text, ": refused, since ")?;
            put_cause(text, heading, choice, refusal)
        }
    }
}

fn put_step(text: &mut Vec<u8>, scale: Option<Scale>) -> Result<(), AllocError> {
    match scale {
        None => put(text, ", no $timescale of 1, 10 or 100 s to fs\n"),
        Some(scale) => {
            put(text, ", time in steps of ")?;
            put_time(text, 1, Some(scale))?;
            put(text, "\n")
        }
    }
}

/// Appends the path of the scope that is judged.
pub(crate) fn put_home(
    text: &mut Vec<u8>,
    variables: &[Variable],
    home: Home,
) -> Result<(), AllocError> {
    match home {
        Home::At(scope) => put_scope(text, variables, scope),
        _ => put(text, "the named wires"),
    }
}

fn put_scopes(text: &mut Vec<u8>, heading: &Heading<'_>) -> Result<(), AllocError> {
    let scopes = heads(heading.alloc, &heading.names)?;
    if scopes.is_empty() {
        heading.put_all_near(text, &[])
    } else {
        put_each(text, heading, &scopes)
    }
}

fn put_each(text: &mut Vec<u8>, heading: &Heading<'_>, scopes: &[Named]) -> Result<(), AllocError> {
    let most = most_found(heading, scopes);
    for scope in scopes {
        heading.put_counts(text, scope.scope)?;
        put_whole(text, heading, scope.scope, most)?;
    }
    Ok(())
}

// The lines of a scope that has so many.
fn put_whole(
    text: &mut Vec<u8>,
    heading: &Heading<'_>,
    scope: usize,
    most: usize,
) -> Result<(), AllocError> {
    if found_count(heading.named_in(scope), &[], scope) < most {
        return Ok(());
    }
    heading.put_found(text, scope)?;
    heading.put_absent(text, scope)?;
    heading.put_gaps(text, &[], scope)
}

fn most_found(heading: &Heading<'_>, scopes: &[Named]) -> usize {
    let mut most = 0;
    for scope in scopes {
        most = most.max(found_count(heading.named_in(scope.scope), &[], scope.scope));
    }
    most
}

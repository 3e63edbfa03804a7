//! The files that show the first broken rule.

use crate::text::{put, put_bytes};
use std::alloc::{AllocError, Global};

/// How to look at the files that show what was found of a dump: a save file for a viewer, and a dump of the clocks around.
/// Where no rule was found broken, that they are not written.
pub fn views_text(
    alloc: Global,
    dump: &str,
    save: Option<&str>,
    cut: Option<&str>,
    is_broken: bool,
) -> Result<Vec<u8>, AllocError> {
    let mut text = Vec::new(alloc);
    if is_broken {
        put_shown(&mut text, dump, save)?;
        put_alone(&mut text, cut)?;
    } else {
        put_unwritten(&mut text, save)?;
        put_unwritten(&mut text, cut)?;
    }
    Ok(text)
}

fn put_shown(text: &mut Vec<u8>, dump: &str, save: Option<&str>) -> Result<(), AllocError> {
    match save {
        None => Ok(()),
        Some(save) => {
            put(text, "see it: gtkwave ")?;
            put_bytes(text, dump.as_bytes())?;
            put(text, " ")?;
            put_bytes(text, save.as_bytes())?;
            put(text, "\n")
        }
    }
}

fn put_alone(text: &mut Vec<u8>, cut: Option<&str>) -> Result<(), AllocError> {
    match cut {
        None => Ok(()),
        Some(cut) => {
            put(text, "the clocks around it: gtkwave ")?;
            put_bytes(text, cut.as_bytes())?;
            put(text, "\n")
        }
    }
}

fn put_unwritten(text: &mut Vec<u8>, file: Option<&str>) -> Result<(), AllocError> {
    match file {
        None => Ok(()),
        Some(file) => {
            put_bytes(text, file.as_bytes())?;
            put(text, ": not written, since no rule is found broken\n")
        }
    }
}

//! The whole text.

ghost use Rattle.std.specs.Prelude.{◌≡◌, ◌<◌, ◌++◌, IfOk, OnOk};
ghost use Rattle.std.specs.List.{list_any};
ghost use Rattle.fsb_signal.specs.DumpText.{texts_from};
ghost use Rattle.scope_save.specs.SaveText.{begin_text, dump_text, is_breaking, quoted_text, row_text, save_text, view_text, zoom_text};

use crate::mark::{Mark, begin_of, clock_of, doublings, marker_of};
use crate::row::put_row;
use crate::text::{put, put_number};
use scope_pick::Variable;
use scope_wiring::Wire;
use std::alloc::{AllocError, Global};

/// The text of a save file for a dump of this name: these wires of its variables, with the marker one unit before the edge.
#[tactic(auto, unfolding(crate::specs::SaveText::save_text))]
pub fn save_text(
    alloc: Global,
    name: &str,
    variables: &[Variable],
    wires: &[Wire],
    mark: Mark,
) -> Result<Vec<u8>, AllocError>
    ensures { IfOk result (λ v. v.items ≡ save_text name.now variables.now wires.now mark) }
{
    let mut text = Vec::new(alloc);
    put(
        &mut text,
        "[*] The bus as p6scope judged it: the marker stands on the sample of the broken clock\n",
    )?;
    put_dump(&mut text, name)?;
    put_view(
        &mut text,
        marker_of(mark),
        doublings(clock_of(mark).saturating_mul(2)),
    )?;
    put_rows(&mut text, alloc, variables, wires)?;
    Ok(text)
}

// The line that names the dump.
#[tactic(auto, unfolding(crate::specs::SaveText::dump_text))]
fn put_dump(text: &mut Vec<u8>, name: &str) -> Result<(), AllocError>
    ensures { OnOk result (text.new.items ≡ text.old.items ++ dump_text name.now) }
{
    if has_breaking(name.as_bytes()) {
        return Ok(());
    }
    put_quoted(text, name)
}

fn put_quoted(text: &mut Vec<u8>, name: &str) -> Result<(), AllocError>
    ensures { OnOk result (text.new.items ≡ text.old.items ++ quoted_text name.now) }
{
    put(text, "[dumpfile] \"")?;
    put(text, name)?;
    put(text, "\"\n")
}

fn has_breaking(name: &[u8]) -> bool
    ensures { result ≡ list_any is_breaking name.now }
{
    name.iter().any(|byte| is_breaking(*byte))
}

fn is_breaking(byte: u8) -> bool
    ensures { result ≡ is_breaking byte }
{
    byte < 32 || byte == 34 || byte == 127
}

// What is shown of the dump.
#[tactic(auto, unfolding(crate::specs::SaveText::view_text))]
fn put_view(text: &mut Vec<u8>, marker: u64, doublings: u32) -> Result<(), AllocError>
    requires { doublings < 64 }
    ensures { OnOk result (text.new.items ≡ text.old.items ++ view_text marker doublings) }
{
    put_begin(text, begin_of(marker, doublings))?;
    put_zoom(text, marker, doublings)?;
    put(
        text,
        "[sst_width] 0\n[signals_width] 260\n[sst_expanded] 0\n",
    )
}

fn put_begin(text: &mut Vec<u8>, begin: u64) -> Result<(), AllocError>
    ensures { OnOk result (text.new.items ≡ text.old.items ++ begin_text begin) }
{
    put(text, "[timestart] ")?;
    put_number(text, begin)?;
    put(text, "\n[size] 1400 800\n[pos] -1 -1\n")
}

fn put_zoom(text: &mut Vec<u8>, marker: u64, doublings: u32) -> Result<(), AllocError>
    ensures { OnOk result (text.new.items ≡ text.old.items ++ zoom_text marker doublings) }
{
    put(text, "*-")?;
    put_number(text, u64::from(doublings))?;
    put(text, ".000000 ")?;
    put_number(text, marker)?;
    put(text, "\n")
}

// The row of each line.
fn put_rows(
    text: &mut Vec<u8>,
    alloc: Global,
    variables: &[Variable],
    wires: &[Wire],
) -> Result<(), AllocError>
    ensures { OnOk result (text.new.items
        ≡ text.old.items ++ texts_from (row_text variables.now wires.now) 0 22) }
{
    for line in 0..22 {
        put_row(text, alloc, variables, wires, line)?;
    }
    Ok(())
}

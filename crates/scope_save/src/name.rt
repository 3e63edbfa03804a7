//! The name that GTKWave gives a variable.

ghost use Rattle.std.specs.Prelude.{◌≡◌, ◌++◌, OnOk};
ghost use Rattle.scope_save.specs.Names.{path_text, range_text, right_text, scope_text, span_text};

use crate::text::{put, put_number};
use scope_pick::{Range, Variable, Written};
use std::alloc::AllocError;

/// Appends the path of a variable with its range.
#[tactic(auto, unfolding(crate::specs::Names::path_text))]
pub(crate) fn put_path(text: &mut Vec<u8>, variable: &Variable) -> Result<(), AllocError>
    ensures { OnOk result (text.new.items ≡ text.old.items ++ path_text variable.now) }
{
    put_scope(text, &variable.scope)?;
    text.extend_from_slice(&variable.name)?;
    put_span(text, variable.range, variable.width)
}

#[tactic(auto, unfolding(crate::specs::Names::scope_text))]
fn put_scope(text: &mut Vec<u8>, scope: &[u8]) -> Result<(), AllocError>
    ensures { OnOk result (text.new.items ≡ text.old.items ++ scope_text scope.now) }
{
    if scope.len() == 0 {
        Ok(())
    } else {
        text.extend_from_slice(scope)?;
        put(text, ".")
    }
}

// The range of a variable of this width. A word without one is counted from its last bit up.
#[tactic(auto, unfolding(crate::specs::Names::span_text))]
fn put_span(text: &mut Vec<u8>, written: Written, width: u32) -> Result<(), AllocError>
    ensures { OnOk result (text.new.items ≡ text.old.items ++ span_text written width) }
{
    match written {
        Written::Numbers(range) => put_range(text, range),
        Written::Unreadable => Ok(()),
        Written::Absent => {
            if 1 < width {
                put(text, "[")?;
                put_number(text, u64::from(width - 1))?;
                put(text, ":0]")
            } else {
                Ok(())
            }
        }
    }
}

fn put_range(text: &mut Vec<u8>, range: Range) -> Result<(), AllocError>
    ensures { OnOk result (text.new.items ≡ text.old.items ++ range_text range) }
{
    put(text, "[")?;
    put_number(text, u64::from(range.left))?;
    put_right(text, range)?;
    put(text, "]")
}

fn put_right(text: &mut Vec<u8>, range: Range) -> Result<(), AllocError>
    ensures { OnOk result (text.new.items ≡ text.old.items ++ right_text range) }
{
    if range.left == range.right {
        Ok(())
    } else {
        put(text, ":")?;
        put_number(text, u64::from(range.right))
    }
}

//! Lines of the bus by their names, with commas between.

ghost use Rattle.std.specs.Prelude.{◌≡◌, IfOk, IfSome, option_map};
ghost use Rattle.scope_words.specs.Names.{Lines, lines_in};

use scope_pick::line_named;
use std::alloc::{AllocError, Global};

/// The lines that a word names, as `ADS_n,REQ_n`, by their numbers; `None` where one of the names is none of a line.
pub fn read_line_names(alloc: Global, word: &[u8]) -> Result<Option<Vec<u8>>, AllocError>
    ensures named { IfOk result (λ o. option_map (λ v. v.items) o ≡ lines_in word.now) }
    ensures lines { IfOk result (λ o. IfSome o (λ v. Lines v.items)) }
{
    let mut lines = Vec::new(alloc);
    let mut name = Vec::new(alloc);
    for byte in word {
        if *byte == 44 {
            match line_named(&name) {
                None => return Ok(None),
                Some(line) => lines.push(line)?,
            }
            name.clear();
        } else {
            name.push(*byte)?;
        }
    }
    match line_named(&name) {
        None => Ok(None),
        Some(line) => {
            lines.push(line)?;
            Ok(Some(lines))
        }
    }
}

//! The lines of the printed log.
ghost use Rattle.std.specs.Prelude.{◌≡◌, ◌≤◌, ◌+◌, ◌++◌};
ghost use Rattle.arrayvec.specs.ArrayVec.{array_vec_len};
ghost use Rattle.fsb_report.specs.LogText.{log_line_text, logged_access_text, end_line_text};

use arrayvec::ArrayVec;
use fsb_access::{Access, Done};
use fsb_io::{Line, put_decimal, put_hex, put_text};

/// The line of a completed access, with its line feed: `<clock> <agent> <item> ld|st <size> <addr> = <value>`.
/// Address and value are hexadecimal, all other numbers decimal. It takes no memory.
#[tactic(auto, unfolding(crate::specs::LogText::log_line_text))]
pub fn log_line(done: &Done) -> Line
    ensures { result.items ≡ log_line_text done.now }
{
    let mut line = ArrayVec::new();
    put_decimal(&mut line, u64::from(done.clock));
    put_text(&mut line, " ");
    put_decimal(&mut line, u64::from(done.agent));
    put_text(&mut line, " ");
    put_decimal(&mut line, u64::from(done.item));
    put_access(&mut line, &done.access);
    put_text(&mut line, " = ");
    put_hex(&mut line, done.value);
    put_text(&mut line, "\n");
    line
}

// Appends what the access does: the word, its size and its address.
#[tactic(auto, unfolding(crate::specs::LogText::logged_access_text))]
fn put_access(line: &mut Line, access: &Access)
    requires { array_vec_len line.old + 50 ≤ 256 }
    ensures items { line.new.items ≡ line.old.items ++ logged_access_text access.now }
    ensures len { array_vec_len line.new ≤ array_vec_len line.old + 50 }
{
    let (word, size, addr) = match access {
        Access::Load { size, addr } => (" ld ", *size, *addr),
        Access::Store { size, addr, .. } => (" st ", *size, *addr),
    };
    put_text(line, word);
    put_decimal(line, u64::from(size));
    put_text(line, " ");
    put_hex(line, addr);
}

/// The last line, with its line feed: `end clocks=<clocks> done=<done> of=<of>`. It takes no memory.
#[tactic(auto, unfolding(crate::specs::LogText::end_line_text))]
pub fn end_line(clocks: u32, done: u32, of: u32) -> Line
    ensures { result.items ≡ end_line_text clocks done of }
{
    let mut line = ArrayVec::new();
    put_text(&mut line, "end clocks=");
    put_decimal(&mut line, u64::from(clocks));
    put_text(&mut line, " done=");
    put_decimal(&mut line, u64::from(done));
    put_text(&mut line, " of=");
    put_decimal(&mut line, u64::from(of));
    put_text(&mut line, "\n");
    line
}

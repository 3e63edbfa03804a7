ghost use Rattle.std.specs.Prelude.{◌≡◌, ◌<◌, ◌≤◌, length};
ghost use Rattle.fsb_script.specs.Bounds.{is_cache, names_line, line_count, is_apart, is_apart_from_all, is_lock_size, is_lock_apart};

use fsb_access::Access;

/// The most items of a script, and the most hazard lines.
pub(crate) const ITEMS: usize = 4_096;

/// Whether a cache may have so many lines.
pub(crate) fn is_cache(lines: u64) -> bool
    ensures { result ≡ is_cache lines }
{
    matches!(lines, 1 | 2 | 4 | 8 | 16 | 32 | 64 | 128 | 256 | 512 | 1024)
}

#[tactic(auto, unfolding(crate::specs::Bounds::names_line))]
fn names_line(line: u64, accesses: &[Access]) -> bool
    ensures { result ≡ names_line line accesses.now }
{
    accesses.iter().any(|other| other.line() == line)
}

/// How many different lines the accesses have, of which there are few.
fn line_count(accesses: &[Access]) -> usize
    requires { length accesses.now ≤ 8 }
    ensures value { result ≡ line_count accesses.now }
    ensures few { result ≤ length accesses.now }
{
    match accesses {
        [] => 0,
        [access, others @ ..] => {
            let count = line_count(others);
            if names_line(access.line(), others) {
                count
            } else {
                1 + count
            }
        }
    }
}

/// Whether a locked item may have these accesses, as far as their number goes.
#[tactic(auto, unfolding(crate::specs::Bounds::is_lock_size))]
pub(crate) fn is_lock_size(accesses: &[Access]) -> bool
    ensures { result ≡ is_lock_size accesses.now }
{
    1 <= accesses.len() && accesses.len() <= 8 && line_count(accesses) <= 4
}

/// Whether no two different lines of the accesses have one cache set.
#[tactic(auto, unfolding(crate::specs::Bounds::is_lock_apart))]
pub(crate) fn is_lock_apart(cache: u32, accesses: &[Access]) -> bool
    requires { 0 < cache }
    ensures { result ≡ is_lock_apart cache accesses.now }
{
    accesses
        .iter()
        .all(|access| is_apart_from_all(cache, access.line(), accesses))
}

fn is_apart_from_all(cache: u32, line: u64, accesses: &[Access]) -> bool
    requires { 0 < cache }
    ensures { result ≡ is_apart_from_all cache line accesses.now }
{
    accesses
        .iter()
        .all(|other| is_apart(cache, line, other.line()))
}

fn is_apart(cache: u32, line: u64, other: u64) -> bool
    requires { 0 < cache }
    ensures { result ≡ is_apart cache line other }
{
    line == other || line % cache as u64 != other % cache as u64
}

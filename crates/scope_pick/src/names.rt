ghost use Rattle.std.specs.Prelude.{◌≡◌, ◌≤◌, ◌<◌, ◌-◌, ℕ, codes, length, IsTrue, IfSome, position};
ghost use Rattle.scope_pick.specs.Names.{without_escape, are_same_letters, ends_with_letters, low_mark, stem, has_low_mark, are_alike, line_named, is_exact_name};

use fsb_signal::{SIGNALS, Signal, signal_at};

/// The line of the bus that a variable's name stands for, by its number in the table.
pub fn line_named(name: &[u8]) -> Option<u8>
    ensures number { result ≡ line_named name.now }
    ensures line { IfSome result (λ n. n < 22) }
{
    let number = place_of(&SIGNALS, without_escape(name))?;
    Some(number as u8)
}

/// Whether the name is the very name of the line, escaped or not.
pub fn is_exact_name(line: u8, name: &[u8]) -> bool
    requires { line < 22 }
    ensures { result ≡ is_exact_name line name.now }
{
    without_escape(name) == signal_at(line).name.as_bytes()
}

// The place of the first of the signals whose name is like this one.
fn place_of(signals: &[Signal], name: &[u8]) -> Option<usize>
    ensures { result ≡ position (λ s. are_alike name.now s.name.now) signals.now }
{
    signals
        .iter()
        .position(|signal| are_alike(name, signal.name.as_bytes()))
}

/// The name without a backslash before it and one after it.
#[tactic(auto, unfolding(crate::specs::Names::without_escape))]
pub fn without_escape(name: &[u8]) -> &[u8]
    ensures { result.now ≡ without_escape name.now }
{
    let front = name.strip_prefix(b"\\").unwrap_or(name);
    front.strip_suffix(b"\\").unwrap_or(front)
}

#[tactic(auto, unfolding(crate::specs::Names::are_alike))]
fn are_alike(one: &[u8], other: &[u8]) -> bool
    ensures { result ≡ are_alike one.now other.now }
{
    let letters = are_same_letters(stem(one), stem(other));
    letters && has_low_mark(one) == has_low_mark(other)
}

#[tactic(auto, unfolding(crate::specs::Names::stem))]
fn stem(name: &[u8]) -> &[u8]
    ensures { result.now ≡ stem name.now }
{
    &name[..name.len() - low_mark(name)]
}

#[tactic(auto, unfolding(crate::specs::Names::has_low_mark))]
fn has_low_mark(name: &[u8]) -> bool
    ensures { result ≡ has_low_mark name.now }
{
    low_mark(name) != 0
}

#[tactic(auto, unfolding(crate::specs::Names::low_mark))]
fn low_mark(name: &[u8]) -> usize
    ensures mark { result ≡ low_mark name.now }
    ensures within { result ≤ length name.now }
{
    if name.ends_with(b"#") {
        return 1;
    }
    if ends_with_letters(name, b"_n")
        || ends_with_letters(name, b"_l")
        || ends_with_letters(name, b"_b")
    {
        return 2;
    }
    0
}

#[tactic(auto, unfolding(crate::specs::Names::ends_with_letters))]
fn ends_with_letters(text: &[u8], letters: &[u8]) -> bool
    ensures value { result ≡ ends_with_letters text.now letters.now }
    ensures room { IsTrue result → length letters.now ≤ length text.now }
{
    if text.len() < letters.len() {
        return false;
    }
    are_same_letters(&text[text.len() - letters.len()..], letters)
}

#[tactic(auto, unfolding(crate::specs::Names::are_same_letters))]
fn are_same_letters(one: &[u8], other: &[u8]) -> bool
    ensures { result ≡ are_same_letters one.now other.now }
{
    one.eq_ignore_ascii_case(other)
}

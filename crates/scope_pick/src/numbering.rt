ghost use Rattle.std.specs.Prelude.{◌≡◌, nat_eq};
ghost use Rattle.std.specs.List.{list_any};
ghost use Rattle.std.specs.Cmp.Lexicographic.{pointwise};
ghost use Rattle.scope_pick.specs.Numbering.{is_same_wire, is_wire_kind};

use crate::variable::Variable;

const OTHER_KINDS: [&str; 7] = [
    "real",
    "realtime",
    "shortreal",
    "string",
    "event",
    "parameter",
    "real_parameter",
];

/// Whether the two have one code.
#[tactic(auto, unfolding(crate::specs::Numbering::is_same_wire))]
pub fn is_same_wire(one: &Variable, other: &Variable) -> bool
    ensures { result ≡ is_same_wire one.now other.now }
{
    one.code == other.code
}

/// Whether variables of the type may be lines.
#[tactic(auto, unfolding(crate::specs::Numbering::is_wire_kind))]
pub fn is_wire_kind(kind: &[u8]) -> bool
    ensures { result ≡ is_wire_kind kind.now }
{
    !is_one_of(&OTHER_KINDS, kind)
}

fn is_one_of(words: &[&str], word: &[u8]) -> bool
    ensures { result ≡ list_any (λ k. pointwise nat_eq word.now k.now) words.now }
{
    words.iter().any(|other| word == other.as_bytes())
}

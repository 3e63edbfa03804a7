ghost use Rattle.std.specs.Prelude.{◌≡◌, is_some};
ghost use Rattle.rule_texts.specs.Rules.{is_rule};

use crate::ownership::{OWNERSHIP_TEXTS, OWNERSHIP_TITLES};
use crate::phase::{PHASE_TEXTS, PHASE_TITLES};

/// The title of a rule; `None` exactly where there is no such rule.
#[tactic(auto, unfolding(crate::specs::Rules::is_rule))]
pub fn title(rule: u8) -> Option<&'static str>
    ensures { is_some result ≡ is_rule rule }
{
    if 1 <= rule && rule <= 20 {
        Some(PHASE_TITLES[usize::from(rule) - 1])
    } else if 21 <= rule && rule <= 31 {
        Some(OWNERSHIP_TITLES[usize::from(rule) - 21])
    } else {
        None
    }
}

/// What a rule asks, why, and what is mostly wrong where it is broken, with its number and its title before it; `None`
/// exactly where there is no such rule.
#[tactic(auto, unfolding(crate::specs::Rules::is_rule))]
pub fn text(rule: u8) -> Option<&'static str>
    ensures { is_some result ≡ is_rule rule }
{
    if 1 <= rule && rule <= 20 {
        Some(PHASE_TEXTS[usize::from(rule) - 1])
    } else if 21 <= rule && rule <= 31 {
        Some(OWNERSHIP_TEXTS[usize::from(rule) - 21])
    } else {
        None
    }
}

//! The joint states by their numbers, 0 to 23. Numbers 0 to 15 are the sharings: bit a says whether agent a holds the line
//! Shared. 16 + a is Exclusive at agent a, and 20 + a Modified.

ghost use Rattle.std.specs.Prelude.{◌≡◌, ◌<◌};
ghost use Rattle.fsb_owners.specs.Joint.{has_other_holder, has_other_owner, state_at};
ghost use Rattle.fsb_joint.specs.Sets.{joint_at};

use fsb_line::Mesi;

/// The state that the agent has.
#[tactic(auto, using(crate::proofs::Numbers::numbers))]
pub fn state_of(number: u8, agent: u8) -> Mesi
    requires number { number < 24 }
    requires agent { agent < 4 }
    ensures { result ≡ state_at (joint_at number) agent }
{
    if number < 16 {
        if (number >> agent) % 2 == 1 {
            Mesi::Shared
        } else {
            Mesi::Invalid
        }
    } else if number % 4 != agent {
        Mesi::Invalid
    } else if number < 20 {
        Mesi::Exclusive
    } else {
        Mesi::Modified
    }
}

/// Whether another agent has the line Modified.
#[tactic(auto, using(crate::proofs::Numbers::numbers))]
pub fn has_other_owner(number: u8, agent: u8) -> bool
    requires number { number < 24 }
    requires agent { agent < 4 }
    ensures { result ≡ has_other_owner agent (joint_at number) }
{
    20 <= number && number % 4 != agent
}

/// Whether another agent holds the line.
#[tactic(auto, using(crate::proofs::Numbers::numbers))]
pub fn has_other_holder(number: u8, agent: u8) -> bool
    requires number { number < 24 }
    requires agent { agent < 4 }
    ensures { result ≡ has_other_holder agent (joint_at number) }
{
    if number < 16 {
        number != 0 && number != 1 << agent
    } else {
        number % 4 != agent
    }
}

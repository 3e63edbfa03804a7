//! A set of joint states.

ghost use Rattle.std.specs.Prelude.{◌≡◌, ◌<◌, ◌∷◌, [], ◌&&◌, ◌||◌, ℕ, Bool, Some, map, nat_eq};
ghost use Rattle.std.specs.List.{filter, list_all};
ghost use Rattle.fsb_count.specs.Clocks.{any_where};
ghost use Rattle.fsb_owners.specs.Joint.{agents, every_joint, has_other_owner, is_after_drops, is_after_snoop_end, is_after_stores, reached_by, unheld};
ghost use Rattle.fsb_owners.specs.Possible.{asking, replied_to, settled_at_end, showing};
ghost use Rattle.fsb_owners.specs.Rules.{is_none_left};
ghost use Rattle.fsb_joint.specs.Sets.{has_bit, joint_at, joints_of};
ghost use Rattle.fsb_joint.specs.Steps.{IsInRange, IsOfAgents, leads, passes};

use crate::steps::{End, Step, Test};
use fsb_line::{Purpose, Settled};

/// How many joint states there are.
const COUNT: u8 = 24;

/// A mask with all of them.
const EVERY: u32 = (1 << COUNT) - 1;

/// A set of the joint states that a line may have, in four bytes.
#[derive(Clone, Copy, Debug, PartialEq, Eq)]
pub struct JointSet {
    mask: u32,
}

impl JointSet {
    /// The line is held by nobody.
    #[tactic(auto, using(crate::proofs::SetLaws::unheld_joints))]
    pub fn unheld() -> JointSet
        ensures { joints_of result ≡ unheld ∷ [] }
    {
        JointSet { mask: 1 }
    }

    /// Nothing is known of the line.
    #[tactic(auto, using(crate::proofs::SetLaws::every_joints))]
    pub fn every() -> JointSet
        ensures { joints_of result ≡ every_joint }
    {
        JointSet { mask: EVERY }
    }

    /// Whether no joint state is left.
    pub fn is_empty(self) -> bool
        ensures { result ≡ is_none_left (joints_of self) }
    {
        for number in 0..COUNT {
            if self.has(number) {
                return false;
            }
        }
        true
    }

    /// What is left where the agent, 0 to 3, asks so.
    #[tactic(auto, unfolding(fsb_owners::specs::Possible::asking, crate::specs::Steps::passes))]
    pub fn asking(self, agent: u8, kind: Purpose) -> JointSet
        requires { agent < 4 }
        ensures { joints_of result ≡ asking (Some agent) (Some kind) (joints_of self) }
    {
        self.kept(Test::Asks(agent, kind))
    }

    /// What is left where a request of the agent, 0 to 3, has its snoop end with these lines.
    #[tactic(auto, unfolding(fsb_owners::specs::Possible::showing, crate::specs::Steps::passes, fsb_owners::specs::Possible::may_ask))]
    pub fn showing(self, hit: bool, hitm: bool, asker: u8, kind: Purpose) -> JointSet
        requires { asker < 4 }
        ensures { joints_of result ≡ showing hit hitm asker kind (joints_of self) }
    {
        match kind {
            Purpose::WriteBack => self.kept(Test::Asks(asker, kind)),
            _ => self.kept(Test::Answers(hit, hitm, asker)),
        }
    }

    /// What the snoop end of a request of the agent, 0 to 3, makes of these. `turned` says that it is to be made again or
    /// to be answered later.
    #[tactic(auto, unfolding(crate::specs::Steps::leads))]
    pub fn snooped(self, hit: bool, hitm: bool, turned: bool, asker: u8, kind: Purpose) -> JointSet
        requires { asker < 4 }
        ensures { joints_of result
            ≡ reached_by (is_after_snoop_end asker kind (settled_at_end hitm turned kind) hit)
            (joints_of self) }
    {
        let settled = settled_at_end(hitm, turned, kind);
        self.reached(Step::Ends(End {
            asker,
            kind,
            settled,
            shared: hit,
        }))
    }

    /// What the reply to a request of the agent, 0 to 3, makes of these.
    #[tactic(auto, unfolding(fsb_owners::specs::Possible::replied_to, crate::specs::Steps::leads))]
    pub fn replied(self, hit: bool, asker: u8, kind: Purpose) -> JointSet
        requires { asker < 4 }
        ensures { joints_of result ≡ replied_to asker kind hit (joints_of self) }
    {
        self.reached(Step::Ends(End {
            asker,
            kind,
            settled: Settled::Replied,
            shared: hit,
        }))
    }

    /// What at most one store makes of these, by an agent that is ready.
    pub fn stored(self, ready: [bool; 4]) -> JointSet
        ensures { (is_ready : ℕ → Bool) → ready ≡ map is_ready agents →
            joints_of result ≡ reached_by (is_after_stores is_ready) (joints_of self) }
    {
        self.reached(Step::Stores(ready))
    }

    /// What drops of clean copies make of these, by agents that may drop.
    pub fn dropped(self, may_drop: [bool; 4]) -> JointSet
        ensures { (may : ℕ → Bool) → may_drop ≡ map may agents →
            joints_of result ≡ reached_by (is_after_drops may) (joints_of self) }
    {
        self.reached(Step::Drops(may_drop))
    }

    /// Whether another agent has the line Modified in each of these.
    pub fn is_owned_elsewhere(self, agent: u8) -> bool
        requires { agent < 4 }
        ensures { result ≡ list_all (has_other_owner agent) (joints_of self) }
    {
        self.kept(Test::Unowned(agent)).is_empty()
    }

    /// Whether the set has the joint state with this number.
    #[tactic(auto, unfolding(crate::specs::Sets::has_bit))]
    fn has(self, number: u8) -> bool
        requires { number < 24 }
        ensures { result ≡ has_bit self.mask number }
    {
        (self.mask >> number) % 2 == 1
    }

    /// The joint states that pass.
    fn kept(self, test: Test) -> JointSet
        requires { IsInRange test }
        ensures bits { (n : ℕ) → n < 24 →
            has_bit result.mask n ≡ (has_bit self.mask n && passes test (joint_at n)) }
        ensures joints { joints_of result ≡ filter (passes test) (joints_of self) }
    {
        let mut mask = 0;
        for number in 0..COUNT {
            if self.has(number) && test.passes(number) {
                mask |= 1 << number;
            }
        }
        JointSet { mask }
    }

    /// The joint states to which the step leads from these.
    fn reached(self, step: Step) -> JointSet
        requires { IsOfAgents step }
        ensures { joints_of result ≡ reached_by (leads step) (joints_of self) }
    {
        let mut mask = 0;
        for from in 0..COUNT {
            if self.has(from) {
                mask |= row(step, from).mask;
            }
        }
        JointSet { mask }
    }
}

/// The joint states to which the step leads from the one with this number.
#[tactic(auto, using(crate::proofs::SetLaws::every_bits), unfolding(crate::specs::Steps::passes))]
fn row(step: Step, from: u8) -> JointSet
    requires agents { IsOfAgents step }
    requires from { from < 24 }
    ensures { (m : ℕ) → m < 24 → has_bit result.mask m ≡ leads step (joint_at from) (joint_at m) }
{
    JointSet { mask: EVERY }.kept(Test::Reached(step, from))
}

/// How a request is settled, as its snoop end shows.
#[tactic(auto, unfolding(fsb_owners::specs::Possible::settled_at_end))]
fn settled_at_end(hitm: bool, turned: bool, kind: Purpose) -> Settled
    ensures { result ≡ settled_at_end hitm turned kind }
{
    match kind {
        _ if hitm => Settled::Handed,
        Purpose::WriteBack => Settled::Written,
        _ if turned => Settled::Retried,
        Purpose::Read | Purpose::Own => Settled::Granted,
        Purpose::Upgrade => Settled::Upgraded,
    }
}

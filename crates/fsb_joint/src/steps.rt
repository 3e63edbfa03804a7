//! What a set is filtered by, and what turns one joint state into another.

ghost use Rattle.std.specs.Prelude.{◌≡◌, ◌<◌, ◌+◌, ◌&&◌, nat_eq};
ghost use Rattle.fsb_line.specs.States.{after_own, is_modified, state_after};
ghost use Rattle.fsb_owners.specs.Joint.{is_kept_or_dropped, is_same_state};
ghost use Rattle.fsb_owners.specs.Possible.{fits_answer, may_ask};
ghost use Rattle.fsb_joint.specs.Sets.{joint_at};
ghost use Rattle.fsb_joint.specs.Steps.{IsInRange, IsOfAgents, leads, passes};

use crate::states::{has_other_holder, has_other_owner, state_of};
use fsb_line::{Mesi, Purpose, Settled};

/// A snoop end, as the agents take it.
#[derive(Clone, Copy)]
pub struct End {
    /// The agent whose request is snooped or answered.
    pub asker: u8,
    /// What it asked for.
    pub kind: Purpose,
    /// How it is settled.
    pub settled: Settled,
    /// Whether the asker is told that another agent holds the line.
    pub shared: bool,
}

/// What turns joint states into others.
#[derive(Clone, Copy)]
pub enum Step {
    /// A snoop end.
    Ends(End),
    /// At most one store, by an agent that may store into an Exclusive copy.
    Stores([bool; 4]),
    /// Drops of clean copies, by agents that may drop one.
    Drops([bool; 4]),
}

/// What keeps a joint state in a set.
#[derive(Clone, Copy)]
pub enum Test {
    /// The agent may ask so.
    Asks(u8, Purpose),
    /// HIT# and HITM# are right for a request of the agent.
    Answers(bool, bool, u8),
    /// No other agent has the line Modified.
    Unowned(u8),
    /// The step leads there from the joint state with this number.
    Reached(Step, u8),
}

/// Whether an agent with this state may ask so.
#[tactic(auto, unfolding(fsb_owners::specs::Possible::may_ask))]
fn may_ask(kind: Purpose, state: Mesi) -> bool
    ensures { result ≡ may_ask kind state }
{
    match kind {
        Purpose::Read => !state.is_held(),
        Purpose::Own => !state.is_sole(),
        Purpose::Upgrade => state == Mesi::Shared,
        Purpose::WriteBack => state == Mesi::Modified,
    }
}

/// Whether HIT# and HITM# are right for a request of the agent.
#[tactic(auto, unfolding(fsb_owners::specs::Possible::fits_answer))]
fn fits_answer(hit: bool, hitm: bool, asker: u8, number: u8) -> bool
    requires number { number < 24 }
    requires asker { asker < 4 }
    ensures { result ≡ fits_answer hit hitm asker (joint_at number) }
{
    if has_other_owner(number, asker) {
        hitm && !hit
    } else if has_other_holder(number, asker) {
        hit && !hitm
    } else {
        !hit && !hitm
    }
}

/// The state of the asker after the snoop end.
fn own_after(state: Mesi, end: End) -> Mesi
    ensures { result ≡ after_own state end.kind end.settled end.shared }
{
    match end.settled {
        Settled::Granted | Settled::Replied => Mesi::granted(end.kind, end.shared),
        Settled::Handed => Mesi::granted(end.kind, true),
        Settled::Upgraded if state.is_held() => Mesi::Modified,
        Settled::Retried | Settled::Deferred => state,
        Settled::Upgraded | Settled::Written => Mesi::Invalid,
    }
}

/// The state of an agent after the snoop end.
fn state_after(state: Mesi, is_asker: bool, end: End) -> Mesi
    ensures { result ≡ state_after state is_asker end.kind end.settled end.shared }
{
    if is_asker {
        own_after(state, end)
    } else if end.settled == Settled::Replied {
        state
    } else {
        state.after_snoop(end.kind)
    }
}

/// Whether the two states are the same.
#[tactic(auto, unfolding(fsb_owners::specs::Joint::is_same_state))]
fn is_same_state(one: Mesi, other: Mesi) -> bool
    ensures { result ≡ is_same_state one other }
{
    match one {
        Mesi::Invalid => !other.is_held(),
        Mesi::Shared => other.is_held() && !other.is_sole(),
        Mesi::Exclusive => other.is_sole() && !is_modified(other),
        Mesi::Modified => is_modified(other),
    }
}

/// Whether the agent has the line Modified.
fn is_modified(state: Mesi) -> bool
    ensures { result ≡ is_modified state }
{
    matches!(state, Mesi::Modified)
}

/// Whether the agent has the second state after the snoop end where it had the first before.
fn is_settled_so(agent: u8, from: Mesi, to: Mesi, end: End) -> bool
    ensures { result ≡ is_same_state to
        (state_after from (nat_eq agent end.asker) end.kind end.settled end.shared) }
{
    is_same_state(to, state_after(from, agent == end.asker, end))
}

/// Whether the agent has kept its state, or dropped a clean copy where it may.
#[tactic(auto, unfolding(fsb_owners::specs::Joint::is_kept_or_dropped))]
fn is_kept_or_dropped(may_drop: bool, from: Mesi, to: Mesi) -> bool
    ensures { result ≡ is_kept_or_dropped may_drop from to }
{
    is_same_state(from, to) || (may_drop && !is_modified(from) && is_same_state(Mesi::Invalid, to))
}

/// Whether the agent, where it is ready, has stored into its Exclusive copy: the numbers of the two joint states say so.
fn is_stored_by(ready: bool, agent: u8, from: u8, to: u8) -> bool
    requires { agent < 4 }
    ensures { result ≡ (ready && nat_eq from (16 + agent) && nat_eq to (20 + agent)) }
{
    ready && from == 16 + agent && to == 20 + agent
}

/// Whether the snoop end turns the first joint state into the second.
#[tactic(auto, using(crate::proofs::Joints::ends))]
fn ends_so(end: End, from: u8, to: u8) -> bool
    requires asker { end.asker < 4 }
    requires from { from < 24 }
    requires to { to < 24 }
    ensures { result ≡ leads (Step.Ends end) (joint_at from) (joint_at to) }
{
    is_settled_so(0, state_of(from, 0), state_of(to, 0), end)
        && is_settled_so(1, state_of(from, 1), state_of(to, 1), end)
        && is_settled_so(2, state_of(from, 2), state_of(to, 2), end)
        && is_settled_so(3, state_of(from, 3), state_of(to, 3), end)
}

/// Whether the second joint state is the first, but for one store by an agent that is ready.
#[tactic(auto, using(crate::proofs::Joints::stores))]
fn stores_so(ready: [bool; 4], from: u8, to: u8) -> bool
    requires from { from < 24 }
    requires to { to < 24 }
    ensures { result ≡ leads (Step.Stores ready) (joint_at from) (joint_at to) }
{
    from == to
        || is_stored_by(ready[0], 0, from, to)
        || is_stored_by(ready[1], 1, from, to)
        || is_stored_by(ready[2], 2, from, to)
        || is_stored_by(ready[3], 3, from, to)
}

/// Whether the second joint state is the first, but for drops by agents that may drop.
#[tactic(auto, using(crate::proofs::Joints::drops))]
fn drops_so(may_drop: [bool; 4], from: u8, to: u8) -> bool
    requires from { from < 24 }
    requires to { to < 24 }
    ensures { result ≡ leads (Step.Drops may_drop) (joint_at from) (joint_at to) }
{
    is_kept_or_dropped(may_drop[0], state_of(from, 0), state_of(to, 0))
        && is_kept_or_dropped(may_drop[1], state_of(from, 1), state_of(to, 1))
        && is_kept_or_dropped(may_drop[2], state_of(from, 2), state_of(to, 2))
        && is_kept_or_dropped(may_drop[3], state_of(from, 3), state_of(to, 3))
}

impl Step {
    /// Whether the step turns the first joint state into the second.
    fn leads(self, from: u8, to: u8) -> bool
        requires agents { IsOfAgents self }
        requires from { from < 24 }
        requires to { to < 24 }
        ensures { result ≡ leads self (joint_at from) (joint_at to) }
    {
        match self {
            Step::Ends(end) => ends_so(end, from, to),
            Step::Stores(ready) => stores_so(ready, from, to),
            Step::Drops(may_drop) => drops_so(may_drop, from, to),
        }
    }
}

impl Test {
    /// Whether the joint state passes.
    #[tactic(auto, unfolding(crate::specs::Steps::passes))]
    pub fn passes(self, number: u8) -> bool
        requires range { IsInRange self }
        requires number { number < 24 }
        ensures { result ≡ passes self (joint_at number) }
    {
        match self {
            Test::Asks(agent, kind) => may_ask(kind, state_of(number, agent)),
            Test::Answers(hit, hitm, asker) => fits_answer(hit, hitm, asker, number),
            Test::Unowned(agent) => !has_other_owner(number, agent),
            Test::Reached(step, from) => step.leads(from, number),
        }
    }
}

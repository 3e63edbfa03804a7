ghost use Rattle.std.specs.Prelude.{◌≡◌, ◌+◌, ◌≤◌, ◌<◌, ◌++◌, IfSome, length, true};
ghost use Rattle.std.specs.List.{list_all};
ghost use Rattle.fsb_access.specs.Access.{accessed_line};
ghost use Rattle.fsb_timely.specs.Scripts.{needs_of};
ghost use Rattle.fsb_agent_view.specs.AgentViews.{is_ready_for, is_served_by, next_item_by};
ghost use Rattle.fsb_agent_view.specs.Completing.{completed_by, completed_entries, is_hit_by, performed, performed_entries};
ghost use Rattle.fsb_agent_view.specs.Sound.{IsSound};
ghost use Rattle.fsb_agent.specs.Outlooks.{is_next_served};
ghost use Rattle.fsb_agent.specs.Parts.{IsPerformable, parts_view};

use crate::hand::Doing;
use crate::idling::idle_in_front;
use crate::need::is_load;
use crate::parts::Parts;
use fsb_access::{Access, Item, Log};
use fsb_agent_view::Finished;

impl Parts {
    /// Whether each line of the item serves.
    #[tactic(auto, using(crate::proofs::Needs::served_one, crate::proofs::Needs::served_group, crate::proofs::Needs::served_idle))]
    fn serves(&self, item: &Item) -> bool
        ensures { result ≡ list_all (is_served_by (parts_view self.now)) (needs_of item.now) }
    {
        match item {
            Item::One(access) => self.is_ready_for(access.line(), !is_load(access)),
            Item::Locked(group) => self.serves_alone(group.as_slice()),
            Item::Idle(_) => true,
        }
    }

    /// Whether each line of the accesses serves by itself.
    fn serves_alone(&self, accesses: &[Access]) -> bool
        ensures { result ≡ list_all
            (λ access. is_ready_for (parts_view self.now) (accessed_line access) true)
            accesses.now }
    {
        accesses
            .iter()
            .all(|access| self.is_ready_for(access.line(), true))
    }

    /// Whether it has a next item, and each line of it serves.
    pub(crate) fn is_next_served(&self) -> bool
        ensures { result ≡ is_next_served (parts_view self.now) }
    {
        match self.script.as_slice().get(self.place) {
            Some(item) => self.serves(item),
            None => false,
        }
    }

    /// Whether it has a hit at the clock, where its next item serves or not.
    fn is_hit(&self, ready: bool, clock: u32) -> bool
        requires { ready ≡ is_next_served (parts_view self.now) }
        ensures { result ≡ is_hit_by (parts_view self.now) clock }
    {
        self.may_complete(clock) && ready
    }

    /// Completes its next item at the clock, and adds its entries.
    pub(crate) fn complete(&mut self, clock: u32, log: &mut Log)
        requires spare { 8 ≤ log.old.spare }
        requires script { length self.old.script ≤ 4096 }
        requires there { self.old.place < length self.old.script }
        requires performable { IfSome (next_item_by (parts_view self.old))
            (IsPerformable self.old.hand.cache) }
        ensures agent { parts_view self.new ≡ completed_by (parts_view self.old) clock }
        ensures entries { log.new.entries
            ≡ log.old.entries ++ completed_entries (parts_view self.old) clock }
        ensures spare { log.new.spare + length (completed_entries (parts_view self.old) clock)
            ≡ log.old.spare }
    {
        let items = self.script.as_slice();
        let doing = Doing {
            clock,
            agent: self.number,
            item: self.place as u16,
        };
        self.hand.serve_item(doing, &items[self.place], log);
        let idling = idle_in_front(&items[self.place + 1..]);
        self.finished = Some(Finished {
            clock,
            item: self.place,
        });
        self.place += 1 + idling.count;
        self.idle_to = u64::from(clock) + 1 + idling.clocks;
    }

    /// Performs its hit at the clock, if it has one: whether it had. Its next item serves, or not.
    pub(crate) fn perform(&mut self, ready: bool, clock: u32, log: &mut Log) -> bool
        requires spare { 8 ≤ log.old.spare }
        requires sound { IsSound (parts_view self.old) }
        requires ready { ready ≡ is_next_served (parts_view self.old) }
        ensures hit { result ≡ is_hit_by (parts_view self.old) clock }
        ensures agent { parts_view self.new ≡ performed (parts_view self.old) clock }
        ensures entries { log.new.entries
            ≡ log.old.entries ++ performed_entries (parts_view self.old) clock }
        ensures spare { log.new.spare + length (performed_entries (parts_view self.old) clock)
            ≡ log.old.spare }
    {
        if self.is_hit(ready, clock) {
            self.complete(clock, log);
            true
        } else {
            false
        }
    }
}

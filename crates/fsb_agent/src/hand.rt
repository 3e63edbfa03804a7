ghost use Rattle.std.specs.Prelude.{◌≡◌, ◌+◌, ◌≤◌, ◌++◌, ◌∷◌, [], length, true};
ghost use Rattle.std.specs.List.{list_all};
ghost use Rattle.fsb_access.specs.declared.access.Access.{Access};
ghost use Rattle.fsb_access.specs.Access.{is_lawful_access};
ghost use Rattle.fsb_access.specs.ScriptOrder.{steps_from, steps_of_item};
ghost use Rattle.fsb_agent_view.specs.Serving.{entries_at_hand, entry_at_hand, hand_after, hand_after_steps, value_at_hand};
ghost use Rattle.fsb_agent.specs.Parts.{IsPerformable, accesses_in, at_hand, is_servable};

use fsb_access::{Access, Done, Item, Log, number_put};
use fsb_cache::Cache;

/// What accesses work on.
#[derive(Drop)]
pub(crate) struct Hand {
    pub(crate) cache: Cache,
    /// The value that was loaded last, 0 before any load.
    pub(crate) last: u64,
}

/// Whose access is performed, when, and of which item.
#[derive(Clone, Copy)]
pub(crate) struct Doing {
    pub(crate) clock: u32,
    pub(crate) agent: u8,
    pub(crate) item: u16,
}

impl Hand {
    /// Performs an access: the value that is loaded or stored.
    fn serve(&mut self, access: &Access) -> u64
        requires lawful { is_lawful_access access.now ≡ true }
        requires servable { is_servable self.old.cache access.now ≡ true }
        ensures value { result ≡ value_at_hand (at_hand self.old) access.now }
        ensures hand { at_hand self.new ≡ hand_after (at_hand self.old) access.now }
    {
        match access {
            Access::Load { size, addr } => {
                let value = self.cache.load(*addr, *size);
                self.last = value;
                value
            }
            Access::Store { size, addr, value } => {
                let value = number_put(*size, self.last, value);
                self.cache.store(*addr, *size, value);
                value
            }
        }
    }

    /// Performs one access of an item, and adds its entry.
    fn serve_part(&mut self, doing: Doing, part: u8, access: &Access, log: &mut Log)
        requires spare { 1 ≤ log.old.spare }
        requires lawful { is_lawful_access access.now ≡ true }
        requires servable { is_servable self.old.cache access.now ≡ true }
        ensures hand { at_hand self.new ≡ hand_after (at_hand self.old) access.now }
        ensures entries { log.new.entries ≡ log.old.entries
            ++ entry_at_hand doing.agent doing.clock (at_hand self.old)
            (record { item = doing.item; part = part; access = access.now }) ∷ [] }
        ensures spare { log.new.spare + 1 ≡ log.old.spare }
        ensures keeps { (other : Access) → is_servable self.old.cache other ≡ true
            → is_servable self.new.cache other ≡ true }
    {
        let value = self.serve(access);
        log.add(Done {
            clock: doing.clock,
            agent: doing.agent,
            item: doing.item,
            part,
            access: *access,
            value,
        });
    }

    /// Performs the accesses of an item from this part on, in order, and adds their entries.
    pub(crate) fn serve_all(&mut self, doing: Doing, part: u8, accesses: &[Access], log: &mut Log)
        requires parts { part + length accesses.now ≤ 8 }
        requires spare { length accesses.now ≤ log.old.spare }
        requires lawful { list_all is_lawful_access accesses.now ≡ true }
        requires servable { list_all (is_servable self.old.cache) accesses.now ≡ true }
        ensures hand { at_hand self.new
            ≡ hand_after_steps (at_hand self.old) (steps_from doing.item part accesses.now) }
        ensures entries { log.new.entries ≡ log.old.entries
            ++ entries_at_hand doing.agent doing.clock (at_hand self.old)
            (steps_from doing.item part accesses.now) }
        ensures spare { log.new.spare + length accesses.now ≡ log.old.spare }
    {
        match accesses {
            [] => {}
            [access, others @ ..] => {
                self.serve_part(doing, part, access, log);
                self.serve_all(doing, part + 1, others, log);
            }
        }
    }

    /// Performs the accesses of an item, in order, and adds their entries.
    pub(crate) fn serve_item(&mut self, doing: Doing, item: &Item, log: &mut Log)
        requires spare { 8 ≤ log.old.spare }
        requires performable { IsPerformable self.old.cache item.now }
        ensures hand { at_hand self.new
            ≡ hand_after_steps (at_hand self.old) (steps_of_item doing.item item.now) }
        ensures entries { log.new.entries ≡ log.old.entries
            ++ entries_at_hand doing.agent doing.clock (at_hand self.old)
            (steps_of_item doing.item item.now) }
        ensures spare { log.new.spare + length (accesses_in item.now) ≡ log.old.spare }
    {
        match item {
            Item::One(access) => self.serve_all(doing, 0, &[*access], log),
            Item::Locked(group) => self.serve_all(doing, 0, group.as_slice(), log),
            Item::Idle(_) => {}
        }
    }
}

ghost use Rattle.std.specs.Prelude.{◌≡◌, ◌<◌, ◌≤◌, ◌++◌, IfOk, OnOk, OnErr, IsTrue};
ghost use Rattle.fsb_access.specs.Access.{is_size};
ghost use Rattle.fsb_hazard.specs.Seed.{next_state, drawn_below};
ghost use Rattle.fsb_script.specs.Made.{state_behind, drawn_size, drawn_addr, drawn_load, drawn_store, count_up, drawn_item, state_behind_item, state_behind_items, drawn_items, drawn_scripts, seed_lines, made_plan};
ghost use Rattle.fsb_script.specs.View.{plan_view};

use crate::bounds::ITEMS;
use crate::plan::{Plan, Scripts, Settings, Window};
use fsb_access::{Access, Group, Item, LINE_BYTES, Operand, Script};
use fsb_hazard::{HazardLines, next_state, seed_line};
use fsb_io::Memory;
use std::alloc::Global;

/// The numbers that a seed draws.
#[derive(Debug, Drop)]
struct Draws {
    state: u64,
}

impl Draws {
    /// The next number, which is below `limit`.
    fn below(&mut self, limit: u64) -> u64
        requires { 0 < limit }
        ensures value { result ≡ drawn_below limit self.old.state }
        ensures state { self.new.state ≡ next_state self.old.state }
        ensures less { result < limit }
    {
        self.state = next_state(self.state);
        (self.state >> 33) % limit
    }

    /// The size of an access.
    #[tactic(auto, unfolding(crate::specs::Made::drawn_size))]
    fn size(&mut self) -> u8
        ensures value { result ≡ drawn_size self.old.state }
        ensures state { self.new.state ≡ next_state self.old.state }
        ensures size { IsTrue (is_size result) }
    {
        match self.below(4) {
            0 => 1,
            1 => 2,
            2 => 4,
            _ => 8,
        }
    }

    /// The address of an access of that size.
    #[tactic(auto, unfolding(crate::specs::Made::drawn_addr))]
    fn addr(&mut self, size: u8) -> u64
        requires { IsTrue (is_size size) }
        ensures value { result ≡ drawn_addr size self.old.state }
        ensures state { self.new.state ≡ state_behind 2 self.old.state }
    {
        let size = size as u64;
        let line = self.below(64);
        let place = self.below(LINE_BYTES / size);
        line * LINE_BYTES + place * size
    }

    #[tactic(auto, unfolding(crate::specs::Made::drawn_load))]
    fn load(&mut self) -> Access
        ensures value { result ≡ drawn_load self.old.state }
        ensures state { self.new.state ≡ state_behind 3 self.old.state }
    {
        let size = self.size();
        let addr = self.addr(size);
        Access::Load { size, addr }
    }

    #[tactic(auto, unfolding(crate::specs::Made::drawn_store))]
    fn store(&mut self) -> Access
        ensures value { result ≡ drawn_store self.old.state }
        ensures state { self.new.state ≡ state_behind 4 self.old.state }
    {
        let size = self.size();
        let addr = self.addr(size);
        let value = Operand::Literal(self.below(256));
        Access::Store { size, addr, value }
    }

    /// An item. Only a locked one takes memory.
    #[tactic(auto, unfolding(crate::specs::Made::drawn_item, crate::specs::Made::item_of_kind, crate::specs::Made::numbers_of_kind, crate::specs::Made::state_behind_item))]
    fn item(&mut self, alloc: Global) -> Result<Item, Memory>
        ensures value { IfOk result (λ item. item ≡ drawn_item self.old.state) }
        ensures state { OnOk result (self.new.state ≡ state_behind_item self.old.state) }
        ensures memory { OnErr result (drawn_item self.old.state ≡ Item.Locked count_up) }
    {
        let kind = self.below(16);
        if kind < 7 {
            Ok(Item::One(self.load()))
        } else if kind < 13 {
            Ok(Item::One(self.store()))
        } else if kind == 13 {
            Ok(Item::Idle(1 + self.below(8) as u32))
        } else {
            Ok(Item::Locked(count_up(alloc)?))
        }
    }

    /// So many items.
    fn script(&mut self, alloc: Global, items: u16) -> Result<Script, Memory>
        ensures value { IfOk result (λ script. script ≡ drawn_items items self.old.state) }
        ensures state { OnOk result (self.new.state ≡ state_behind_items items self.old.state) }
    {
        let mut script = Script::new(alloc);
        for _ in 0..items {
            script.push(self.item(alloc)?)?;
        }
        Ok(script)
    }

    /// The scripts of so many agents.
    fn scripts(&mut self, alloc: Global, agents: u8, items: u16) -> Result<Scripts, Memory>
        ensures { IfOk result (λ scripts. scripts ≡ drawn_scripts items agents self.old.state) }
    {
        let mut scripts = Scripts::new(alloc);
        for _ in 0..agents {
            scripts.push(self.script(alloc, items)?)?;
        }
        Ok(scripts)
    }
}

/// The accesses that add 1 to the byte at address 0.
fn count_up(alloc: Global) -> Result<Group, Memory>
    ensures { IfOk result (λ group. group ≡ count_up) }
{
    let mut group = Group::new(alloc);
    group.push(Access::Load { size: 1, addr: 0 })?;
    group.push(Access::Store {
        size: 1,
        addr: 0,
        value: Operand::LastPlus(1),
    })?;
    Ok(group)
}

/// The hazard lines that a seed has for the requests below `count`.
fn seed_lines(alloc: Global, seed: u64, count: u32) -> Result<HazardLines, Memory>
    ensures { IfOk result (λ lines. lines ≡ seed_lines seed count) }
{
    let mut lines = HazardLines::new(alloc);
    for number in 0..count {
        if let Some(line) = seed_line(seed, number) {
            lines.push(line)?;
        }
    }
    Ok(lines)
}

/// The plan that the generator makes of a seed, for so many agents with so many items each.
#[tactic(auto, unfolding(crate::specs::Made::made_plan))]
pub fn plan_of(alloc: Global, seed: u64, agents: u8, items: u16) -> Result<Plan, Memory>
    requires some_agents { 1 ≤ agents }
    requires few_agents { agents ≤ 4 }
    requires some_items { 1 ≤ items }
    requires few_items { items ≤ 4096 }
    ensures { IfOk result (λ plan. plan_view plan ≡ made_plan seed agents items) }
{
    let mut draws = Draws { state: seed };
    let count = agents as u32 * items as u32;
    let scripts = draws.scripts(alloc, agents, items)?;
    let hazards = seed_lines(alloc, seed, count.min(ITEMS as u32))?;
    Ok(Plan {
        scripts,
        clocks: (40 * count).min(200_000),
        cache: 16,
        ahead: 1,
        profile: 1,
        bridge: Some(Window {
            base: 0x600,
            size: 0x200,
        }),
        mem: Settings::new(alloc),
        hazards,
    })
}

ghost use Rattle.std.specs.Prelude.{◌≡◌, ◌<◌, ◌≤◌, ◌+◌, ◌^◌, ◌++◌, length, nat_lt, IsTrue, IfOk, OnOk, IsOk};
ghost use Rattle.std.specs.List.{list_all};
ghost use Rattle.fsb_access.specs.Access.{is_lawful_access};
ghost use Rattle.fsb_script.specs.Bounds.{is_cache, is_profile, is_lawful_item, is_lawful_script, is_lawful_bridge, is_lawful_setting, is_lawful_hazard, are_lawful_hazards};
ghost use Rattle.fsb_script.specs.DraftKept.{are_counts, is_fresh, has_all, has_lock_room};
ghost use Rattle.fsb_script.specs.Parsing.{ReadsAs, LineGives};
ghost use Rattle.fsb_script.specs.Statements.{settings_at};
ghost use Rattle.fsb_script.specs.Drafts.{heading_of, ends_heading, place_behind};

use crate::bounds::{ITEMS, is_cache, is_lock_apart, is_lock_size};
use crate::fault::{Cause, LineStop};
use crate::place::Place;
use crate::plan::{Scripts, Settings, Window};
use crate::statement::{
    agent_of, block_of, idle_of, keyword, load_of, memory_of, profile_of, store_of, transaction_of,
    window_of,
};
use crate::word::{decimal_within, decimal_word, is_ended, is_silent, next_word};
use fsb_access::{Access, Group, Item, Script, Setting};
use fsb_hazard::{HazardLine, HazardLines};
use fsb_io::Memory;
use std::alloc::Global;
use std::mem;

/// What the lines so far have said, and which lines may stand next.
#[derive(Debug, Drop)]
pub(crate) struct PlanDraft {
    pub(crate) place: Place,
    pub(crate) agents: u8,
    pub(crate) clocks: u32,
    pub(crate) cache: u32,
    pub(crate) ahead: u8,
    pub(crate) profile: u8,
    pub(crate) bridge: Option<Window>,
    pub(crate) mem: Settings,
    pub(crate) scripts: Scripts,
    pub(crate) script: Script,
    pub(crate) group: Group,
    pub(crate) hazards: HazardLines,
    ghost some_cache: { 0 < cache },
    ghost lawful_cache: { IsTrue (is_cache cache) },
    ghost counts: { IsTrue (are_counts agents clocks ahead) },
    ghost lawful_profile: { IsTrue (is_profile profile) },
    ghost lawful_bridge: { IsTrue (is_lawful_bridge bridge) },
    ghost lawful_mem: { IsTrue (list_all is_lawful_setting mem) },
    ghost lawful_hazards: { IsTrue (are_lawful_hazards hazards) },
    ghost lawful_scripts: { IsTrue (list_all (is_lawful_script cache) scripts) },
    ghost lawful_script: { IsTrue (is_lawful_script cache script) },
    ghost lawful_group: { IsTrue (list_all is_lawful_access group) },
    ghost fresh: { IsTrue (is_fresh place scripts script) },
    ghost all_scripts: { IsTrue (has_all place agents scripts) },
    ghost lock_room: { IsTrue (has_lock_room place script) },
}

/// What follows `p6bench 1`.
#[tactic(auto, unfolding(crate::specs::Drafts::heading_of))]
fn heading_of(line: &[u8]) -> Result<&[u8], Cause>
    ensures { ReadsAs (λ x. x.now) result (heading_of line.now) }
{
    let rest = keyword(b"p6bench", line)?;
    keyword(b"1", rest)
}

fn is_heading(line: &[u8]) -> bool
    ensures { result ≡ ends_heading (heading_of line.now) }
{
    match heading_of(line) {
        Ok(rest) => is_ended(rest),
        Err(_) => false,
    }
}

/// Where the lines go on behind so many scripts.
fn place_behind(scripts: usize, agents: u8) -> Place
    ensures { result ≡ place_behind scripts agents }
{
    if scripts == agents as usize {
        Place::Hazards
    } else {
        Place::Agent
    }
}

impl PlanDraft {
    ghost use Rattle.fsb_script.specs.View.{progress};
    ghost use Rattle.fsb_script.specs.Drafts.{beginning, first_line, agents_line, clocks_line, cache_line, ahead_line, profile_line, bridge_line, mem_line, agent_line, add_item, load_item, store_item, idle_item, lock_item, end_line, item_line, locked_access, unlock_line, locked_line, add_hazard, transaction_line, block_line, hazard_line, memory_line, body_line, front_line, next_agent_line, choice_line, placed_line, is_past, after_line};

    /// Before the first line.
    pub(crate) fn new(alloc: Global) -> Self
        ensures { progress result ≡ beginning }
    {
        PlanDraft {
            place: Place::First,
            agents: 1,
            clocks: 0,
            cache: 1,
            ahead: 1,
            profile: 1,
            bridge: None,
            mem: Settings::new(alloc),
            scripts: Scripts::new(alloc),
            script: Script::new(alloc),
            group: Group::new(alloc),
            hazards: HazardLines::new(alloc),
        }
    }

    #[tactic(auto, unfolding(crate::specs::Drafts::first_line, crate::specs::DraftKept::is_fresh, crate::specs::DraftKept::has_all, crate::specs::DraftKept::has_lock_room))]
    fn first_line(&mut self, line: &[u8]) -> Result<(), Cause>
        requires { self.old.place ≡ Place.First }
        ensures { ReadsAs (λ _. progress self.new) result
            (first_line (progress self.old) line.now) }
    {
        if !is_heading(line) {
            return Err(Cause::FirstLine);
        }
        self.place = Place::Agents;
        Ok(())
    }

    #[tactic(auto, unfolding(crate::specs::Drafts::agents_line, crate::specs::TextWords::line_ended, crate::specs::DraftKept::is_fresh, crate::specs::DraftKept::has_all, crate::specs::DraftKept::has_lock_room))]
    fn agents_line(&mut self, line: &[u8]) -> Result<(), Cause>
        requires { self.old.place ≡ Place.Agents }
        ensures { ReadsAs (λ _. progress self.new) result
            (agents_line (progress self.old) line.now) }
    {
        let rest = keyword(b"agents", line)?;
        let (count, rest) = decimal_within(1, 4, rest)?;
        if !is_ended(rest) {
            return Err(Cause::After);
        }
        self.agents = count as u8;
        self.place = Place::Clocks;
        Ok(())
    }

    #[tactic(auto, unfolding(crate::specs::Drafts::clocks_line, crate::specs::TextWords::line_ended, crate::specs::DraftKept::is_fresh, crate::specs::DraftKept::has_all, crate::specs::DraftKept::has_lock_room))]
    fn clocks_line(&mut self, line: &[u8]) -> Result<(), Cause>
        requires { self.old.place ≡ Place.Clocks }
        ensures { ReadsAs (λ _. progress self.new) result
            (clocks_line (progress self.old) line.now) }
    {
        let rest = keyword(b"clocks", line)?;
        let (clocks, rest) = decimal_within(0, 200_000, rest)?;
        if !is_ended(rest) {
            return Err(Cause::After);
        }
        self.clocks = clocks as u32;
        self.place = Place::Cache;
        Ok(())
    }

    #[tactic(auto, using(crate::proofs::KeptLemmas::script_none, crate::proofs::KeptLemmas::scripts_none), unfolding(crate::specs::Drafts::cache_line, crate::specs::TextWords::line_ended, crate::specs::DraftKept::is_fresh, crate::specs::DraftKept::has_all, crate::specs::DraftKept::has_lock_room))]
    fn cache_line(&mut self, line: &[u8]) -> Result<(), Cause>
        requires { self.old.place ≡ Place.Cache }
        ensures { ReadsAs (λ _. progress self.new) result
            (cache_line (progress self.old) line.now) }
    {
        let rest = keyword(b"cache", line)?;
        let (lines, rest) = decimal_word(rest)?;
        if !is_cache(lines) {
            return Err(Cause::Range);
        }
        if !is_ended(rest) {
            return Err(Cause::After);
        }
        self.cache = lines as u32;
        self.place = Place::Ahead;
        Ok(())
    }

    #[tactic(auto, unfolding(crate::specs::Drafts::ahead_line, crate::specs::TextWords::line_ended, crate::specs::DraftKept::is_fresh, crate::specs::DraftKept::has_all, crate::specs::DraftKept::has_lock_room))]
    fn ahead_line(&mut self, line: &[u8]) -> Result<(), Cause>
        ensures { ReadsAs (λ _. progress self.new) result
            (ahead_line (progress self.old) line.now) }
    {
        let rest = keyword(b"ahead", line)?;
        let (count, rest) = decimal_within(1, 4, rest)?;
        if !is_ended(rest) {
            return Err(Cause::After);
        }
        self.ahead = count as u8;
        self.place = Place::Profile;
        Ok(())
    }

    #[tactic(auto, unfolding(crate::specs::Drafts::profile_line, crate::specs::DraftKept::is_fresh, crate::specs::DraftKept::has_all, crate::specs::DraftKept::has_lock_room))]
    fn profile_line(&mut self, line: &[u8]) -> Result<(), Cause>
        ensures { ReadsAs (λ _. progress self.new) result
            (profile_line (progress self.old) line.now) }
    {
        self.profile = profile_of(line)?;
        self.place = Place::Bridge;
        Ok(())
    }

    #[tactic(auto, unfolding(crate::specs::Drafts::bridge_line, crate::specs::DraftKept::is_fresh, crate::specs::DraftKept::has_all, crate::specs::DraftKept::has_lock_room))]
    fn bridge_line(&mut self, line: &[u8]) -> Result<(), Cause>
        ensures { ReadsAs (λ _. progress self.new) result
            (bridge_line (progress self.old) line.now) }
    {
        self.bridge = Some(window_of(line)?);
        self.place = Place::Memory;
        Ok(())
    }

    #[tactic(auto, unfolding(crate::specs::Drafts::mem_line, crate::specs::DraftKept::is_fresh, crate::specs::DraftKept::has_all, crate::specs::DraftKept::has_lock_room))]
    fn mem_line(&mut self, line: &[u8]) -> Result<(), LineStop>
        ensures { LineGives (λ _. progress self.new) result
            (mem_line (progress self.old) line.now) }
    {
        let (addr, bytes) = memory_of(line)?;
        self.mem.push_bytes(addr, bytes.as_slice())?;
        self.place = Place::Memory;
        Ok(())
    }

    #[tactic(auto, unfolding(crate::specs::Drafts::agent_line, crate::specs::DraftKept::is_fresh, crate::specs::DraftKept::has_all, crate::specs::DraftKept::has_lock_room))]
    fn agent_line(&mut self, line: &[u8]) -> Result<(), Cause>
        ensures { ReadsAs (λ _. progress self.new) result
            (agent_line (progress self.old) line.now) }
    {
        let _number = agent_of(self.scripts.as_slice().len() as u64, line)?;
        self.place = Place::Items;
        Ok(())
    }

    #[tactic(auto, using(crate::proofs::KeptLemmas::script_push), unfolding(crate::specs::Drafts::add_item, crate::specs::DraftKept::is_fresh, crate::specs::DraftKept::has_all, crate::specs::DraftKept::has_lock_room))]
    fn add_item(&mut self, item: Item) -> Result<(), LineStop>
        requires lawful { IsTrue (is_lawful_item self.old.cache item) }
        requires room { length self.old.script < 4096 }
        requires place { self.old.place ≡ Place.Items }
        ensures { LineGives (λ _. progress self.new) result (add_item (progress self.old) item) }
    {
        self.script.push(item)?;
        Ok(())
    }

    /// Whether the script has room for one item more.
    fn has_room(&self) -> bool
        ensures { result ≡ nat_lt (length self.now.script) 4096 }
    {
        self.script.as_slice().len() < ITEMS
    }

    #[tactic(auto, unfolding(crate::specs::Drafts::load_item))]
    fn load_item(&mut self, line: &[u8]) -> Result<(), LineStop>
        requires { self.old.place ≡ Place.Items }
        ensures { LineGives (λ _. progress self.new) result
            (load_item (progress self.old) line.now) }
    {
        if !self.has_room() {
            return Err(LineStop::Bad(Cause::Range));
        }
        let access = load_of(line)?;
        self.add_item(Item::One(access))
    }

    #[tactic(auto, unfolding(crate::specs::Drafts::store_item))]
    fn store_item(&mut self, line: &[u8]) -> Result<(), LineStop>
        requires { self.old.place ≡ Place.Items }
        ensures { LineGives (λ _. progress self.new) result
            (store_item (progress self.old) line.now) }
    {
        if !self.has_room() {
            return Err(LineStop::Bad(Cause::Range));
        }
        let access = store_of(line)?;
        self.add_item(Item::One(access))
    }

    #[tactic(auto, using(crate::proofs::KeptLemmas::idle_lawful), unfolding(crate::specs::Drafts::idle_item))]
    fn idle_item(&mut self, line: &[u8]) -> Result<(), LineStop>
        requires { self.old.place ≡ Place.Items }
        ensures { LineGives (λ _. progress self.new) result
            (idle_item (progress self.old) line.now) }
    {
        if !self.has_room() {
            return Err(LineStop::Bad(Cause::Range));
        }
        let clocks = idle_of(line)?;
        self.add_item(Item::Idle(clocks))
    }

    #[tactic(auto, unfolding(crate::specs::Drafts::lock_item, crate::specs::TextWords::line_ended, crate::specs::DraftKept::is_fresh, crate::specs::DraftKept::has_all, crate::specs::DraftKept::has_lock_room))]
    fn lock_item(&mut self, alloc: Global, line: &[u8]) -> Result<(), Cause>
        ensures { ReadsAs (λ _. progress self.new) result (lock_item (progress self.old) line.now) }
    {
        if !self.has_room() {
            return Err(Cause::Range);
        }
        if !is_ended(line) {
            return Err(Cause::After);
        }
        self.group = Group::new(alloc);
        self.place = Place::Locked;
        Ok(())
    }

    #[tactic(auto, using(crate::proofs::KeptLemmas::all_push), unfolding(crate::specs::Drafts::end_line, crate::specs::TextWords::line_ended, crate::specs::DraftKept::is_fresh, crate::specs::DraftKept::has_all, crate::specs::DraftKept::has_lock_room))]
    fn end_line(&mut self, alloc: Global, line: &[u8]) -> Result<(), LineStop>
        requires { self.old.place ≡ Place.Items }
        ensures { LineGives (λ _. progress self.new) result
            (end_line (progress self.old) line.now) }
    {
        if !is_ended(line) {
            return Err(LineStop::Bad(Cause::After));
        }
        let script = mem::replace(&mut self.script, Script::new(alloc));
        self.scripts.push(script)?;
        self.place = place_behind(self.scripts.as_slice().len(), self.agents);
        Ok(())
    }

    /// A line between `agent` and `end`.
    #[tactic(auto, unfolding(crate::specs::Drafts::item_line))]
    fn item_line(&mut self, alloc: Global, word: &[u8], line: &[u8]) -> Result<(), LineStop>
        requires { self.old.place ≡ Place.Items }
        ensures { LineGives (λ _. progress self.new) result
            (item_line (progress self.old) word.now line.now) }
    {
        if word == b"ld".as_slice() {
            self.load_item(line)
        } else if word == b"st".as_slice() {
            self.store_item(line)
        } else if word == b"idle".as_slice() {
            self.idle_item(line)
        } else if word == b"lock".as_slice() {
            self.lock_item(alloc, line)?;
            Ok(())
        } else if word == b"end".as_slice() {
            self.end_line(alloc, line)
        } else {
            Err(LineStop::Bad(Cause::Word))
        }
    }

    #[tactic(auto, using(crate::proofs::KeptLemmas::all_push), unfolding(crate::specs::Drafts::locked_access))]
    fn locked_access(&mut self, access: Access) -> Result<(), LineStop>
        requires lawful { IsTrue (is_lawful_access access) }
        ensures { LineGives (λ _. progress self.new) result
            (locked_access (progress self.old) access) }
    {
        self.group.push(access)?;
        Ok(())
    }

    #[tactic(auto, using(crate::proofs::KeptLemmas::script_push, std::proofs::lemmas::Bool::and_from), unfolding(crate::specs::Drafts::unlock_line, crate::specs::TextWords::line_ended, crate::specs::DraftKept::is_fresh, crate::specs::DraftKept::has_all, crate::specs::DraftKept::has_lock_room))]
    fn unlock_line(&mut self, alloc: Global, line: &[u8]) -> Result<(), LineStop>
        requires { self.old.place ≡ Place.Locked }
        ensures { LineGives (λ _. progress self.new) result
            (unlock_line (progress self.old) line.now) }
    {
        if !is_ended(line) {
            return Err(LineStop::Bad(Cause::After));
        }
        if !is_lock_size(self.group.as_slice()) {
            return Err(LineStop::Bad(Cause::LockSize));
        }
        if !is_lock_apart(self.cache, self.group.as_slice()) {
            return Err(LineStop::Bad(Cause::LockConflict));
        }
        let group = mem::replace(&mut self.group, Group::new(alloc));
        self.script.push(Item::Locked(group))?;
        self.place = Place::Items;
        Ok(())
    }

    /// A line between `lock` and `unlock`.
    #[tactic(auto, unfolding(crate::specs::Drafts::locked_line))]
    fn locked_line(&mut self, alloc: Global, word: &[u8], line: &[u8]) -> Result<(), LineStop>
        requires { self.old.place ≡ Place.Locked }
        ensures { LineGives (λ _. progress self.new) result
            (locked_line (progress self.old) word.now line.now) }
    {
        if word == b"ld".as_slice() {
            let access = load_of(line)?;
            self.locked_access(access)
        } else if word == b"st".as_slice() {
            let access = store_of(line)?;
            self.locked_access(access)
        } else if word == b"unlock".as_slice() {
            self.unlock_line(alloc, line)
        } else {
            Err(LineStop::Bad(Cause::Word))
        }
    }

    #[tactic(auto, using(crate::proofs::KeptLemmas::hazard_push), unfolding(crate::specs::Drafts::add_hazard))]
    fn add_hazard(&mut self, hazard: HazardLine) -> Result<(), LineStop>
        requires lawful { IsTrue (is_lawful_hazard hazard) }
        requires room { length self.old.hazards < 4096 }
        ensures { LineGives (λ _. progress self.new) result
            (add_hazard (progress self.old) hazard) }
    {
        self.hazards.push(hazard)?;
        Ok(())
    }

    /// Whether there is room for one hazard line more.
    fn has_hazard_room(&self) -> bool
        ensures { result ≡ nat_lt (length self.now.hazards) 4096 }
    {
        self.hazards.as_slice().len() < ITEMS
    }

    #[tactic(auto, unfolding(crate::specs::Drafts::transaction_line))]
    fn transaction_line(&mut self, line: &[u8]) -> Result<(), LineStop>
        ensures { LineGives (λ _. progress self.new) result
            (transaction_line (progress self.old) line.now) }
    {
        if !self.has_hazard_room() {
            return Err(LineStop::Bad(Cause::Range));
        }
        let hazard = transaction_of(line)?;
        self.add_hazard(hazard)
    }

    #[tactic(auto, unfolding(crate::specs::Drafts::block_line))]
    fn block_line(&mut self, line: &[u8]) -> Result<(), LineStop>
        ensures { LineGives (λ _. progress self.new) result
            (block_line (progress self.old) line.now) }
    {
        if !self.has_hazard_room() {
            return Err(LineStop::Bad(Cause::Range));
        }
        let hazard = block_of(line)?;
        self.add_hazard(hazard)
    }

    /// A line behind the last script.
    #[tactic(auto, unfolding(crate::specs::Drafts::hazard_line))]
    fn hazard_line(&mut self, word: &[u8], line: &[u8]) -> Result<(), LineStop>
        ensures { LineGives (λ _. progress self.new) result
            (hazard_line (progress self.old) word.now line.now) }
    {
        if word == b"tx".as_slice() {
            self.transaction_line(line)
        } else if word == b"bnr".as_slice() {
            self.block_line(line)
        } else {
            Err(LineStop::Bad(Cause::Word))
        }
    }

    #[tactic(auto, unfolding(crate::specs::Drafts::memory_line))]
    fn memory_line(&mut self, word: &[u8], line: &[u8]) -> Result<(), LineStop>
        ensures { LineGives (λ _. progress self.new) result
            (memory_line (progress self.old) word.now line.now) }
    {
        if word == b"mem".as_slice() {
            self.mem_line(line)
        } else if word == b"agent".as_slice() {
            self.agent_line(line)?;
            Ok(())
        } else {
            Err(LineStop::Bad(Cause::Word))
        }
    }

    #[tactic(auto, unfolding(crate::specs::Drafts::body_line))]
    fn body_line(&mut self, word: &[u8], line: &[u8]) -> Result<(), LineStop>
        ensures { LineGives (λ _. progress self.new) result
            (body_line (progress self.old) word.now line.now) }
    {
        if word == b"bridge".as_slice() {
            self.bridge_line(line)?;
            Ok(())
        } else {
            self.memory_line(word, line)
        }
    }

    #[tactic(auto, unfolding(crate::specs::Drafts::front_line))]
    fn front_line(&mut self, word: &[u8], line: &[u8]) -> Result<(), LineStop>
        ensures { LineGives (λ _. progress self.new) result
            (front_line (progress self.old) word.now line.now) }
    {
        if word == b"profile".as_slice() {
            self.profile_line(line)?;
            Ok(())
        } else {
            self.body_line(word, line)
        }
    }

    #[tactic(auto, unfolding(crate::specs::Drafts::next_agent_line))]
    fn next_agent_line(&mut self, word: &[u8], line: &[u8]) -> Result<(), Cause>
        ensures { ReadsAs (λ _. progress self.new) result
            (next_agent_line (progress self.old) word.now line.now) }
    {
        if word == b"agent".as_slice() {
            self.agent_line(line)
        } else {
            Err(Cause::Word)
        }
    }

    /// A line where more than one first word may stand.
    #[tactic(auto, unfolding(crate::specs::Drafts::choice_line))]
    fn choice_line(&mut self, alloc: Global, line: &[u8]) -> Result<(), LineStop>
        ensures { LineGives (λ _. progress self.new) result
            (choice_line (progress self.old) line.now) }
    {
        let (word, rest) = next_word(line)?;
        match self.place {
            Place::Profile => self.front_line(word, rest),
            Place::Bridge => self.body_line(word, rest),
            Place::Memory => self.memory_line(word, rest),
            Place::Agent => Ok(self.next_agent_line(word, rest)?),
            Place::Items => self.item_line(alloc, word, rest),
            Place::Locked => self.locked_line(alloc, word, rest),
            _ => self.hazard_line(word, rest),
        }
    }

    /// A line that may stand first, or where one first word may stand alone.
    fn fixed_line(&mut self, alloc: Global, line: &[u8]) -> Result<(), LineStop>
        ensures { LineGives (λ _. progress self.new) result
            (placed_line self.old.place (progress self.old) line.now) }
    {
        match self.place {
            Place::First => self.first_line(line)?,
            Place::Agents => self.agents_line(line)?,
            Place::Clocks => self.clocks_line(line)?,
            Place::Cache => self.cache_line(line)?,
            Place::Ahead => self.ahead_line(line)?,
            _ => self.choice_line(alloc, line)?,
        }
        Ok(())
    }

    /// Whether a line is read past.
    fn is_past(&self, line: &[u8]) -> bool
        ensures { result ≡ is_past self.now.place line.now }
    {
        match self.place {
            Place::First => false,
            _ => is_silent(line),
        }
    }

    /// Takes the next line. One that is read past takes no memory.
    #[tactic(auto, unfolding(crate::specs::Drafts::after_line))]
    pub(crate) fn take(&mut self, alloc: Global, line: &[u8]) -> Result<(), LineStop>
        ensures gives { LineGives (λ _. progress self.new) result
            (after_line (progress self.old) line.now) }
        ensures past { IsTrue (is_past self.old.place line.now) → IsOk result }
    {
        if self.is_past(line) {
            return Ok(());
        }
        self.fixed_line(alloc, line)
    }
}

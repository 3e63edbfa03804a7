ghost use Rattle.std.specs.Prelude.{◌≡◌, ◌≤◌, ◌+◌, ◌^◌, List, [], ◌∷◌, ◌++◌, length, IsTrue, OnOk, OnErr};
ghost use Rattle.std.specs.List.{list_all};
ghost use Rattle.fsb_script.specs.Bounds.{is_cache, is_profile, is_lawful_script, is_lawful_bridge, is_lawful_setting, are_lawful_hazards};
ghost use Rattle.fsb_script.specs.Statements.{settings_at};

use fsb_access::{Script, Setting};
use fsb_hazard::HazardLines;
use fsb_io::Memory;
use std::alloc::Global;
use std::marker::Model;

/// The scripts of the agents, in order of their numbers.
#[derive(Debug, Drop)]
pub struct Scripts {
    scripts: Vec<Script>,
}

impl Model for Scripts {
    ghost use Rattle.std.specs.Prelude.{List};
    ghost use Rattle.fsb_access.specs.declared.item.Item.{Item};

    ghost Value = { List (List Item) };

    ghost view = { λ s. s.scripts.items };
}

impl Scripts {
    /// The empty list. It takes no memory.
    pub fn new(alloc: Global) -> Self
        ensures { result ≡ [] }
    {
        Scripts {
            scripts: Vec::new(alloc),
        }
    }

    /// Adds a script as the last one. After `Memory` the list is as before and the script was dropped.
    pub fn push(&mut self, script: Script) -> Result<(), Memory>
        ensures ok { OnOk result (self.new ≡ self.old ++ script ∷ []) }
        ensures err { OnErr result (self.new ≡ self.old) }
    {
        self.scripts.push(script)?;
        Ok(())
    }

    pub fn as_slice(&self) -> &[Script]
        ensures { result.now ≡ self.now }
    {
        self.scripts.as_slice()
    }
}

/// The bytes of memory as a run begins, in the order in which they are set; of two settings of one byte the later one
/// wins.
#[derive(Debug, Drop)]
pub struct Settings {
    settings: Vec<Setting>,
}

impl Model for Settings {
    ghost use Rattle.std.specs.Prelude.{List};
    ghost use Rattle.fsb_access.specs.declared.access.Setting.{Setting};

    ghost Value = { List Setting };

    ghost view = { λ s. s.settings.items };
}

impl Settings {
    /// The empty list. It takes no memory.
    pub fn new(alloc: Global) -> Self
        ensures { result ≡ [] }
    {
        Settings {
            settings: Vec::new(alloc),
        }
    }

    /// Adds a setting as the last one. After `Memory` the list is as before.
    pub fn push(&mut self, setting: Setting) -> Result<(), Memory>
        ensures ok { OnOk result (self.new ≡ self.old ++ setting ∷ []) }
        ensures err { OnErr result (self.new ≡ self.old) }
    {
        self.settings.push(setting)?;
        Ok(())
    }

    /// Adds a setting for each byte, from an address on. After `Memory` the list is as before.
    pub(crate) fn push_bytes(&mut self, addr: u64, bytes: &[u8]) -> Result<(), Memory>
        requires { addr + length bytes.now ≤ 2 ^ 36 }
        ensures lawful { IsTrue (list_all is_lawful_setting self.old) →
            IsTrue (list_all is_lawful_setting self.new) }
        ensures ok { OnOk result (self.new ≡ self.old ++ settings_at addr bytes.now) }
        ensures err { OnErr result (self.new ≡ self.old) }
    {
        self.settings.reserve(bytes.len())?;
        for (i, byte) in bytes.iter().enumerate() {
            self.settings.push_reserved(Setting {
                addr: addr + i as u64,
                byte: *byte,
            });
        }
        Ok(())
    }

    /// The settings, in order.
    pub fn as_slice(&self) -> &[Setting]
        ensures { result.now ≡ self.now }
    {
        self.settings.as_slice()
    }
}

/// The addresses that the bridge may defer: `size` bytes from `base`, both multiples of 32.
#[derive(Clone, Copy, Debug, PartialEq, Eq)]
pub struct Window {
    pub base: u64,
    pub size: u64,
}

/// What a bench file says. It keeps the bounds of the file's numbers, accesses, locked items, window, settings and
/// hazard lines.
#[derive(Debug, Drop)]
pub struct Plan {
    /// One script for each of 1 to 4 agents, each of at most 4,096 items.
    pub scripts: Scripts,
    /// How many clocks are run, 0 to 200,000.
    pub clocks: u32,
    /// The lines of each agent's cache: a power of two from 1 to 1,024.
    pub cache: u32,
    /// How many requests an agent may have outstanding, 1 to 4.
    pub ahead: u8,
    /// The profile of the bus, 1 or 2.
    pub profile: u8,
    /// The addresses whose requests may be deferred.
    pub bridge: Option<Window>,
    /// The bytes of memory that are set as the run begins, all others being 0; a later setting of a byte wins.
    pub mem: Settings,
    /// At most 4,096 lines.
    pub hazards: HazardLines,
    pub ghost some_agents: { 1 ≤ length scripts },
    pub ghost few_agents: { length scripts ≤ 4 },
    pub ghost lawful_scripts: { IsTrue (list_all (is_lawful_script cache) scripts) },
    pub ghost few_clocks: { clocks ≤ 200000 },
    pub ghost lawful_cache: { IsTrue (is_cache cache) },
    pub ghost some_ahead: { 1 ≤ ahead },
    pub ghost few_ahead: { ahead ≤ 4 },
    pub ghost lawful_profile: { IsTrue (is_profile profile) },
    pub ghost lawful_bridge: { IsTrue (is_lawful_bridge bridge) },
    pub ghost lawful_mem: { IsTrue (list_all is_lawful_setting mem) },
    pub ghost lawful_hazards: { IsTrue (are_lawful_hazards hazards) },
}

ghost use Rattle.std.specs.Prelude.{◌≡◌, List, [], ◌∷◌, ◌++◌, IfOk, OnOk, OnErr};

use crate::access::Access;
use fsb_io::Memory;
use std::alloc::Global;
use std::marker::Model;

/// The accesses of a locked item, which are performed in one step, in order.
#[derive(Debug, Drop)]
pub struct Group {
    accesses: Vec<Access>,
}

impl Model for Group {
    ghost use Rattle.std.specs.Prelude.{List};
    ghost use Rattle.fsb_access.specs.declared.access.Access.{Access};

    ghost Value = { List Access };

    ghost view = { λ g. g.accesses.items };
}

impl Group {
    /// The empty group. It takes no memory.
    pub fn new(alloc: Global) -> Self
        ensures { result ≡ [] }
    {
        Group {
            accesses: Vec::new(alloc),
        }
    }

    /// Adds an access as the last one. After `Memory` the group is as before.
    pub fn push(&mut self, access: Access) -> Result<(), Memory>
        ensures ok { OnOk result (self.new ≡ self.old ++ access ∷ []) }
        ensures err { OnErr result (self.new ≡ self.old) }
    {
        self.accesses.push(access)?;
        Ok(())
    }

    /// The accesses, the first one first.
    pub fn as_slice(&self) -> &[Access]
        ensures { result.now ≡ self.now }
    {
        self.accesses.as_slice()
    }

    /// A group of the same accesses.
    pub fn copy(&self, alloc: Global) -> Result<Self, Memory>
        ensures { IfOk result (λ g. g ≡ self.now) }
    {
        let accesses = self.accesses.as_slice().to_vec(alloc)?;
        Ok(Group { accesses })
    }
}

/// One step of a script.
#[derive(Debug, Drop)]
pub enum Item {
    /// An access by itself.
    One(Access),
    /// Accesses that are performed in one step, under the bus lock.
    Locked(Group),
    /// So many clocks spent idle.
    Idle(u32),
}

impl Item {
    /// An equal item. Only a locked one takes memory.
    pub fn copy(&self, alloc: Global) -> Result<Self, Memory>
        ensures same { IfOk result (λ item. item ≡ self.now) }
        ensures memory { OnErr result (
            (accesses : List Access) × (self.now ≡ Item.Locked accesses)) }
    {
        match self {
            Item::One(access) => Ok(Item::One(*access)),
            Item::Locked(group) => match group.copy(alloc) {
                Ok(group) => Ok(Item::Locked(group)),
                Err(memory) => Err(memory),
            },
            Item::Idle(clocks) => Ok(Item::Idle(*clocks)),
        }
    }
}

/// What one agent is asked to do, in order.
#[derive(Debug, Drop)]
pub struct Script {
    items: Vec<Item>,
}

impl Model for Script {
    ghost use Rattle.std.specs.Prelude.{List};
    ghost use Rattle.fsb_access.specs.declared.item.Item.{Item};

    ghost Value = { List Item };

    ghost view = { λ s. s.items.items };
}

impl Script {
    /// The empty script. It takes no memory.
    pub fn new(alloc: Global) -> Self
        ensures { result ≡ [] }
    {
        Script {
            items: Vec::new(alloc),
        }
    }

    /// Adds an item as the last one. After `Memory` the script is as before and the item was dropped.
    pub fn push(&mut self, item: Item) -> Result<(), Memory>
        ensures ok { OnOk result (self.new ≡ self.old ++ item ∷ []) }
        ensures err { OnErr result (self.new ≡ self.old) }
    {
        self.items.push(item)?;
        Ok(())
    }

    /// The items, the first one first.
    pub fn as_slice(&self) -> &[Item]
        ensures { result.now ≡ self.now }
    {
        self.items.as_slice()
    }

    /// A script of equal items.
    pub fn copy(&self, alloc: Global) -> Result<Self, Memory>
        ensures { IfOk result (λ script. script ≡ self.now) }
    {
        let mut items = Vec::with_capacity(alloc, self.items.len())?;
        for item in &self.items {
            items.push(item.copy(alloc)?)?;
        }
        Ok(Script { items })
    }
}

//! Scripts of the agents, made of tables.

use fsb_access::{Access, Group, Item, Operand, Script};
use fsb_io::Memory;
use std::alloc::Global;

/// An access of one byte.
#[derive(Clone, Copy)]
pub(crate) enum Part {
    Load(u64),
    /// A store of this number.
    Store(u64, u64),
    /// A store of the value that was loaded last and this number.
    Add(u64, u64),
}

/// An item of a script.
#[derive(Clone, Copy)]
pub(crate) enum Words<'a> {
    One(Part),
    Locked(&'a [Part]),
    Idle(u32),
}

/// A store of one byte.
fn store(addr: u64, value: Operand) -> Access {
    Access::Store {
        size: 1,
        addr,
        value,
    }
}

fn access(part: Part) -> Access {
    match part {
        Part::Load(addr) => Access::Load { size: 1, addr },
        Part::Store(addr, number) => store(addr, Operand::Literal(number)),
        Part::Add(addr, number) => store(addr, Operand::LastPlus(number)),
    }
}

/// The accesses of a locked item.
fn group_of(alloc: Global, parts: &[Part]) -> Result<Group, Memory> {
    let mut group = Group::new(alloc);
    for part in parts {
        group.push(access(*part))?;
    }
    Ok(group)
}

/// The script of these items.
pub(crate) fn script_of(alloc: Global, words: &[Words]) -> Result<Script, Memory> {
    let mut script = Script::new(alloc);
    for word in words {
        script.push(match *word {
            Words::One(part) => Item::One(access(part)),
            Words::Locked(parts) => Item::Locked(group_of(alloc, parts)?),
            Words::Idle(clocks) => Item::Idle(clocks),
        })?;
    }
    Ok(script)
}

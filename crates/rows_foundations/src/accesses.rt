//! Accesses: which are lawful, what a flat memory serves, and the lists that agents do and keep.

use fsb_access::{Access, Done, Flat, Group, Item, Log, Operand, Script, Setting, cut, number_put};
use fsb_io::Memory;
use std::alloc::Global;
use std::test::Fail;

const LOAD: Access = Access::Load {
    size: 1,
    addr: 0x40,
};

const INCREMENT: Access = Access::Store {
    size: 1,
    addr: 0x40,
    value: Operand::LastPlus(1),
};

/// A load of so many bytes, or where a number is given a store of it.
fn access(size: u8, addr: u64, stored: Option<Operand>) -> Access {
    match stored {
        None => Access::Load { size, addr },
        Some(value) => Access::Store { size, addr, value },
    }
}

/// The agent, how many bytes it accesses, their address, what it stores, and the value that the access has.
type Served = (u8, u8, u64, Option<Operand>, u64);

/// A byte that is set is loaded, and another one is stored.
const ONE_BYTE: [Served; 2] = [
    (0, 1, 0x40, None, 7),
    (0, 1, 0x41, Some(Operand::Literal(5)), 5),
];

/// The last setting of a byte counts, and a store that adds adds to what its agent loaded last.
const SEVERAL: [Served; 9] = [
    (0, 2, 0x58, None, 0x2ff),
    (1, 1, 0x59, None, 2),
    (0, 1, 0x60, Some(Operand::LastPlus(3)), 2),
    (1, 2, 0x62, Some(Operand::LastPlus(3)), 5),
    (2, 4, 0x64, Some(Operand::LastPlus(0x1_0203)), 0x1_0203),
    (3, 8, 0x60, None, 0x0001_0203_0005_0002),
    (
        3,
        8,
        0x60,
        Some(Operand::LastPlus(u64::MAX)),
        0x0001_0203_0005_0001,
    ),
    (3, 4, 0x60, None, 0x0005_0001),
    (3, 8, 0xf_ffff_fff8, None, 0),
];

/// The addresses and the bytes that are set before, and what is then served.
const MEMORIES: [(&[(u64, u8)], &[Served]); 2] = [
    (&[(0x40, 7)], &ONE_BYTE),
    (&[(0x58, 9), (0x59, 2), (0x58, 0xff)], &SEVERAL),
];

/// A flat memory with these bytes set.
fn memory(alloc: Global, bytes: &[(u64, u8)]) -> Result<Flat, Memory> {
    let mut sets = Vec::new(alloc);
    for &(addr, byte) in bytes {
        sets.push(Setting { addr, byte })?;
    }
    Flat::new(alloc, &sets)
}

/// Whether the access is lawful, and has that value.
fn is_served(flat: &mut Flat, row: &Served) -> bool {
    let &(agent, size, addr, stored, value) = row;
    let access = access(size, addr, stored);
    access.is_lawful() && agent < 4 && flat.serve(agent, &access) == Ok(value)
}

#[test]
fn accesses_served_one_after_the_other(rt: HostRuntime) -> Result<(), Fail> {
    for (bytes, served) in MEMORIES.iter() {
        let mut flat = memory(rt.alloc(), bytes)?;
        for (at, row) in served.iter().enumerate() {
            assert!(rt; is_served(&mut flat, row), "access {at}");
        }
    }
    Ok(())
}

#[test]
fn sums_are_cut_to_the_bytes_put(rt: HostRuntime) {
    assert!(rt; number_put(2, 0xffff, &Operand::LastPlus(3)) == 2);
    assert!(rt; number_put(2, 0xffff, &Operand::Literal(7)) == 7);
    assert!(rt; cut(1, 0x1ff) == 0xff);
}

/// How many bytes are accessed, their address, what is stored, and whether the access is lawful.
type Lawful = (u8, u64, Option<Operand>, bool);

const LAWFUL: [Lawful; 11] = [
    (1, 0x41, None, true),
    (2, 0x41, None, false),
    (3, 0x42, None, false),
    (0, 0x40, None, false),
    (16, 0x40, None, false),
    (8, 0xf_ffff_fff8, None, true),
    (8, 0x10_0000_0000, None, false),
    (2, 0x40, Some(Operand::Literal(0xffff)), true),
    (2, 0x40, Some(Operand::Literal(0x1_0000)), false),
    (1, 0x40, Some(Operand::LastPlus(0x100)), false),
    (8, 0x40, Some(Operand::LastPlus(u64::MAX)), true),
];

/// Whether the access is lawful where the row says so.
fn is_so(row: &Lawful) -> bool {
    let &(size, addr, stored, lawful) = row;
    access(size, addr, stored).is_lawful() == lawful
}

#[test]
fn lawful_accesses(rt: HostRuntime) {
    for (at, row) in LAWFUL.iter().enumerate() {
        assert!(rt; is_so(row), "row {at}");
    }
    let access = access(8, 0x1058, None);
    assert!(rt; access.size() == 8 && access.addr() == 0x1058);
    assert!(rt; access.line() == 0x82 && access.chunk() == 3);
    assert!(rt; Operand::Literal(5).number() == 5);
}

/// A group of a load and a store.
fn pair(alloc: Global) -> Result<Group, Memory> {
    let mut group = Group::new(alloc);
    group.push(LOAD)?;
    group.push(INCREMENT)?;
    Ok(group)
}

/// A script of a locked pair, idle clocks and a load.
fn mixed(alloc: Global) -> Result<Script, Memory> {
    let mut script = Script::new(alloc);
    script.push(Item::Locked(pair(alloc)?))?;
    script.push(Item::Idle(3))?;
    script.push(Item::One(LOAD))?;
    Ok(script)
}

/// Whether these are the items of the script.
fn is_mixed(items: &[Item]) -> bool {
    match items {
        [Item::Locked(group), Item::Idle(3), Item::One(LOAD)] => is_pair(group.as_slice()),
        _ => false,
    }
}

/// Whether these are the accesses of the group.
fn is_pair(accesses: &[Access]) -> bool {
    accesses == [LOAD, INCREMENT].as_slice()
}

#[test]
fn lists_push_and_copy(rt: HostRuntime) -> Result<(), Fail> {
    let copied = pair(rt.alloc())?.copy(rt.alloc())?;
    assert!(rt; is_pair(copied.as_slice()));
    let copied = mixed(rt.alloc())?.copy(rt.alloc())?;
    assert!(rt; is_mixed(copied.as_slice()));
    Ok(())
}

#[test]
fn log_fills_its_room(rt: HostRuntime) -> Result<(), Fail> {
    let done = Done {
        clock: 11,
        agent: 0,
        item: 0,
        part: 0,
        access: LOAD,
        value: 7,
    };
    let both = [done, Done { part: 1, ..done }];
    let mut log = Log::with_room(rt.alloc(), 2)?;
    assert!(rt; log.as_slice().is_empty());
    assert!(rt; log.spare() >= 2);
    log.add(both[0]);
    log.add(both[1]);
    assert!(rt; log.as_slice() == both.as_slice());
    Ok(())
}

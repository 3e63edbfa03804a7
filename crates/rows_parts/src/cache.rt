//! Lines that are filled, loaded from, stored into, shared and dropped.

use crate::rows::expect;
use fsb_cache::{Cache, Mesi};

/// What is done to a cache, with what is expected of it. The bytes of a line are its first two, the others are 0.
#[derive(Clone, Copy)]
enum Step {
    /// The line is filled with these bytes, in this state.
    Fills(u64, [u8; 2], Mesi),
    /// A byte is stored at the address.
    Stores(u64, u8),
    /// The line becomes shared.
    Shares(u64),
    /// The line is dropped, if it is there.
    Drops(u64),
    /// Whether there is room for the line.
    Room(u64, bool),
    /// The line that is in the set of this one.
    Resident(u64, Option<u64>),
    /// The line is not there.
    Lacks(u64),
    /// The line has this state and these bytes.
    Has(u64, Mesi, [u8; 2]),
    /// A load of so many bytes from the line's first one gives this number.
    Loads(u64, u8, u64),
}

/// The bytes of a line that begins with these two and has no others.
fn beginning(first: [u8; 2]) -> [u8; 32] {
    let mut bytes = [0; 32];
    bytes[0] = first[0];
    bytes[1] = first[1];
    bytes
}

/// Whether the line has this state and these bytes.
fn has(cache: &Cache, line: u64, state: Mesi, bytes: [u8; 2]) -> bool {
    cache.state_of(line) == state
        && cache.resident(line) == Some(line)
        && cache.state_of(line).is_held()
        && cache.bytes_of(line) == beginning(bytes)
}

/// Makes the step, where it may be made, and tells whether all is as expected.
fn holds(cache: &mut Cache, step: Step) -> bool {
    match step {
        Step::Fills(line, bytes, state) => {
            let may = state.is_held() && cache.has_room_for(line);
            if may {
                cache.fill(line, beginning(bytes), state);
            }
            may
        }
        Step::Stores(addr, byte) => {
            let may = cache.state_of(addr / 32).is_sole();
            if may {
                cache.store(addr, 1, u64::from(byte));
            }
            may
        }
        Step::Shares(line) => {
            let may = cache.state_of(line).is_held();
            if may {
                cache.downgrade(line);
            }
            may
        }
        Step::Drops(line) => {
            cache.drop_line(line);
            true
        }
        Step::Room(line, room) => cache.has_room_for(line) == room,
        Step::Resident(line, other) => cache.resident(line) == other,
        Step::Lacks(line) => cache.state_of(line) == Mesi::Invalid,
        Step::Has(line, state, bytes) => has(cache, line, state, bytes),
        Step::Loads(line, size, number) => loads(cache, line, size, number),
    }
}

/// Whether a load of so many bytes from the line's first one gives this number.
fn loads(cache: &Cache, line: u64, size: u8, number: u64) -> bool {
    match line.checked_mul(32) {
        Some(addr) => {
            cache.state_of(addr / 32).is_held()
                && matches!(size, 1 | 2 | 4 | 8)
                && cache.load(addr, size) == number
        }
        None => false,
    }
}

/// What is shown, the lines of the cache, and the steps.
const ROWS: [(&str, u32, &[Step]); 3] = [
    (
        "store makes an exclusive line modified",
        4,
        &[
            Step::Lacks(2),
            Step::Fills(2, [7, 0], Mesi::Exclusive),
            Step::Fills(5, [1, 2], Mesi::Shared),
            Step::Has(2, Mesi::Exclusive, [7, 0]),
            Step::Stores(65, 5),
            Step::Has(2, Mesi::Modified, [7, 5]),
            Step::Has(5, Mesi::Shared, [1, 2]),
            Step::Loads(2, 1, 7),
            Step::Loads(2, 2, 0x0507),
            Step::Loads(2, 8, 0x0507),
        ],
    ),
    (
        "set has one line",
        1,
        &[
            Step::Resident(2, None),
            Step::Fills(2, [7, 0], Mesi::Modified),
            Step::Resident(4, Some(2)),
            Step::Lacks(4),
            Step::Room(4, false),
            Step::Drops(4),
            Step::Has(2, Mesi::Modified, [7, 0]),
            Step::Drops(2),
            Step::Lacks(2),
            Step::Resident(4, None),
            Step::Fills(4, [3, 0], Mesi::Exclusive),
            Step::Has(4, Mesi::Exclusive, [3, 0]),
            Step::Lacks(2),
            Step::Resident(2, Some(4)),
        ],
    ),
    (
        "granted line is filled again when its bytes come",
        1024,
        &[
            Step::Fills(1023, [0, 0], Mesi::Modified),
            Step::Room(1023, true),
            Step::Shares(1023),
            Step::Has(1023, Mesi::Shared, [0, 0]),
            Step::Fills(1023, [9, 8], Mesi::Shared),
            Step::Has(1023, Mesi::Shared, [9, 8]),
            Step::Resident(2047, Some(1023)),
            Step::Resident(1022, None),
        ],
    ),
];

#[test]
fn lines_of_a_cache(rt: HostRuntime) {
    for (name, lines, steps) in ROWS {
        assert!(rt; lines.is_power_of_two() && lines <= 1024);
        let mut cache = Cache::new(rt.alloc(), lines).expect(&rt, "out of memory");
        for (i, step) in steps.iter().enumerate() {
            expect(&rt, name, i, holds(&mut cache, *step));
        }
    }
}

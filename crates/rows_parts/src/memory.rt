//! The memory controller: settings make the lines, and what is put changes one of them.

use crate::rows::expect;
use fsb_access::Setting;
use fsb_memory::Controller;

/// A part of a line: the line, the part's place in it, and its bytes.
type Part<'a> = (u64, usize, &'a [u8]);

/// What is shown, the settings and the lines that a memory is made with, and parts of lines that it has then.
type Row<'a> = (&'a str, &'a [Setting], &'a [u64], &'a [Part<'a>]);

/// The setting of a byte at an address.
macro_rules! set {
    ($addr:expr, $byte:expr) => {
        Setting {
            addr: $addr,
            byte: $byte,
        }
    };
}

/// Whether the line has these bytes, from this place on.
fn has(line: [u8; 32], place: usize, bytes: &[u8]) -> bool {
    match line.get(place..) {
        Some(rest) => rest.starts_with(bytes),
        None => false,
    }
}

const ROWS: [Row; 2] = [
    (
        "settings make the lines",
        &[
            set!(0x40, 7),
            set!(0x41, 255),
            set!(0x41, 5),
            set!(0x5f, 1),
            set!(0x60, 2),
            set!(0x40, 9),
        ],
        &[5, 2, 5],
        &[
            (1, 0, &[0; 32]),
            (2, 0, &[9, 5]),
            (2, 2, &[0; 29]),
            (2, 31, &[1]),
            (3, 0, &[2]),
            (3, 1, &[0; 31]),
            (5, 0, &[0; 32]),
            (1 << 31, 0, &[0; 32]),
        ],
    ),
    // A run of settings that crosses lines, later ones before and within it, and the last address of all.
    (
        "later settings win across runs",
        &[
            set!(0x5e, 1),
            set!(0x5f, 2),
            set!(0x60, 3),
            set!(0x61, 4),
            set!(0x5d, 5),
            set!(0x5e, 6),
            set!(0x5f, 7),
            set!(0x60, 8),
            set!(0x5e, 9),
            set!(u64::MAX, 10),
            set!(0, 11),
        ],
        &[],
        &[
            (2, 28, &[0, 5, 9, 7]),
            (3, 0, &[8, 4, 0]),
            (0, 0, &[11]),
            (u64::MAX / 32, 31, &[10]),
        ],
    ),
];

#[test]
fn lines_of_settings(rt: HostRuntime) {
    for (name, sets, lines, parts) in ROWS {
        let memory = Controller::new(rt.alloc(), sets, lines).expect(&rt, "out of memory");
        for (i, (line, place, bytes)) in parts.iter().enumerate() {
            expect(&rt, name, i, has(memory.line(*line), *place, bytes));
        }
    }
}

#[test]
fn put_changes_one_line(rt: HostRuntime) {
    let made = Controller::new(rt.alloc(), &[set!(0x40, 7)], &[2, 3, 9]);
    let mut memory = made.expect(&rt, "out of memory");
    let before = memory.line(2);
    memory.put(3, [1; 32]);
    memory.put(3, [6; 32]);
    expect(&rt, "line beside", 0, memory.line(2) == before);
    memory.put(2, [8; 32]);
    let rows = [(2, [8; 32]), (3, [6; 32]), (4, [0; 32]), (9, [0; 32])];
    for (i, (line, bytes)) in rows.iter().enumerate() {
        expect(&rt, "lines", i, memory.line(*line) == *bytes);
    }
}

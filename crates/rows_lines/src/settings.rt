//! Memory settings, lent in the order in which they came.

use fsb_access::Setting;
use fsb_io::Memory;
use fsb_script::Settings;
use std::alloc::Global;

/// Settings one by one: their addresses and bytes.
static ROWS: [(u64, u8); 10] = [
    (0x40, 1),
    (0x41, 2),
    (0x41, 3),
    (0x40, 4),
    (0x41, 5),
    (0x43, 6),
    (0x42, 7),
    (u64::MAX - 1, 8),
    (u64::MAX, 9),
    (0, 10),
];

/// The settings of the rows.
fn settings_of(alloc: Global) -> Result<Settings, Memory> {
    let mut settings = Settings::new(alloc);
    for (addr, byte) in ROWS.iter() {
        settings.push(Setting {
            addr: *addr,
            byte: *byte,
        })?;
    }
    Ok(settings)
}

/// Whether these are the settings of the rows.
fn are_lent(lent: &[Setting]) -> bool {
    if lent.len() != ROWS.len() {
        return false;
    }
    for (setting, (addr, byte)) in lent.iter().zip(ROWS.iter()) {
        if setting.addr != *addr || setting.byte != *byte {
            return false;
        }
    }
    true
}

/// Settings are lent as they came, also where their addresses follow one another, and at the last address of all.
#[test]
fn settings_in_order(rt: HostRuntime) {
    assert!(rt; Settings::new(rt.alloc()).as_slice().is_empty());
    let settings = settings_of(rt.alloc()).expect(&rt, "out of memory");
    assert!(rt; are_lent(settings.as_slice()));
}

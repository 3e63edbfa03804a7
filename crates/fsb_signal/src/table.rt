ghost use Rattle.std.specs.Prelude.{◌≡◌, ◌≢◌, ◌↔◌, ◌<◌, Some, option_map, slice_get, IfSome, IsNone, All, nat_eq, position};
ghost use Rattle.std.specs.Cmp.Lexicographic.{pointwise};
ghost use Rattle.fsb_signal.specs.Table.{table, table_entry_of, signal_number};

use crate::signal::Signal;

/// The signal table, in its order: the place of an entry is the number of the signal.
pub const SIGNALS: [Signal; 22] = [
    Signal {
        name: "BCLK",
        width: 1,
        needed: true,
    },
    Signal {
        name: "BREQ0_n",
        width: 1,
        needed: true,
    },
    Signal {
        name: "BREQ1_n",
        width: 1,
        needed: false,
    },
    Signal {
        name: "BREQ2_n",
        width: 1,
        needed: false,
    },
    Signal {
        name: "BREQ3_n",
        width: 1,
        needed: false,
    },
    Signal {
        name: "BPRI_n",
        width: 1,
        needed: false,
    },
    Signal {
        name: "LOCK_n",
        width: 1,
        needed: false,
    },
    Signal {
        name: "BNR_n",
        width: 1,
        needed: false,
    },
    Signal {
        name: "ADS_n",
        width: 1,
        needed: true,
    },
    Signal {
        name: "REQ_n",
        width: 5,
        needed: true,
    },
    Signal {
        name: "A_n",
        width: 33,
        needed: true,
    },
    Signal {
        name: "AERR_n",
        width: 1,
        needed: false,
    },
    Signal {
        name: "HIT_n",
        width: 1,
        needed: true,
    },
    Signal {
        name: "HITM_n",
        width: 1,
        needed: true,
    },
    Signal {
        name: "DEFER_n",
        width: 1,
        needed: false,
    },
    Signal {
        name: "RS_n",
        width: 3,
        needed: true,
    },
    Signal {
        name: "TRDY_n",
        width: 1,
        needed: true,
    },
    Signal {
        name: "DBSY_n",
        width: 1,
        needed: true,
    },
    Signal {
        name: "DRDY_n",
        width: 1,
        needed: true,
    },
    Signal {
        name: "D_n",
        width: 64,
        needed: true,
    },
    Signal {
        name: "AP_n",
        width: 2,
        needed: false,
    },
    Signal {
        name: "RP_n",
        width: 1,
        needed: false,
    },
];

/// The entry of this number.
pub fn signal_at(number: u8) -> &'static Signal
    requires { number < 22 }
    ensures { slice_get table number ≡ Some (table_entry_of result.now) }
{
    &SIGNALS[number as usize]
}

/// The number of the signal of this name, or `None` where no entry of the table has the name.
pub fn signal_named(name: &str) -> Option<u8>
    ensures number { result ≡ signal_number name.now }
    ensures found { IfSome result (λ n.
        option_map (λ e. e.name) (slice_get table n) ≡ Some name.now) }
    ensures none { IsNone result ↔ All (λ e. e.name ≢ name.now) table }
{
    let number = place_of(&SIGNALS, name)?;
    Some(number as u8)
}

// The place of the first of the signals with this name.
fn place_of(signals: &[Signal], name: &str) -> Option<usize>
    ensures { result ≡ position (λ s. pointwise nat_eq s.name.now name.now) signals.now }
{
    signals.iter().position(|signal| signal.name == name)
}

use super::{Bad, Good, Mark, Rest, Start};
use fsb_signal::Lines;
use vcd_read::VcdCause;

/// Texts with parity lines that have a first fault: what stands before, the text, how far into the text the fault's place is,
/// and its cause.
pub(crate) static BAD_PARITY: [Bad; 4] = [
    (
        Start::Lines,
        "$var wire 1 5 AP_n $end $enddefinitions $end",
        0,
        VcdCause::Width,
    ),
    (
        Start::Lines,
        "$var wire 2 6 RP_n $end $enddefinitions $end",
        0,
        VcdCause::Width,
    ),
    (Start::Parity, "#4 b111 5", 3, VcdCause::Width),
    (Start::Parity, "#4 b00 6", 3, VcdCause::Width),
];

/// Texts with parity lines that are read: what stands before, the text, and its samples.
pub(crate) static GOOD_PARITY: [Good; 8] = [
    (
        Start::Lines,
        "$var wire 2 5 AP_n $end $var wire 1 6 RP_n $end $enddefinitions $end 0! #5 1!",
        &[(
            Rest::Unknown,
            &[
                Mark::Unknown(Lines::AP0),
                Mark::Unknown(Lines::AP1),
                Mark::Unknown(Lines::RP),
            ],
        )],
    ),
    (
        Start::Lines,
        "$var wire 2 5 AP_n[1:0] $end $enddefinitions $end 0! #5 1!",
        &[(
            Rest::Unknown,
            &[Mark::Unknown(Lines::AP0), Mark::Unknown(Lines::AP1)],
        )],
    ),
    (
        Start::Lines,
        "$var wire 1 6 RP_n $end $enddefinitions $end 0! 06 #5 1!",
        &[(Rest::Unknown, &[Mark::Asserts(Lines::RP)])],
    ),
    (Start::Parity, "#5 1!", &[(Rest::Idle, &[])]),
    (
        Start::Parity,
        "#4 b10 5 06 #5 1!",
        &[(
            Rest::Idle,
            &[Mark::Asserts(Lines::AP0), Mark::Asserts(Lines::RP)],
        )],
    ),
    (
        Start::Parity,
        "#4 b01 5 #5 1!",
        &[(Rest::Idle, &[Mark::Asserts(Lines::AP1)])],
    ),
    (
        Start::Parity,
        "#4 05 #5 1!",
        &[(
            Rest::Idle,
            &[Mark::Asserts(Lines::AP0), Mark::Asserts(Lines::AP1)],
        )],
    ),
    (
        Start::Parity,
        "#4 bx0 5 x6 #5 1!",
        &[(
            Rest::Idle,
            &[
                Mark::Asserts(Lines::AP0),
                Mark::Unknown(Lines::AP1),
                Mark::Unknown(Lines::RP),
            ],
        )],
    ),
];

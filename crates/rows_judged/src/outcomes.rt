//! What each outcome of a request comes with: whether data move, and the response code.

use fsb_trace::{Outcome, code_of, moves};

#[test]
fn outcomes_move_data_and_have_codes(rt: HostRuntime) {
    let table = [
        (Outcome::Granted, true, 0b111),
        (Outcome::Handed, true, 0b110),
        (Outcome::Retried, false, 0b001),
        (Outcome::Deferred, false, 0b010),
        (Outcome::Written, true, 0b101),
        (Outcome::Replied, true, 0b111),
        (Outcome::Failed, false, 0b100),
        (Outcome::Upgraded, false, 0b101),
    ];
    for (outcome, does_move, code) in table {
        assert!(rt; moves(outcome) == does_move);
        assert!(rt; code_of(outcome) == code);
    }
}

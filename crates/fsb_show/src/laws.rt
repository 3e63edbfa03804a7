//! What the lines of a table say of a trace.
ghost use Rattle.std.specs.Prelude.{◌≡◌, ◌*◌, Some};
ghost use Rattle.fsb_encode.specs.declared.request.Request.{Request};
ghost use Rattle.fsb_show.specs.ShowText.{line_address};
ghost use Rattle.fsb_trace.specs.At.{request_at};

use fsb_signal::Sample;

/// The address of a request that a trace shows is 32 times the line that it names.
pub fn addresses_are_those_of_lines(w: &[Sample], clock: u32)
    ensures { (r : Request) → request_at w.now clock ≡ Some r → line_address r ≡ r.line * 32 }
{}

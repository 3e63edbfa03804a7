//! Reasons of the parity rules.

ghost use Rattle.std.specs.Prelude.{◌≡◌};
ghost use Rattle.fsb_signal.specs.declared.marks.Marks.{Marks};
ghost use Rattle.fsb_signal.specs.Samples.{bit_of};
ghost use Rattle.fsb_signal.specs.Parity.{is_low_address_even, is_high_address_even};
ghost use Rattle.fsb_trace.specs.At.{Trace};
ghost use Rattle.fsb_trace.specs.Rules.{has_parity_at, is_marked_address_wrong, is_marked_request_wrong};
ghost use Rattle.fsb_why.specs.Look.{Shows};
ghost use Rattle.fsb_why.specs.Explains.{Explains};

use crate::look::{Look, both};
use fsb_reasons::Reason;
use fsb_signal::{Lines, Sample};

/// 1 where the line is asserted, and 0 where it is not.
fn count(sample: &Sample, line: Lines) -> u32
    ensures { result ≡ bit_of sample.now line }
{
    u32::from(sample.has(line))
}

/// Whether an even number of AP0# and A[23:3]# is asserted.
fn is_low_even(sample: &Sample) -> bool
    ensures { result ≡ is_low_address_even sample.now }
{
    let asserted = (sample.addr.bits % (1 << 21)).count_ones();
    (count(sample, Lines::AP0) + asserted) % 2 == 0
}

/// Whether an even number of AP1# and A[35:24]# is asserted.
fn is_high_even(sample: &Sample) -> bool
    ensures { result ≡ is_high_address_even sample.now }
{
    let asserted = (sample.addr.bits / (1 << 21)).count_ones();
    (count(sample, Lines::AP1) + asserted) % 2 == 0
}

impl Look {
    /// Whether the clock is one of the two clocks of a request, which have parity.
    #[tactic(auto, unfolding(fsb_trace::specs::Rules::has_parity_at))]
    fn has_parity(&self) -> bool
        ensures { (m : Marks) (v : Trace) → Shows self.now m v →
            result ≡ has_parity_at v self.now.clock }
    {
        self.has(Lines::ADS) || self.one_back(Lines::ADS)
    }

    /// Rule 19, address parity.
    pub fn address_parity(&self) -> Option<Reason>
        ensures { (m : Marks) (v : Trace) → Shows self.now m v →
            Explains m v self.now.clock 19 result }
    {
        if self.is_address_wrong() {
            Some(Reason::AddressParity {
                low: !is_low_even(&self.sample),
                high: !is_high_even(&self.sample),
            })
        } else {
            None
        }
    }

    /// Rule 20, request parity.
    pub fn request_parity(&self) -> Option<Reason>
        ensures { (m : Marks) (v : Trace) → Shows self.now m v →
            Explains m v self.now.clock 20 result }
    {
        if self.is_request_wrong() {
            Some(Reason::RequestParity)
        } else {
            None
        }
    }

    /// Whether the dump declares the address parity, and it fails at a clock that has parity.
    fn is_address_wrong(&self) -> bool
        ensures { (m : Marks) (v : Trace) → Shows self.now m v →
            result ≡ is_marked_address_wrong m v self.now.clock }
    {
        let odd = both(self.has_parity(), self.sample.is_address_odd());
        both(self.marks.ap, odd)
    }

    /// Whether the dump declares the request parity, and it fails at a clock that has parity.
    fn is_request_wrong(&self) -> bool
        ensures { (m : Marks) (v : Trace) → Shows self.now m v →
            result ≡ is_marked_request_wrong m v self.now.clock }
    {
        let odd = both(self.has_parity(), self.sample.is_request_odd());
        both(self.marks.rp, odd)
    }
}

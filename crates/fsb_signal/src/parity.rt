//! The parity of the address and of the request.

ghost use Rattle.std.specs.Prelude.{◌≡◌, ◌<◌, ◌^◌, ◌/◌, ◌%◌, ◌+◌};
ghost use Rattle.std.specs.Int.RustNames.{count_ones};
ghost use Rattle.fsb_signal.specs.Samples.{bit_of};
ghost use Rattle.fsb_signal.specs.Parity.{is_low_address_even, is_high_address_even, is_request_even, is_address_odd, is_request_odd};

use crate::lines::Lines;
use crate::sample::Sample;

impl Sample {
    /// Whether the address parity fails: no bit of the address and of AP0# and AP1# is unknown, and an odd number of
    /// AP0# and A[23:3]# is asserted, or of AP1# and A[35:24]#.
    #[tactic(auto, unfolding(crate::specs::Parity::is_address_odd))]
    pub fn is_address_odd(&self) -> bool
        ensures { result ≡ is_address_odd self.now }
    {
        self.addr.is_known()
            && !(self.has_unknown(Lines::AP0) || self.has_unknown(Lines::AP1))
            && !(self.is_low_address_even() && self.is_high_address_even())
    }

    /// Whether the request parity fails: no bit of the request and of ADS# and RP# is unknown, and an odd number of
    /// RP#, ADS# and REQ[4:0]# is asserted.
    #[tactic(auto, unfolding(crate::specs::Parity::is_request_odd))]
    pub fn is_request_odd(&self) -> bool
        ensures { result ≡ is_request_odd self.now }
    {
        self.req.is_known()
            && !(self.has_unknown(Lines::ADS) || self.has_unknown(Lines::RP))
            && !self.is_request_even()
    }

    // Whether an even number of AP0# and A[23:3]# is asserted.
    fn is_low_address_even(&self) -> bool
        ensures { result ≡ is_low_address_even self.now }
    {
        let asserted = (self.addr.bits % (1 << 21)).count_ones();
        (self.count(Lines::AP0) + asserted) % 2 == 0
    }

    // Whether an even number of AP1# and A[35:24]# is asserted.
    fn is_high_address_even(&self) -> bool
        ensures { result ≡ is_high_address_even self.now }
    {
        let asserted = (self.addr.bits / (1 << 21)).count_ones();
        (self.count(Lines::AP1) + asserted) % 2 == 0
    }

    // Whether an even number of RP#, ADS# and REQ[4:0]# is asserted.
    fn is_request_even(&self) -> bool
        ensures { result ≡ is_request_even self.now }
    {
        let asserted = self.req.bits.count_ones();
        (self.count(Lines::RP) + self.count(Lines::ADS) + asserted) % 2 == 0
    }

    // 1 where the line is asserted, and 0 where it is not.
    fn count(&self, line: Lines) -> u32
        ensures { result ≡ bit_of self.now line }
    {
        u32::from(self.has(line))
    }
}

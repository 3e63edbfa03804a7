//! The sample of a clock.

ghost use Rattle.std.specs.Prelude.{◌≡◌, ◌<◌, ◌≤◌, ◌^◌, ◌/◌, ◌%◌, ◌+◌, IfSome, Some, is_some, length, true, not};
ghost use Rattle.std.specs.Int.RustNames.{count_ones};
ghost use Rattle.fsb_count.specs.Options.{is_some_and};
ghost use Rattle.fsb_encode.specs.Request.{is_lawful_request};
ghost use Rattle.fsb_signal.specs.Parity.{is_even};
ghost use Rattle.fsb_bench_view.specs.BusSample.{bits_driven, bits_of, drive_bits, is_asking, is_bridge_asking, is_lock_driven, pair_driven, parity_bits, request_bits, sample_by, snoop_bits};
ghost use Rattle.fsb_bench_view.specs.BusViews.{BusView};
ghost use Rattle.fsb_bench_view.specs.MaySteps.{HasLawfulWords};
ghost use Rattle.fsb_bench_view.specs.declared.beginning.Latest.{Latest as LatestView};
ghost use Rattle.fsb_bench_view.specs.declared.beginning.Starting.{Starting as StartingView};
ghost use Rattle.fsb_bus.specs.Buses.{bus_view};

use crate::bus::Bus;
use crate::lines::bits_of;
use crate::starting::{is_latest_before, want_in};
use fsb_bench_view::{Decided, Latest, Starting};
use fsb_encode::{Pair, encode};
use fsb_hazard::Turn;
use fsb_phase::Drive;
use fsb_signal::{Lines, Sample};
use fsb_trace::Who;

impl Bus {
    /// The sample of the clock, on a bus of this profile.
    pub fn sample(&self, clock: u32, profile: u8, decided: &Decided) -> Sample
        requires words { HasLawfulWords (bus_view self.now) }
        requires starting { (starting : StartingView) → decided.now.starting ≡ Some starting →
            is_lawful_request starting.request ≡ true }
        requires chunk { IfSome decided.now.drive.chunk (λ chunk. chunk.1 < 4) }
        ensures { result ≡ sample_by (bus_view self.now) clock profile decided.now }
    {
        let pair = pair_driven(&self.latest, clock, &decided.starting);
        let bits = self.bits_driven(clock, profile, decided, &pair);
        let data = self.data_driven(&decided.drive);
        Sample::known(Lines(bits_of(&bits)), pair.req, pair.addr, data)
    }

    /// Which control lines are asserted at the clock, in the order of their bits.
    fn bits_driven(&self, clock: u32, profile: u8, decided: &Decided, pair: &Pair) -> [bool; 21]
        ensures bits { result ≡ bits_driven (bus_view self.now) clock profile decided.now pair.now }
        ensures count { length result ≡ 21 }
    {
        let [hit, hitm, defer] = snoop_bits(decided);
        let [rs0, rs1, rs2, trdy, dbsy, drdy] = drive_bits(&decided.drive);
        let [ap0, ap1, rp] = parity_bits(profile, pair, decided.starting.is_some());
        [
            self.is_asking(clock, decided, 0),
            self.is_asking(clock, decided, 1),
            self.is_asking(clock, decided, 2),
            self.is_asking(clock, decided, 3),
            self.is_bridge_asking(clock, decided),
            self.is_lock_driven(&decided.starting),
            decided.hold,
            decided.starting.is_some(),
            decided.cancelled.is_some(),
            hit,
            hitm,
            defer,
            rs0,
            rs1,
            rs2,
            trdy,
            dbsy,
            drdy,
            ap0,
            ap1,
            rp,
        ]
    }

    /// Whether the agent asks for the bus.
    fn is_asking(&self, clock: u32, decided: &Decided, agent: u8) -> bool
        ensures { result ≡ is_asking (bus_view self.now) clock decided.now agent }
    {
        want_in(&decided.asked, agent).is_some() && !self.began(clock, Who::Symmetric(agent))
    }

    /// Whether the bridge asks for the bus.
    fn is_bridge_asking(&self, clock: u32, decided: &Decided) -> bool
        ensures { result ≡ is_bridge_asking (bus_view self.now) clock decided.now }
    {
        decided.asked.due.is_some() && !self.began(clock, Who::Priority)
    }

    /// Whether LOCK# is asserted.
    pub(crate) fn is_lock_driven(&self, starting: &Option<Starting>) -> bool
        ensures { result ≡ is_lock_driven (bus_view self.now) starting.now }
    {
        self.lock.kept.iter().any(|kept| *kept) || begins_lock(starting)
    }
}

/// Whether a locked request begins.
#[tactic(auto, unfolding(fsb_count::specs::Options::is_some_and))]
fn begins_lock(starting: &Option<Starting>) -> bool
    ensures { result ≡ is_some_and starting.now (λ s. s.locked) }
{
    match starting {
        Some(starting) => starting.locked,
        None => false,
    }
}

/// The address and REQ words of the clock.
#[tactic(auto, using(crate::proofs::RequestWords::request_words), unfolding(fsb_timely::specs::Starts::no_pair))]
fn pair_driven(latest: &Option<Latest>, clock: u32, starting: &Option<Starting>) -> Pair
    requires latest { (last : LatestView) → latest.now ≡ Some last →
        is_lawful_request last.request ≡ true }
    requires starting { (first : StartingView) → starting.now ≡ Some first →
        is_lawful_request first.request ≡ true }
    ensures pair { result ≡ pair_driven latest.now clock starting.now }
    ensures req { result.req < 2 ^ 5 }
    ensures addr { result.addr < 2 ^ 33 }
{
    match starting {
        Some(starting) => encode(&starting.request).0,
        None => match latest {
            Some(latest) => {
                if is_latest_before(clock, latest) {
                    encode(&latest.request).1
                } else {
                    Pair { addr: 0, req: 0 }
                }
            }
            None => Pair { addr: 0, req: 0 },
        },
    }
}

/// HIT#, HITM# and DEFER#.
#[tactic(auto, unfolding(fsb_timely::specs::Snoops::is_keep))]
fn snoop_bits(decided: &Decided) -> [bool; 3]
    ensures { result ≡ snoop_bits decided.now }
{
    match &decided.snooped {
        Some(snooped) => [snooped.hit, snooped.hitm, snooped.turn != Turn::Keep],
        None => [decided.drive.stall, decided.drive.stall, false],
    }
}

/// RS0#, RS1#, RS2#, TRDY#, DBSY# and DRDY#.
fn drive_bits(drive: &Drive) -> [bool; 6]
    ensures { result ≡ drive_bits drive.now }
{
    [
        drive.rs % 2 == 1,
        drive.rs / 2 % 2 == 1,
        drive.rs / 4 % 2 == 1,
        drive.trdy,
        drive.dbsy,
        drive.chunk.is_some(),
    ]
}

/// AP0#, AP1# and RP#: in profile 2 they make each count even, and in profile 1 they are not driven.
fn parity_bits(profile: u8, pair: &Pair, ads: bool) -> [bool; 3]
    ensures { result ≡ parity_bits profile pair.now ads }
{
    if profile == 2 {
        [
            !is_even((pair.addr % (1 << 21)).count_ones()),
            !is_even((pair.addr / (1 << 21)).count_ones()),
            !is_even(u32::from(ads) + pair.req.count_ones()),
        ]
    } else {
        [false, false, false]
    }
}

/// Whether a number of lines is even.
fn is_even(count: u32) -> bool
    ensures { result ≡ is_even count }
{
    count % 2 == 0
}

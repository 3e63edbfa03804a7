//! The requests that are outstanding.

ghost use Rattle.std.specs.Prelude.{◌≡◌, ℕ, ◌≤◌, ◌-◌, ◌/◌, true, false, ◌&&◌, not, nat_eq, is_some, is_none, [], ◌∷◌, ◌++◌, length, slice_set, count_by, if◌then◌else◌, Some, None};
ghost use Rattle.std.specs.List.{list_any, filter_map};
ghost use Rattle.fsb_count.specs.Options.{is_before, is_some_and};
ghost use Rattle.fsb_signal.specs.declared.lines.TheConstants.Lines.{ADS};
ghost use Rattle.fsb_signal.specs.declared.sample.Sample.{Sample};
ghost use Rattle.fsb_signal.specs.Samples.{has_line};
ghost use Rattle.fsb_trace.specs.At.{Trace};
ghost use Rattle.fsb_trace.specs.Requests.{is_reply_kind, live_number_of};
ghost use Rattle.fsb_trace.specs.Outcome.{is_deferred};
ghost use Rattle.fsb_trace.specs.Flight.{reply_clock_of};
ghost use Rattle.fsb_trace.specs.Rules.{is_begun_wrongly};
ghost use Rattle.fsb_laws.specs.Leaving.{ends_at};
ghost use Rattle.fsb_laws.specs.OneMore.{cancels};
ghost use Rattle.fsb_rules.specs.Checker.{WasBegun};
ghost use Rattle.fsb_rules.specs.Outstanding.{kept_at, left_in, AreKept, Happens, Takes, OutstandingStands};

use crate::live::{Ended, LiveRequest};
use arrayvec::ArrayVec;

/// An outstanding request, from its second clock on. It is no reply.
#[derive(Clone, Copy, Default, Debug, PartialEq, Eq)]
pub struct Open {
    /// Its first clock.
    clock: u32,
    /// Its deferred ID.
    did: u8,
    /// The clock of its response, where it is Deferred.
    deferred: Option<u32>,
    /// The first clock of the live reply to it.
    reply: Option<u32>,
}

/// The outstanding requests, in order: at most four of each symmetric agent.
#[derive(Debug, Drop)]
pub struct Outstanding {
    /// Those that are outstanding now.
    current: ArrayVec<Open, 16>,
    /// Those that were outstanding when the last request began.
    before: ArrayVec<Open, 16>,
}

/// What happens to requests with a sample.
#[derive(Clone, Copy, Debug, PartialEq, Eq)]
pub struct Happened {
    /// The clock.
    pub clock: u32,
    /// The first clock of the request that is cancelled.
    pub cancelled: Option<u32>,
    /// The request that ends.
    pub ended: Option<Ended>,
    /// The request whose second clock the sample is.
    pub begun: Option<LiveRequest>,
}

/// Whether there is such a clock, and it lies before this one.
#[tactic(auto, unfolding(fsb_count::specs::Options::is_before, fsb_count::specs::Options::is_some_and))]
fn is_before(clock: Option<u32>, other: u32) -> bool
    ensures { result ≡ is_before clock other }
{
    match clock {
        Some(clock) => clock < other,
        None => false,
    }
}

/// Whether a reply is begun.
#[tactic(auto, unfolding(fsb_count::specs::Options::is_some_and))]
fn is_reply(begun: Option<LiveRequest>) -> bool
    ensures { result ≡ is_some_and begun (λ a. is_reply_kind a.kind) }
{
    match begun {
        Some(request) => request.is_reply(),
        None => false,
    }
}

impl Happened {
    /// Whether no request is cancelled or ends, and no reply is begun.
    fn is_quiet(&self) -> bool
        ensures { result ≡ (is_none self.now.cancelled && is_none self.now.ended
            && not (is_some_and self.now.begun (λ a. is_reply_kind a.kind))) }
    {
        self.cancelled.is_none() && self.ended.is_none() && !is_reply(self.begun)
    }

    /// Whether the request that begins at the clock is cancelled.
    #[tactic(auto, unfolding(fsb_count::specs::Options::is_at, fsb_count::specs::Options::is_some_and))]
    fn cancels(&self, clock: u32) -> bool
        ensures { (h : Trace) (x : Sample) (v : Trace) → Happens h x v self.now →
            result ≡ cancels x (length h) clock }
    {
        match self.cancelled {
            Some(cancelled) => cancelled == clock,
            None => false,
        }
    }

    /// Whether the request that begins at the clock ends.
    #[tactic(auto, unfolding(fsb_count::specs::Options::is_some_and))]
    fn ends(&self, clock: u32) -> bool
        ensures { (h : Trace) (x : Sample) (v : Trace) → Happens h x v self.now →
            result ≡ ends_at v (length h) clock }
    {
        match self.ended {
            Some(ended) => ended.request.clock == clock,
            None => false,
        }
    }

    /// Whether the request that ends is Deferred.
    #[tactic(auto, unfolding(fsb_count::specs::Options::is_some_and))]
    fn defers(&self) -> bool
        ensures { (h : Trace) (x : Sample) (v : Trace) → Happens h x v self.now →
            (q : ℕ) → ends_at v (length h) q ≡ true → result ≡ is_deferred v (live_number_of v q) }
    {
        match self.ended {
            Some(ended) => ended.is_deferred,
            None => false,
        }
    }

    /// Whether there is such a reply, and it ends.
    #[tactic(auto, unfolding(fsb_count::specs::Options::is_some_and))]
    fn ends_reply(&self, reply: Option<u32>) -> bool
        ensures { (h : Trace) (x : Sample) (v : Trace) → Happens h x v self.now →
            result ≡ is_some_and reply (ends_at v (length h)) }
    {
        match reply {
            Some(clock) => self.ends(clock),
            None => false,
        }
    }

    /// The request that is begun, as it is kept, if it is no reply.
    fn opened(&self) -> Option<Open>
        ensures { (h : Trace) (x : Sample) (v : Trace) → Happens h x v self.now →
            result ≡ kept_at v (length h - 1) }
    {
        match self.begun {
            Some(request) => {
                if request.is_reply() {
                    None
                } else {
                    Some(Open {
                        clock: request.clock,
                        did: request.did,
                        deferred: None,
                        reply: None,
                    })
                }
            }
            None => None,
        }
    }
}

impl Open {
    /// Whether a reply to it is begun, where it is Deferred.
    #[tactic(auto, unfolding(fsb_count::specs::Options::is_some_and))]
    fn is_replied(&self, happened: &Happened) -> bool
        ensures { result ≡ is_some_and happened.now.begun
            (λ a. is_reply_kind a.kind && is_before self.now.deferred a.clock
            && nat_eq self.now.did a.did) }
    {
        match happened.begun {
            Some(request) => {
                request.is_reply()
                    && is_before(self.deferred, request.clock)
                    && self.did == request.did
            }
            None => false,
        }
    }

    /// The first clock of its reply after what happens, where it is Deferred.
    fn reply_after(&self, happened: &Happened) -> Option<u32>
        ensures { (h : Trace) (x : Sample) (v : Trace) → Happens h x v happened.now →
            kept_at h self.now.clock ≡ Some self.now → is_some self.now.deferred ≡ true →
            result ≡ reply_clock_of v (live_number_of h self.now.clock) }
    {
        match self.reply {
            Some(clock) => {
                if happened.cancels(clock) {
                    None
                } else {
                    Some(clock)
                }
            }
            None => {
                if self.is_replied(happened) {
                    Some(happened.clock.saturating_sub(1))
                } else {
                    None
                }
            }
        }
    }

    /// What is left of it after what happens.
    fn after(&self, happened: &Happened) -> Option<Open>
        ensures { (h : Trace) (x : Sample) (v : Trace) → Happens h x v happened.now →
            kept_at h self.now.clock ≡ Some self.now → result ≡ left_in v self.now }
    {
        if happened.cancels(self.clock) {
            None
        } else if self.deferred.is_some() {
            self.after_deferral(happened)
        } else if !happened.ends(self.clock) {
            Some(*self)
        } else if happened.defers() {
            Some(Open {
                clock: self.clock,
                did: self.did,
                deferred: Some(happened.clock),
                reply: None,
            })
        } else {
            None
        }
    }

    /// What is left of it after what happens, where it is Deferred.
    fn after_deferral(&self, happened: &Happened) -> Option<Open>
        ensures { (h : Trace) (x : Sample) (v : Trace) → Happens h x v happened.now →
            kept_at h self.now.clock ≡ Some self.now → is_some self.now.deferred ≡ true →
            cancels x (length h) self.now.clock ≡ false → result ≡ left_in v self.now }
    {
        if happened.ends_reply(self.reply) {
            None
        } else {
            Some(Open {
                clock: self.clock,
                did: self.did,
                deferred: self.deferred,
                reply: self.reply_after(happened),
            })
        }
    }

    /// Makes it what is left of it after what happens, and tells whether something is.
    fn keep(&mut self, happened: &Happened) -> bool
        ensures { (h : Trace) (x : Sample) (v : Trace) → Happens h x v happened.now →
            kept_at h self.old.clock ≡ Some self.old →
            (if result then Some self.new else None) ≡ left_in v self.old }
    {
        match self.after(happened) {
            Some(left) => {
                *self = left;
                true
            }
            None => false,
        }
    }
}

/// Whether one of them awaits a reply with this ID.
fn is_awaited(opens: &[Open], did: u8) -> bool
    ensures { result
        ≡ list_any (λ o. nat_eq o.did did && is_some o.deferred && is_none o.reply) opens.now }
{
    opens.iter().any(|open| open.did == did && open.deferred.is_some() && open.reply.is_none())
}

/// Whether one of them has this ID.
fn is_taken(opens: &[Open], did: u8) -> bool
    ensures { result ≡ list_any (λ o. nat_eq o.did did) opens.now }
{
    opens.iter().any(|open| open.did == did)
}

/// How many of them are of this agent.
fn count_of(opens: &[Open], agent: u8) -> usize
    ensures { result ≡ count_by (λ o. nat_eq (o.did / 16) agent) opens.now }
{
    opens.iter().filter(|open| open.did / 16 == agent).count()
}

/// Makes the one list a copy of the other.
fn copy_into(copy: &mut ArrayVec<Open, 16>, opens: &[Open])
    requires { length opens.now ≤ 16 }
    ensures { copy.new.items ≡ opens.now }
{
    copy.clear();
    for open in opens {
        copy.push(*open);
    }
}

impl Outstanding {
    /// No request yet.
    pub fn new() -> Outstanding
        ensures { OutstandingStands result [] }
    {
        Outstanding {
            current: ArrayVec::new(),
            before: ArrayVec::new(),
        }
    }

    /// Rule 18, deferred IDs and outstanding requests, for the request that began one clock back.
    pub fn is_begun_wrongly(&self, request: &LiveRequest) -> bool
        ensures { (h : Trace) (x : Sample) → WasBegun self.now h x request.now →
            result ≡ is_begun_wrongly (h ++ x ∷ []) (length h - 1) }
    {
        let before = self.before.as_slice();
        if request.is_reply() {
            !is_awaited(before, request.did)
        } else {
            is_taken(before, request.did) || count_of(before, request.did / 16) >= 4
        }
    }

    /// Lets what happens pass over those that are outstanding; at most clocks nothing does.
    fn pass(&mut self, happened: &Happened)
        ensures current { (h : Trace) (x : Sample) (v : Trace) → Happens h x v happened.now →
            AreKept h self.old.current.items →
            self.new.current.items ≡ filter_map (left_in v) self.old.current.items }
        ensures before { self.new.before.items ≡ self.old.before.items }
    {
        if !happened.is_quiet() {
            self.current.retain(|open| open.keep(happened));
        }
    }

    /// Remembers those that are outstanding, where a request begins.
    fn remember(&mut self, begins: bool)
        ensures current { self.new.current.items ≡ self.old.current.items }
        ensures before { self.new.before.items
            ≡ (if begins then self.old.current.items else self.old.before.items) }
    {
        if begins {
            copy_into(&mut self.before, self.current.as_slice());
        }
    }

    /// Takes what happens with a sample, with which a request begins or does not.
    pub fn absorb(&mut self, happened: &Happened, begins: bool)
        requires { (h : Trace) × (x : Sample) × Takes self.old h x happened.now }
        ensures { (h : Trace) (x : Sample) → Takes self.old h x happened.now →
            begins ≡ has_line x ADS → OutstandingStands self.new (h ++ x ∷ []) }
    {
        self.remember(begins);
        self.pass(happened);
        match happened.opened() {
            Some(open) => self.current.push(open),
            None => {}
        }
    }
}

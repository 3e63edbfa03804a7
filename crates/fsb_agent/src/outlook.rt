//! What an agent looks ahead to, and what it wants by that.

ghost use Rattle.std.specs.Prelude.{◌≡◌, false, length, nat_le};
ghost use Rattle.fsb_agent_view.specs.AgentViews.{is_finished_at};
ghost use Rattle.fsb_agent_view.specs.Sound.{IsSound};
ghost use Rattle.fsb_agent_view.specs.Wanting.{is_silent_by, may_send, sent, sets_cleared_for, want_by};
ghost use Rattle.fsb_agent.specs.Outlooks.{IsKnown, IsOutlookOf, is_next_served, next_want};
ghost use Rattle.fsb_agent.specs.Parts.{parts_view};

use crate::outs::numbered;
use crate::parts::Parts;
use fsb_agent_view::{OwnRequest, Want};
use fsb_cache::Cache;

/// What an agent looks ahead to. It changes with its cache, its fills, its outstanding requests and
/// its next item alone.
#[derive(Clone, Copy, Debug, PartialEq, Eq)]
pub(crate) struct Outlook {
    /// Whether each line of its next item serves.
    pub(crate) ready: bool,
    /// What it wants at a clock at which it does not idle and no item is completed.
    pub(crate) want: Option<Want>,
}

impl Parts {
    /// Whether it has as many requests outstanding as it may.
    fn is_full(&self) -> bool
        ensures { result ≡ nat_le self.now.ahead (length self.now.outs.items) }
    {
        usize::from(self.ahead) <= self.outs.len()
    }

    /// Whether it may ask for nothing at the clock.
    fn is_silent(&self, clock: u32) -> bool
        ensures { result ≡ is_silent_by (parts_view self.now) clock }
    {
        self.is_idle(clock) || self.is_full()
    }

    /// What it wants at a clock at which it does not idle and no item is completed.
    fn next_want(&self) -> Option<Want>
        requires { IsSound (parts_view self.now) }
        ensures { result ≡ next_want (parts_view self.now) }
    {
        if self.is_full() {
            None
        } else {
            self.look_ahead(self.place)
        }
    }

    /// Its outlook, where its next item serves or not.
    pub(crate) fn outlook(&self, ready: bool) -> Outlook
        requires sound { IsSound (parts_view self.now) }
        requires ready { ready ≡ is_next_served (parts_view self.now) }
        ensures { IsOutlookOf (parts_view self.now) result }
    {
        Outlook {
            ready,
            want: self.next_want(),
        }
    }

    /// Whether each line of its next item serves, by the outlook if there is one.
    pub(crate) fn is_ready(&self, outlook: &Option<Outlook>) -> bool
        requires { IsKnown (parts_view self.now) outlook.now }
        ensures { result ≡ is_next_served (parts_view self.now) }
    {
        match outlook {
            Some(outlook) => outlook.ready,
            None => self.is_next_served(),
        }
    }

    /// What it wants at the clock, found anew.
    fn want_anew(&self, clock: u32) -> Option<Want>
        requires { IsSound (parts_view self.now) }
        ensures { result ≡ want_by (parts_view self.now) clock }
    {
        if self.is_silent(clock) {
            None
        } else {
            self.look_ahead(self.number_at(clock))
        }
    }

    /// What it wants by its outlook at a clock at which no item is completed.
    fn want_foreseen(&self, outlook: &Outlook, clock: u32) -> Option<Want>
        requires outlook { IsOutlookOf (parts_view self.now) outlook.now }
        requires unfinished { is_finished_at self.now.finished clock ≡ false }
        ensures { result ≡ want_by (parts_view self.now) clock }
    {
        if self.is_idle(clock) {
            None
        } else {
            outlook.want
        }
    }

    /// What it wants at the clock, by the outlook if there is one. At a clock at which an item is
    /// completed that is still its item, and not the next one of the outlook.
    pub(crate) fn want(&self, outlook: &Option<Outlook>, clock: u32) -> Option<Want>
        requires sound { IsSound (parts_view self.now) }
        requires known { IsKnown (parts_view self.now) outlook.now }
        ensures { result ≡ want_by (parts_view self.now) clock }
    {
        match outlook {
            Some(outlook) if !self.is_finished_at(clock) => self.want_foreseen(outlook, clock),
            _ => self.want_anew(clock),
        }
    }

    /// Whether it may send its want with this number.
    pub(crate) fn may_send(&self, outlook: &Option<Outlook>, clock: u32, number: u32) -> bool
        requires sound { IsSound (parts_view self.now) }
        requires known { IsKnown (parts_view self.now) outlook.now }
        ensures { result ≡ may_send (parts_view self.now) clock number }
    {
        self.want(outlook, clock).is_some() && numbered(&self.outs, number).is_none()
    }

    /// Its want begins as the request of this number.
    pub(crate) fn sent(&mut self, outlook: &Option<Outlook>, clock: u32, number: u32)
        requires sound { IsSound (parts_view self.old) }
        requires known { IsKnown (parts_view self.old) outlook.now }
        ensures { parts_view self.new ≡ sent (parts_view self.old) clock number }
    {
        if let Some(want) = self.want(outlook, clock) {
            clear_for(&mut self.hand.cache, want.request.line);
            self.outs.push(OwnRequest {
                number,
                request: want.request,
                granted: false,
                kept: None,
            });
        }
    }
}

/// Drops what the line's set has, where that is another line.
fn clear_for(cache: &mut Cache, line: u64)
    ensures { cache.new ≡ sets_cleared_for cache.old line }
{
    match cache.resident(line) {
        Some(other) if other != line => cache.drop_line(other),
        _ => {}
    }
}

ghost use Rattle.std.specs.Prelude.{◌≡◌, is_some};
ghost use Rattle.fsb_cache.specs.Sets.{held_at};
ghost use Rattle.fsb_agent_view.specs.AgentViews.{has_come, is_finished_at, is_held_as, is_idle_by, is_ready_for, line_state_by, may_complete, number_by};
ghost use Rattle.fsb_agent.specs.Parts.{parts_view};

use crate::hand::Hand;
use crate::outs::Outs;
use fsb_access::Script;
use fsb_agent_view::Finished;
use fsb_line::Mesi;
use fsb_linebuf::LineBuffers;

/// What an agent keeps.
#[derive(Drop)]
pub(crate) struct Parts {
    pub(crate) number: u8,
    pub(crate) script: Script,
    /// How many requests it may have outstanding.
    pub(crate) ahead: u8,
    /// The profile of the bus.
    pub(crate) profile: u8,
    /// Its cache and its last value.
    pub(crate) hand: Hand,
    pub(crate) buffers: LineBuffers,
    /// Its outstanding requests.
    pub(crate) outs: Outs,
    /// The number of its next item.
    pub(crate) place: usize,
    /// The clock up to which it idles.
    pub(crate) idle_to: u64,
    /// The item that it completed last.
    pub(crate) finished: Option<Finished>,
}

impl Parts {
    /// The state of a line.
    pub(crate) fn state_of(&self, line: u64) -> Mesi
        ensures { result ≡ line_state_by (parts_view self.now) line }
    {
        self.hand.cache.state_of(line)
    }

    /// Whether the cache has the line.
    pub(crate) fn has_line(&self, line: u64) -> bool
        ensures { result ≡ is_some (held_at self.now.hand.cache line) }
    {
        match self.hand.cache.resident(line) {
            Some(other) => other == line,
            None => false,
        }
    }

    /// Whether no bytes of the line are on their way.
    pub(crate) fn has_come(&self, line: u64) -> bool
        ensures { result ≡ has_come (parts_view self.now) line }
    {
        self.buffers.fill_on(line).is_none()
    }

    /// Whether the agent holds the line, and has it alone where that is needed.
    pub(crate) fn is_held_as(&self, line: u64, alone: bool) -> bool
        ensures { result ≡ is_held_as (parts_view self.now) line alone }
    {
        let state = self.state_of(line);
        state.is_held() && (!alone || state.is_sole())
    }

    /// Whether the agent has the line as it is needed, and its bytes have come.
    pub(crate) fn is_ready_for(&self, line: u64, alone: bool) -> bool
        ensures { result ≡ is_ready_for (parts_view self.now) line alone }
    {
        self.is_held_as(line, alone) && self.has_come(line)
    }

    /// Whether an item was completed at the clock.
    pub(crate) fn is_finished_at(&self, clock: u32) -> bool
        ensures { result ≡ is_finished_at self.now.finished clock }
    {
        match self.finished {
            Some(last) => last.clock == clock,
            None => false,
        }
    }

    /// Whether the agent idles at the clock.
    pub(crate) fn is_idle(&self, clock: u32) -> bool
        ensures { result ≡ is_idle_by (parts_view self.now) clock }
    {
        !self.is_finished_at(clock) && u64::from(clock) < self.idle_to
    }

    /// Whether the agent may complete its next item at the clock.
    pub(crate) fn may_complete(&self, clock: u32) -> bool
        ensures { result ≡ may_complete (parts_view self.now) clock }
    {
        !self.is_finished_at(clock) && self.idle_to <= u64::from(clock)
    }

    /// The number of its item at the clock.
    pub(crate) fn number_at(&self, clock: u32) -> usize
        ensures { result ≡ number_by (parts_view self.now) clock }
    {
        match self.finished {
            Some(last) if last.clock == clock => last.item,
            _ => self.place,
        }
    }
}

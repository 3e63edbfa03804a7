ghost use Rattle.std.specs.Prelude.{◌≡◌, ◌+◌, ◌≤◌, ℕ, List, [], ◌||◌, false, length, map, not};
ghost use Rattle.std.specs.List.{find, list_any};
ghost use Rattle.fsb_cache.specs.Sets.{is_one_set};
ghost use Rattle.std.specs.Option.{option_map};
ghost use Rattle.fsb_line.specs.States.{is_modified};
ghost use Rattle.fsb_trace.specs.Requests.{is_upgrade_kind};
ghost use Rattle.fsb_timely.specs.Scripts.{locked_need, needs_from, plain_items};
ghost use Rattle.fsb_agent_view.specs.AgentViews.{line_state_by};
ghost use Rattle.fsb_agent_view.specs.Idling.{is_idle_item};
ghost use Rattle.fsb_agent_view.specs.Sound.{IsSound};
ghost use Rattle.fsb_agent_view.specs.Wanting.{free_id_by, is_id_used_by, is_missing_by, is_taken_by, kind_by, victim_by, want_for_by};
ghost use Rattle.fsb_agent.specs.Outlooks.{looked_ahead};
ghost use Rattle.fsb_agent.specs.Parts.{need_after, parts_view};

use crate::need::LineNeed;
use crate::parts::Parts;
use arrayvec::ArrayVec;
use fsb_access::{Access, Item};
use fsb_agent_view::Want;
use fsb_cache::Cache;
use fsb_encode::{Kind, Request};
use fsb_line::Mesi;

impl Parts {
    /// Whether the line's set is that of an outstanding request.
    fn is_set_asked(&self, line: u64) -> bool
        ensures { result ≡ list_any
            (λ out. is_one_set self.now.hand.cache line out.request.line) self.now.outs.items }
    {
        self.outs
            .iter()
            .any(|out| self.hand.cache.is_one_set(line, out.request.line))
    }

    /// Whether the line's set is that of an outstanding request, or of one of these lines.
    fn is_taken(&self, earlier: &[u64], line: u64) -> bool
        ensures { result ≡ is_taken_by (parts_view self.now) earlier.now line }
    {
        self.is_set_asked(line) || is_set_among(&self.hand.cache, earlier, line)
    }

    /// Whether it may ask for the needed line, after items with these lines. One that it has asked
    /// for already has its set taken.
    fn is_missing(&self, earlier: &[u64], need: &LineNeed) -> bool
        ensures { result ≡ is_missing_by (parts_view self.now) (need_after earlier.now need.now) }
    {
        !self.is_held_as(need.line, need.alone) && !self.is_taken(earlier, need.line)
    }

    /// Whether it has the line Modified.
    fn is_modified(&self, line: u64) -> bool
        ensures { result ≡ is_modified (line_state_by (parts_view self.now) line) }
    {
        self.state_of(line) == Mesi::Modified
    }

    /// The line that has to be written back before this one is asked for.
    fn victim(&self, line: u64) -> Option<u64>
        requires { IsSound (parts_view self.now) }
        ensures { result ≡ victim_by (parts_view self.now) line }
    {
        let other = self.hand.cache.resident(line)?;
        if other != line && self.is_modified(other) {
            Some(other)
        } else {
            None
        }
    }

    /// Whether an outstanding request has the ID.
    fn is_id_used(&self, did: u8) -> bool
        ensures { result ≡ is_id_used_by (parts_view self.now) did }
    {
        self.outs.iter().any(|out| out.request.did == did)
    }

    /// Its ID with the least number that no outstanding request has.
    fn free_id(&self) -> u8
        requires { IsSound (parts_view self.now) }
        ensures { result ≡ free_id_by (parts_view self.now) }
    {
        let first = self.number * 16;
        for n in 0..self.outs.len() as u8 + 1 {
            if !self.is_id_used(first + n) {
                return first + n;
            }
        }
        0
    }

    /// The kind of request for a needed line.
    fn kind_for(&self, need: &LineNeed) -> Kind
        ensures { (earlier : List ℕ) →
            result ≡ kind_by (parts_view self.now) (need_after earlier need.now) }
    {
        if !need.alone {
            Kind::Read
        } else if self.profile == 2 && self.state_of(need.line).is_held() {
            Kind::Upgrade
        } else {
            Kind::Invalidate
        }
    }

    /// What it wants for a need: the line, or first the write-back of its victim.
    fn want_for(&self, need: &LineNeed) -> Want
        requires { IsSound (parts_view self.now) }
        ensures { (earlier : List ℕ) →
            result ≡ want_for_by (parts_view self.now) (need_after earlier need.now) }
    {
        let did = self.free_id();
        match self.victim(need.line) {
            Some(line) => Want {
                request: Request {
                    kind: Kind::WriteBack,
                    line,
                    chunk: 0,
                    did,
                    den: false,
                },
                locked: false,
            },
            None => {
                let kind = self.kind_for(need);
                Want {
                    request: Request {
                        kind,
                        line: need.line,
                        chunk: need.chunk,
                        did,
                        den: may_be_deferred(need.locked, kind),
                    },
                    locked: need.locked,
                }
            }
        }
    }

    /// What it wants for these accesses of a locked item.
    fn want_among(&self, group: &[Access], accesses: &[Access]) -> Option<Want>
        requires { IsSound (parts_view self.now) }
        ensures { let v = parts_view self.now in
            result ≡ option_map (want_for_by v)
            (find (is_missing_by v) (map (locked_need [] group.now) accesses.now)) }
    {
        match accesses {
            [] => None,
            [access, others @ ..] => {
                let need = LineNeed::locked(group, access);
                if self.is_missing(&[], &need) {
                    Some(self.want_for(&need))
                } else {
                    self.want_among(group, others)
                }
            }
        }
    }

    /// What it wants for the plain items in front, as many as said, after items with these lines.
    fn want_from(&self, earlier: &mut ArrayVec<u64, 4>, more: u8, items: &[Item]) -> Option<Want>
        requires sound { IsSound (parts_view self.now) }
        requires room { length earlier.old.items + more ≤ 4 }
        ensures { let v = parts_view self.now in
            result ≡ option_map (want_for_by v)
            (find (is_missing_by v) (needs_from earlier.old.items (plain_items more items.now))) }
    {
        if more == 0 {
            return None;
        }
        if items.is_empty() {
            return None;
        }
        match &items[0] {
            Item::Locked(_) => None,
            Item::Idle(_) => None,
            Item::One(access) => {
                let need = LineNeed::plain(access);
                if self.is_missing(earlier.as_slice(), &need) {
                    Some(self.want_for(&need))
                } else {
                    earlier.push(need.line);
                    self.want_from(earlier, more - 1, &items[1..])
                }
            }
        }
    }

    /// What it wants for the window that begins with this item, which is no idle one.
    pub(crate) fn look_ahead(&self, number: usize) -> Option<Want>
        requires sound { IsSound (parts_view self.now) }
        requires busy { is_idle_item self.now.script number ≡ false }
        ensures { result ≡ looked_ahead (parts_view self.now) number }
    {
        let items = self.script.as_slice();
        if items.len() <= number {
            return None;
        }
        match &items[number] {
            Item::Locked(group) => self.want_among(group.as_slice(), group.as_slice()),
            Item::One(_) => self.want_from(&mut ArrayVec::new(), self.ahead, &items[number..]),
            Item::Idle(_) => None,
        }
    }
}

/// Whether DEN# says that a request of this kind may be deferred: it is neither for a locked item
/// nor an upgrade.
#[tactic(auto, unfolding(fsb_trace::specs::Requests::is_upgrade_kind))]
fn may_be_deferred(locked: bool, kind: Kind) -> bool
    ensures { result ≡ not (locked || is_upgrade_kind kind) }
{
    !locked && kind != Kind::Upgrade
}

/// Whether the line's set is that of one of these lines.
fn is_set_among(cache: &Cache, lines: &[u64], line: u64) -> bool
    ensures { result ≡ list_any (is_one_set cache.now line) lines.now }
{
    lines.iter().any(|other| cache.is_one_set(line, *other))
}

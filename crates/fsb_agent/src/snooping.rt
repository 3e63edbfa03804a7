ghost use Rattle.std.specs.Prelude.{◌≡◌, ◌<◌, IsTrue, true, None};
ghost use Rattle.fsb_cache.specs.Sets.{Has};
ghost use Rattle.fsb_line.specs.States.{asks_line, is_held};
ghost use Rattle.fsb_linebuf.specs.Buffers.{promise_on};
ghost use Rattle.fsb_agent_view.specs.Snooping.{buffers_giving, committed, granted_by, is_handed, kind_asks, may_be_settled, may_commit, may_settle, other_settled, own_committed, owed_count, sets_lowered, state_snooped, upgraded_by, written_by};
ghost use Rattle.fsb_agent_view.specs.Sound.{IsSound};
ghost use Rattle.fsb_agent.specs.Parts.{IsGrantable, parts_view, won_by};

use crate::outs::{grant, numbered};
use crate::parts::Parts;
use fsb_agent_view::OwnRequest;
use fsb_cache::Cache;
use fsb_encode::{Kind, Request};
use fsb_line::{Mesi, Purpose};
use fsb_trace::Outcome;

/// What a request of this kind asks of a line. A reply asks nothing of the others.
pub(crate) fn kind_asks(kind: Kind) -> Purpose
    ensures { result ≡ kind_asks kind }
{
    match kind {
        Kind::Reply | Kind::WriteBack => Purpose::WriteBack,
        Kind::Invalidate => Purpose::Own,
        Kind::Read => Purpose::Read,
        Kind::Upgrade => Purpose::Upgrade,
    }
}

/// Whether a request of this purpose asks for a line.
fn asks_line(purpose: Purpose) -> bool
    ensures { result ≡ asks_line purpose }
{
    purpose != Purpose::WriteBack
}

/// Whether the line is handed over with this outcome.
fn is_handed(outcome: Outcome) -> bool
    ensures { result ≡ is_handed outcome }
{
    outcome == Outcome::Handed
}

/// The state of a line after the snoop end of another agent's request; a reply changes nobody
/// else's.
fn state_snooped(state: Mesi, kind: Kind, outcome: Outcome) -> Mesi
    ensures { result ≡ state_snooped state kind outcome }
{
    match outcome {
        Outcome::Replied => state,
        _ => state.after_snoop(kind_asks(kind)),
    }
}

/// Whether a write-back may be settled as this, with its line in this state.
fn may_be_settled(outcome: Outcome, state: Mesi) -> bool
    ensures { result ≡ may_be_settled outcome state }
{
    match outcome {
        Outcome::Written => state == Mesi::Modified,
        _ => true,
    }
}

/// Lowers the line to this state.
fn lower(cache: &mut Cache, line: u64, state: Mesi)
    requires { state ≡ Mesi.Shared → Has cache.old line }
    ensures { cache.new ≡ sets_lowered cache.old line state }
{
    match state {
        Mesi::Invalid => cache.drop_line(line),
        Mesi::Shared => cache.downgrade(line),
        Mesi::Exclusive | Mesi::Modified => {}
    }
}

impl Parts {
    /// Gets the line of a request without its bytes, and keeps those that are there of an upgrade.
    fn win(&mut self, out: &OwnRequest, state: Mesi, bytes: [u8; 32], kept: Option<[u8; 32]>)
        requires grantable { IsGrantable (parts_view self.old) out.now }
        requires held { IsTrue (is_held state) }
        ensures { parts_view self.new ≡ won_by (parts_view self.old) out.now state bytes kept }
    {
        let line = out.request.line;
        self.hand.cache.fill(line, bytes, state);
        self.buffers.begin_fill(line, out.number);
        grant(&mut self.outs, out.number, kept);
    }

    /// Gets the line of its request, without its bytes.
    fn granted(&mut self, out: &OwnRequest, shared: bool)
        requires { IsGrantable (parts_view self.old) out.now }
        ensures { parts_view self.new ≡ granted_by (parts_view self.old) out.now shared }
    {
        let purpose = kind_asks(out.request.kind);
        if asks_line(purpose) {
            self.win(out, Mesi::granted(purpose, shared), [0; 32], None);
        }
    }

    /// Its upgrade ends without data: where it still holds the line it has won.
    fn upgrade(&mut self, out: &OwnRequest)
        requires { IsGrantable (parts_view self.old) out.now }
        ensures { parts_view self.new ≡ upgraded_by (parts_view self.old) out.now }
    {
        let line = out.request.line;
        if self.state_of(line).is_held() {
            let bytes = self.hand.cache.bytes_of(line);
            self.win(out, Mesi::Modified, bytes, Some(bytes));
        }
    }

    /// Drops the line that it writes back, and owes its bytes to the write-back.
    fn write_back(&mut self, out: &OwnRequest)
        requires held { Has self.old.hand.cache out.now.request.line }
        requires few { owed_count self.old.buffers < 8 }
        ensures { parts_view self.new ≡ written_by (parts_view self.old) out.now }
    {
        let line = out.request.line;
        let bytes = self.hand.cache.bytes_of(line);
        self.hand.cache.drop_line(line);
        self.buffers.put_push(out.number, bytes);
    }

    /// The snoop end of its own request with this number.
    fn commit_own(&mut self, number: u32, shared: bool, outcome: Outcome)
        requires sound { IsSound (parts_view self.old) }
        requires may { may_commit (parts_view self.old) number true outcome ≡ true }
        ensures { parts_view self.new ≡ own_committed (parts_view self.old) number shared outcome }
    {
        if let Some(out) = numbered(&self.outs, number) {
            match outcome {
                Outcome::Granted | Outcome::Replied => self.granted(&out, shared),
                Outcome::Handed => self.granted(&out, true),
                Outcome::Upgraded => self.upgrade(&out),
                Outcome::Written => self.write_back(&out),
                Outcome::Retried | Outcome::Deferred | Outcome::Failed => {}
            }
        }
    }

    /// Gives the line to the transaction of this number.
    fn give(&mut self, line: u64, number: u32)
        requires held { Has self.old.hand.cache line }
        requires few { owed_count self.old.buffers < 8 }
        requires free { promise_on line self.old.buffers.fills ≡ None }
        ensures buffers { self.new.buffers ≡ buffers_giving (parts_view self.old) line number }
        ensures rest { self.new ≡ record self.old { buffers = self.new.buffers } }
    {
        if self.has_come(line) {
            self.buffers
                .put_push(number, self.hand.cache.bytes_of(line));
        } else {
            self.buffers.promise(line, number);
        }
    }

    /// The snoop end of another agent's request.
    fn commit_other(&mut self, number: u32, request: &Request, outcome: Outcome)
        requires sound { IsSound (parts_view self.old) }
        requires few { owed_count self.old.buffers < 8 }
        ensures { parts_view self.new
            ≡ other_settled (parts_view self.old) number request.now outcome }
    {
        let line = request.line;
        let state = self.state_of(line);
        if state == Mesi::Modified && is_handed(outcome) && asks_line(kind_asks(request.kind)) {
            self.give(line, number);
        }
        lower(
            &mut self.hand.cache,
            line,
            state_snooped(state, request.kind, outcome),
        );
    }

    /// A snoop end, of its own request or of another agent's.
    pub(crate) fn commit(
        &mut self,
        number: u32,
        mine: bool,
        request: &Request,
        shared: bool,
        outcome: Outcome,
    )
        requires sound { IsSound (parts_view self.old) }
        requires may { may_commit (parts_view self.old) number mine outcome ≡ true }
        ensures { parts_view self.new
            ≡ committed (parts_view self.old) number mine request.now shared outcome }
    {
        if mine {
            self.commit_own(number, shared, outcome);
        } else {
            self.commit_other(number, request, outcome);
        }
    }

    /// To how many transactions it owes bytes, as pushes and promises together.
    fn owed_count(&self) -> usize
        ensures { result ≡ owed_count self.now.buffers }
    {
        let promises = self
            .buffers
            .fills()
            .iter()
            .filter(|fill| fill.promise.is_some());
        self.buffers.pushes().len() + promises.count()
    }

    /// Whether its own request with this number may be settled as this.
    fn may_settle(&self, number: u32, outcome: Outcome) -> bool
        ensures { result ≡ may_settle (parts_view self.now) number outcome }
    {
        match numbered(&self.outs, number) {
            Some(out) => !out.granted && may_be_settled(outcome, self.state_of(out.request.line)),
            None => false,
        }
    }

    /// Whether it may see this snoop end.
    pub(crate) fn may_commit(&self, number: u32, mine: bool, outcome: Outcome) -> bool
        ensures { result ≡ may_commit (parts_view self.now) number mine outcome }
    {
        self.owed_count() < 8 && (!mine || self.may_settle(number, outcome))
    }
}

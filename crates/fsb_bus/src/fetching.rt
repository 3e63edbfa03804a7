//! The bytes that move with a response.

ghost use Rattle.std.specs.Prelude.{◌≡◌, ◌<◌, ◌≤◌, ◌+◌, ◌*◌, ◌^◌, [], ◌∷◌, IfSome, Some, length, slice_get};
ghost use Rattle.fsb_access.specs.ByteMemory.{value_of_bytes};
ghost use Rattle.fsb_bench_view.specs.BusViews.{BusView};
ghost use Rattle.fsb_bench_view.specs.BytesFetched.{bus_fetched, bytes_source, chunk_in, chunk_moved, data_driven, from_for, head_outcome};
ghost use Rattle.fsb_bench_view.specs.declared.snoop.Served.{Served as ServedView};
ghost use Rattle.fsb_bus.specs.Buses.{bus_view};

use crate::bus::Bus;
use crate::telling::hand_all;
use fsb_access::value_of;
use fsb_bench_view::{BytesFrom, Served};
use fsb_encode::chunk_order;
use fsb_phase::Drive;
use fsb_trace::Outcome;

impl Bus {
    /// The settled outcome of the oldest request in flight.
    pub(crate) fn head_outcome(&self) -> Option<Outcome>
        ensures { result ≡ head_outcome (bus_view self.now) }
    {
        match self.queue.at(0).copied() {
            Some(entry) => entry.outcome,
            None => None,
        }
    }

    /// Where the bytes come from that move from this clock on, if it is a response with data.
    pub fn bytes_source(&self, drive: &Drive) -> Option<BytesFrom>
        ensures { result ≡ bytes_source (bus_view self.now) drive.now }
    {
        if drive.rs == 0 {
            return None;
        }
        match self.served.as_slice().first() {
            Some(served) => match self.head_outcome() {
                Some(outcome) => from_for(served, outcome),
                None => None,
            },
            None => None,
        }
    }

    /// Fetches the bytes that move from this clock on.
    pub fn fetch(&mut self, from: Option<BytesFrom>)
        ensures view { bus_view self.new ≡ bus_fetched (bus_view self.old) from }
        ensures rest { self.new
            ≡ record self.old { agents = self.new.agents; moved = self.new.moved } }
    {
        match from {
            None => {}
            Some(from) => self.fetch_from(from),
        }
    }

    /// Fetches the bytes that come from there.
    fn fetch_from(&mut self, from: BytesFrom)
        ensures view { bus_view self.new ≡ bus_fetched (bus_view self.old) (Some from) }
        ensures rest { self.new
            ≡ record self.old { agents = self.new.agents; moved = self.new.moved } }
    {
        match from {
            BytesFrom::Memory(line) => self.moved = self.memory.line(line),
            BytesFrom::Agents(number) => {
                if let Some(bytes) = hand_all(self.agents.as_mut_slice(), number) {
                    self.moved = bytes;
                }
            }
        }
    }

    /// What D# has at the clock: the chunk that is due, or nothing.
    pub(crate) fn data_driven(&self, drive: &Drive) -> u64
        requires place { IfSome drive.now.chunk (λ chunk. chunk.1 < 4) }
        requires served { (served : ServedView) → slice_get self.now.served.items 0 ≡ Some served →
            served.request.chunk < 4 }
        ensures { result ≡ data_driven (bus_view self.now) drive.now }
    {
        match drive.chunk {
            Some((_, n)) => match self.served.as_slice().first() {
                Some(served) => chunk_moved(&self.moved, n, served),
                None => 0,
            },
            None => 0,
        }
    }
}

/// Where the bytes come from that move with this outcome, for a request that serves this one.
fn from_for(served: &Served, outcome: Outcome) -> Option<BytesFrom>
    ensures { result ≡ from_for served.now outcome }
{
    match outcome {
        Outcome::Granted | Outcome::Replied => Some(BytesFrom::Memory(served.request.line)),
        Outcome::Handed | Outcome::Written => Some(BytesFrom::Agents(served.first)),
        Outcome::Retried | Outcome::Deferred | Outcome::Failed | Outcome::Upgraded => None,
    }
}

/// The chunk of the bytes that has this place in the burst order of the request that is served.
fn chunk_moved(bytes: &[u8; 32], n: u8, served: &Served) -> u64
    requires place { n < 4 }
    requires chunk { served.now.request.chunk < 4 }
    ensures { result ≡ chunk_moved bytes.now n served.now }
{
    let order = chunk_order(served.request.chunk);
    chunk_in(bytes, order[usize::from(n)])
}

/// A chunk of a line's bytes, as a number.
fn chunk_in(bytes: &[u8; 32], chunk: u8) -> u64
    requires { chunk < 4 }
    ensures { result ≡ chunk_in bytes.now chunk }
{
    let start = 8 * usize::from(chunk);
    number_of(&bytes[start..start + 8])
}

/// The number that the bytes spell, the lowest one first.
fn number_of(bytes: &[u8]) -> u64
    requires { length bytes.now ≤ 8 }
    ensures { result ≡ value_of_bytes bytes.now }
{
    match bytes {
        [a, b, c, d, e, f, g, h] => {
            half_of(*a, *b, *c, *d) + (1 << 32) * half_of(*e, *f, *g, *h)
        }
        _ => value_of(bytes),
    }
}

/// The number that four bytes spell, the lowest one first.
fn half_of(a: u8, b: u8, c: u8, d: u8) -> u64
    ensures value { result ≡ value_of_bytes (a ∷ b ∷ c ∷ d ∷ []) }
    ensures bound { result < 2 ^ 32 }
{
    u64::from(a) + (1 << 8) * u64::from(b) + (1 << 16) * u64::from(c) + (1 << 24) * u64::from(d)
}

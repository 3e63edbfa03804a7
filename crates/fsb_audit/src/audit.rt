//! The audit, sample by sample.

ghost use Rattle.std.specs.Prelude.{◌≡◌, ℕ, ◌+◌, ◌*◌, ◌^◌, ◌<◌, true, false, [], ◌∷◌, ◌++◌, length, is_some, slice_index, if◌then◌else◌, Some, None, IsErr, IsOk, IfOk, IfSome, OnOk, OnErr};
ghost use Rattle.fsb_signal.specs.declared.marks.Marks.{Marks};
ghost use Rattle.fsb_trace.specs.At.{Trace};
ghost use Rattle.fsb_audit.specs.MovedChunks.{moved_count};
ghost use Rattle.fsb_audit.specs.Fouls.{finding_of};
ghost use Rattle.fsb_audit.specs.AuditRegisters.{asked_after, begun_before, first_after, from_memory_after, foul_by, found_after, count_after, chunk_by, data_in, Puts, HasMoved};
ghost use Rattle.fsb_audit.specs.Audit.{Stands, first_back, has_lacked_memory};

use crate::chunks::{first_chunk, nth_chunk};
use crate::finding::{Finding, FoulAt};
use fsb_encode::{Kind, Pair, Request, decode};
use fsb_io::Memory;
use fsb_rules::{Checker, Coming};
use fsb_signal::{Lines, Marks, Sample};
use fsb_trace::{Outcome, code_of, known_pair};
use std::alloc::Global;
use steady_map::SteadyMap;

/// Tells after each sample whether data came from memory that are not what was last moved of their chunk.
#[derive(Drop)]
pub struct Audit {
    checker: Checker,
    /// What was found; nothing below is looked at any more once something was.
    found: Option<Finding>,
    /// Whether memory was lacking in a call.
    has_lacked_memory: bool,
    /// How many samples were fed.
    clock: u64,
    /// The words of the last clock, where a request began there.
    first: Option<Pair>,
    /// By deferred ID, the chunk for which the last request with it asked first that is no reply.
    asked: [u64; 256],
    /// Whether the data of the request that responded last come from memory.
    from_memory: bool,
    /// How many chunks were moved.
    count: u64,
    /// The data of each chunk when it was moved last.
    moved: SteadyMap<u64>,
}

/// The foul clock, where data of this chunk come that differ from those before.
#[tactic(auto, unfolding(crate::specs::AuditRegisters::foul_by, fsb_count::specs::Options::is_some_and))]
fn foul_of(
    from_memory: bool,
    clock: u32,
    chunk: u64,
    before: Option<u64>,
    bits: u64,
) -> Option<Finding>
    requires { chunk < 2 ^ 33 }
    ensures { result ≡ foul_by from_memory clock chunk before bits }
{
    match before {
        Some(before) if from_memory && before != bits => Some(Finding::Foul(FoulAt {
            clock,
            addr: chunk * 8,
        })),
        _ => None,
    }
}

impl Audit {
    /// The audit before the first sample of a dump with these marks. It takes no memory, and is always made.
    pub fn new(alloc: Global, marks: Marks) -> Result<Audit, Memory>
        ensures stands { IfOk result (λ audit. Stands audit marks []) }
        ensures room { IfOk result (λ audit. has_lacked_memory audit ≡ false) }
        ensures made { IsOk result }
    {
        Ok(Audit {
            checker: Checker::new(marks),
            found: None,
            has_lacked_memory: false,
            clock: 0,
            first: None,
            asked: [0; 256],
            from_memory: false,
            count: 0,
            moved: SteadyMap::new(alloc),
        })
    }

    /// Takes the next sample, and tells what is found first in the samples fed. From the first finding on it is always
    /// that one, and once memory was lacking it always is.
    pub fn feed(&mut self, sample: &Sample) -> Result<Option<Finding>, Memory>
        requires { (m : Marks) × (h : Trace) × Stands self.old m h × (length h < 2 ^ 32) }
        ensures found { IfOk result (λ found. (m : Marks) (h : Trace) → Stands self.old m h →
            found ≡ finding_of m (h ++ sample.now ∷ [])) }
        ensures stands { (m : Marks) (h : Trace) → Stands self.old m h →
            Stands self.new m (h ++ sample.now ∷ []) }
        ensures memory { has_lacked_memory self.old ≡ true → IsErr result }
        ensures full { OnErr result (has_lacked_memory self.new ≡ true) }
        ensures room { OnOk result (has_lacked_memory self.new ≡ false) }
    {
        if self.has_lacked_memory {
            return Err(Memory);
        }
        if self.found.is_none() {
            let coming = self.checker.coming(sample);
            match self.checker.feed(sample) {
                Some(broken) => self.found = Some(Finding::Broken(broken)),
                None => self.absorb(self.clock as u32, sample, coming)?,
            }
        }
        Ok(self.found)
    }

    /// How many chunks were moved in the samples fed.
    pub fn chunks(&self) -> u64
        requires { (m : Marks) × (h : Trace) × Stands self.now m h
            × (finding_of m h ≡ None) × (has_lacked_memory self.now ≡ false) }
        ensures { (m : Marks) (h : Trace) → Stands self.now m h → result ≡ moved_count h }
    {
        self.count
    }

    /// Takes a sample that breaks no rule, and the chunk that comes with it.
    fn absorb(&mut self, clock: u32, sample: &Sample, coming: Option<Coming>) -> Result<(), Memory>
        requires { self.old.count < 2 ^ 32 }
        ensures checker { self.new.checker ≡ self.old.checker }
        ensures full { OnErr result (self.new.has_lacked_memory ≡ true) }
        ensures room { OnOk result (self.new.has_lacked_memory ≡ self.old.has_lacked_memory) }
        ensures clock { OnOk result (self.new.clock ≡ clock + 1) }
        ensures first { OnOk result (self.new.first ≡ first_after sample.now) }
        ensures asked { OnOk result ((h : Trace) → self.old.first ≡ first_back h →
            self.new.asked
            ≡ asked_after self.old.asked (h ++ sample.now ∷ []) (length h)) }
        ensures from_memory { OnOk result (
            self.new.from_memory ≡ from_memory_after self.old.from_memory sample.now) }
        ensures count { OnOk result (self.new.count ≡ count_after self.old.count coming) }
        ensures moved { OnOk result (
            HasMoved self.old.moved.entries self.new.moved.entries self.old.asked coming
            sample.now.dbus.bits) }
        ensures found { OnOk result (
            self.new.found ≡ found_after self.old.found
            (from_memory_after self.old.from_memory sample.now) clock
            self.old.moved.entries self.old.asked coming sample.now.dbus.bits) }
    {
        self.from_memory = self.is_from_memory(sample);
        if let Some(coming) = coming {
            self.take_chunk(clock, sample.dbus.bits, coming)?;
        }
        self.note_request(sample);
        self.clock = u64::from(clock) + 1;
        Ok(())
    }

    /// Whether the data of the request that responded last, with this sample or before, come from memory.
    #[tactic(auto, unfolding(crate::specs::AuditRegisters::from_memory_after, fsb_laws::specs::OneMore::responds))]
    fn is_from_memory(&self, sample: &Sample) -> bool
        ensures { result ≡ from_memory_after self.now.from_memory sample.now }
    {
        if sample.response() == 0 {
            self.from_memory
        } else {
            sample.response() == code_of(Outcome::Granted)
        }
    }

    /// Keeps the data of the chunk that comes, and tells whether they are foul.
    fn take_chunk(&mut self, clock: u32, bits: u64, coming: Coming) -> Result<(), Memory>
        requires { self.old.count < 2 ^ 32 }
        ensures checker { self.new.checker ≡ self.old.checker }
        ensures full { OnErr result (self.new.has_lacked_memory ≡ true) }
        ensures room { OnOk result (self.new.has_lacked_memory ≡ self.old.has_lacked_memory) }
        ensures first { self.new.first ≡ self.old.first }
        ensures asked { self.new.asked ≡ self.old.asked }
        ensures from_memory { self.new.from_memory ≡ self.old.from_memory }
        ensures count { OnOk result (self.new.count ≡ self.old.count + 1) }
        ensures moved { OnOk result (
            Puts self.old.moved.entries self.new.moved.entries
            (chunk_by self.old.asked coming) bits) }
        ensures found { OnOk result (
            self.new.found ≡ foul_by self.old.from_memory clock (chunk_by self.old.asked coming)
            (data_in self.old.moved.entries (chunk_by self.old.asked coming)) bits) }
    {
        let chunk = nth_chunk(self.asked[usize::from(coming.did)], coming.place);
        let Ok(before) = self.moved.insert(chunk, bits) else {
            self.has_lacked_memory = true;
            return Err(Memory);
        };
        self.found = foul_of(self.from_memory, clock, chunk, before, bits);
        self.count += 1;
        Ok(())
    }

    /// The request whose second clock is this sample.
    fn begun(&self, sample: &Sample) -> Option<Request>
        ensures { (h : Trace) → self.now.first ≡ first_back h →
            result ≡ begun_before (h ++ sample.now ∷ []) (length h) }
    {
        let second = known_pair(sample)?;
        decode(self.first?, second).ok()
    }

    /// Keeps the chunk for which a request asks first whose second clock is this sample, unless it is a reply, and the
    /// words of one that begins.
    #[tactic(auto, unfolding(crate::specs::AuditRegisters::asked_with, crate::specs::AuditRegisters::first_after, fsb_trace::specs::Requests::is_reply_kind))]
    fn note_request(&mut self, sample: &Sample)
        ensures asked { (h : Trace) → self.old.first ≡ first_back h → self.new.asked
            ≡ asked_after self.old.asked (h ++ sample.now ∷ []) (length h) }
        ensures rest { self.new ≡ record self.old {
          first = first_after sample.now;
          asked = self.new.asked;
        } }
    {
        if let Some(request) = self.begun(sample) {
            if request.kind != Kind::Reply {
                self.asked[usize::from(request.did)] = first_chunk(&request);
            }
        }
        self.first = if sample.has(Lines::ADS) {
            known_pair(sample)
        } else {
            None
        };
    }
}

ghost use Rattle.std.specs.Prelude.{◌≡◌, ℕ, ◌<◌, ◌≤◌, ◌+◌, ◌^◌, ◌++◌, [], ◌∷◌, take, length, true, false, is_some, slice_index, vec_len, vec_capacity, IsOk, IfOk, OnOk, OnErr};
ghost use Rattle.std.specs.List.{list_all};
ghost use Rattle.vcd_grammar.specs.Tokens.{is_white, ended_at};
ghost use Rattle.vcd_grammar.specs.Judging.{known_marks};
ghost use Rattle.vcd_read.specs.ReaderView.{is_declaring, known_of};
ghost use Rattle.vcd_read.specs.Taking.{taken, take_tokens, samples_in_tokens, pushed};
ghost use Rattle.vcd_read.specs.Scanning.{reading, unread, after_bytes, samples_in_bytes, is_dark, ended_taken, ended_samples, end_fault, open_samples, open_rises, Fits, Part};

use crate::digits::{LONGEST, is_white};
use crate::direct::stamp_in;
use crate::lanes::{LANES, dark_run};
use crate::machine::Machine;
use crate::run::Run;
use fsb_signal::Sample;
use std::alloc::{AllocError, Global};

/// The bytes so far, cut into tokens, each of which the machine has taken.
#[derive(Drop)]
pub(crate) struct Scan {
    pub(crate) machine: Machine,
    /// How many bytes there were.
    pub(crate) at: u64,
    /// The run of bytes that stands open; one byte more than a token may have, where it is too long.
    pub(crate) run: Run,
}

impl Scan {
    /// Before the first byte.
    pub(crate) fn new(alloc: Global) -> Result<Self, AllocError>
        ensures { IfOk result (λ s. reading s ≡ unread) }
    {
        Ok(Scan {
            machine: Machine::new(alloc),
            at: 0,
            run: Run::new(alloc)?,
        })
    }

    /// The bytes of a piece.
    pub(crate) fn absorb(
        &mut self,
        piece: &[u8],
        limit: u32,
        to: &mut Vec<Sample>,
    ) -> Result<(), AllocError>
        requires room { self.old.at + length piece.now < 2 ^ 64 }
        requires fits { Fits (reading self.old) }
        ensures state { OnOk result (reading self.new ≡ after_bytes (reading self.old) piece.now) }
        ensures samples { OnOk result
            (to.new.items ≡ pushed limit self.old.machine.decided to.old.items
            (samples_in_bytes (reading self.old) piece.now)) }
        ensures behind { is_some self.old.machine.fault ≡ true → IsOk result }
        ensures part { OnErr result
            (Part limit self.old.machine.decided (samples_in_bytes (reading self.old) piece.now)
            to.old.items to.new.items) }
    {
        let mut rest = piece;
        while !rest.is_empty() {
            let len = self.span(rest, limit, to)?;
            rest = &rest[len..];
        }
        Ok(())
    }

    /// The bytes up to the first white space and that byte too, or all bytes where there is none. Tells how many.
    fn span(&mut self, bytes: &[u8], limit: u32, to: &mut Vec<Sample>) -> Result<usize, AllocError>
        requires some { 0 < length bytes.now }
        requires room { self.old.at + length bytes.now < 2 ^ 64 }
        requires fits { Fits (reading self.old) }
        ensures some { IfOk result (λ len. 0 < len) }
        ensures within { IfOk result (λ len. len ≤ length bytes.now) }
        ensures state { IfOk result
            (λ len. reading self.new ≡ after_bytes (reading self.old) (take len bytes.now)) }
        ensures samples { IfOk result
            (λ len. to.new.items ≡ pushed limit self.old.machine.decided to.old.items
            (samples_in_bytes (reading self.old) (take len bytes.now))) }
        ensures behind { is_some self.old.machine.fault ≡ true → IsOk result }
        ensures part { OnErr result
            (Part limit self.old.machine.decided (samples_in_bytes (reading self.old) bytes.now)
            to.old.items to.new.items) }
    {
        if self.is_ready() {
            if let Some(change) = self.scalar_in(bytes) {
                self.scalar(change);
                return Ok(3);
            }
            if let Some((len, time)) = stamp_in(bytes) {
                self.stamp(&bytes[..len], time, limit, to)?;
                return Ok(len + 1);
            }
            if let Some(change) = self.vector_in(bytes) {
                self.vector(change);
                return Ok(change.count + 4);
            }
        }
        self.any_span(bytes, limit, to)
    }

    /// The bytes up to the first white space and that byte too, or all bytes where there is none, whatever they are.
    fn any_span(
        &mut self,
        bytes: &[u8],
        limit: u32,
        to: &mut Vec<Sample>,
    ) -> Result<usize, AllocError>
        requires some { 0 < length bytes.now }
        requires room { self.old.at + length bytes.now < 2 ^ 64 }
        requires fits { Fits (reading self.old) }
        ensures some { IfOk result (λ len. 0 < len) }
        ensures within { IfOk result (λ len. len ≤ length bytes.now) }
        ensures state { IfOk result
            (λ len. reading self.new ≡ after_bytes (reading self.old) (take len bytes.now)) }
        ensures samples { IfOk result
            (λ len. to.new.items ≡ pushed limit self.old.machine.decided to.old.items
            (samples_in_bytes (reading self.old) (take len bytes.now))) }
        ensures behind { is_some self.old.machine.fault ≡ true → IsOk result }
        ensures part { OnErr result
            (Part limit self.old.machine.decided (samples_in_bytes (reading self.old) bytes.now)
            to.old.items to.new.items) }
    {
        let len = span_len(bytes);
        if len < bytes.len() {
            self.closed(&bytes[..len], limit, to)?;
            Ok(len + 1)
        } else {
            self.grown(bytes, limit, to)?;
            Ok(len)
        }
    }

    /// Bytes without white space, and a byte of white space behind them.
    fn closed(&mut self, bytes: &[u8], limit: u32, to: &mut Vec<Sample>) -> Result<(), AllocError>
        requires dark { list_all is_dark bytes.now ≡ true }
        requires room { self.old.at + length bytes.now + 1 < 2 ^ 64 }
        requires fits { Fits (reading self.old) }
        ensures state { (w : ℕ) → is_white w ≡ true →
            OnOk result (reading self.new ≡ after_bytes (reading self.old) (bytes.now ++ w ∷ [])) }
        ensures samples { (w : ℕ) → is_white w ≡ true →
            OnOk result (to.new.items
            ≡ pushed limit self.old.machine.decided to.old.items
            (samples_in_bytes (reading self.old) (bytes.now ++ w ∷ []))) }
        ensures behind { is_some self.old.machine.fault ≡ true → IsOk result }
        ensures part { (w : ℕ) → is_white w ≡ true →
            OnErr result (Part limit self.old.machine.decided
            (samples_in_bytes (reading self.old) (bytes.now ++ w ∷ [])) to.old.items to.new.items) }
    {
        if self.run_len() == 0 && bytes.len() <= LONGEST {
            return self.whole(bytes, limit, to);
        }
        self.grown(bytes, limit, to)?;
        self.white(limit, to)
    }

    /// How many bytes of the run there are.
    pub(crate) fn run_len(&self) -> usize
        ensures { result ≡ length self.now.run.bytes.items }
    {
        self.run.len()
    }

    /// A token that stands whole, and a byte of white space behind it.
    fn whole(&mut self, bytes: &[u8], limit: u32, to: &mut Vec<Sample>) -> Result<(), AllocError>
        requires empty { length self.old.run.bytes.items ≡ 0 }
        requires short { length bytes.now ≤ 70000 }
        requires dark { list_all is_dark bytes.now ≡ true }
        requires room { self.old.at + length bytes.now + 1 < 2 ^ 64 }
        requires fits { Fits (reading self.old) }
        ensures state { (w : ℕ) → is_white w ≡ true →
            OnOk result (reading self.new ≡ after_bytes (reading self.old) (bytes.now ++ w ∷ [])) }
        ensures samples { (w : ℕ) → is_white w ≡ true →
            OnOk result (to.new.items
            ≡ pushed limit self.old.machine.decided to.old.items
            (samples_in_bytes (reading self.old) (bytes.now ++ w ∷ []))) }
        ensures silent { OnErr result (to.new.items ≡ to.old.items) }
        ensures behind { is_some self.old.machine.fault ≡ true → IsOk result }
        ensures full { is_declaring self.old.machine.mode ≡ false →
            OnErr result (vec_capacity to.old ≤ vec_len to.old) }
    {
        let place = self.at;
        self.at = place + bytes.len() as u64 + 1;
        if bytes.is_empty() {
            return Ok(());
        }
        self.machine.take(place, bytes, limit, to)
    }

    /// A byte of white space.
    fn white(&mut self, limit: u32, to: &mut Vec<Sample>) -> Result<(), AllocError>
        requires room { self.old.at + 1 < 2 ^ 64 }
        requires fits { Fits (reading self.old) }
        ensures state { (w : ℕ) → is_white w ≡ true →
            OnOk result (reading self.new ≡ after_bytes (reading self.old) (w ∷ [])) }
        ensures samples { (w : ℕ) → is_white w ≡ true →
            OnOk result (to.new.items
            ≡ pushed limit self.old.machine.decided to.old.items
            (samples_in_bytes (reading self.old) (w ∷ []))) }
        ensures silent { OnErr result (to.new.items ≡ to.old.items) }
        ensures behind { is_some self.old.machine.fault ≡ true → IsOk result }
        ensures full { is_declaring self.old.machine.mode ≡ false →
            OnErr result (vec_capacity to.old ≤ vec_len to.old) }
    {
        self.last(limit, to)?;
        self.run.clear();
        self.at += 1;
        Ok(())
    }

    /// The run that stands open, ended here.
    fn last(&mut self, limit: u32, to: &mut Vec<Sample>) -> Result<(), AllocError>
        requires { Fits (reading self.old) }
        ensures state { OnOk result
            (reading self.new ≡ record (reading self.old) {
              taken = take_tokens (taken self.old.machine)
                  (ended_at self.old.at self.old.run.bytes.items);
            }) }
        ensures samples { OnOk result
            (to.new.items ≡ pushed limit self.old.machine.decided to.old.items
            (samples_in_tokens (taken self.old.machine)
            (ended_at self.old.at self.old.run.bytes.items))) }
        ensures silent { OnErr result (to.new.items ≡ to.old.items) }
        ensures behind { is_some self.old.machine.fault ≡ true → IsOk result }
        ensures full { is_declaring self.old.machine.mode ≡ false →
            OnErr result (vec_capacity to.old ≤ vec_len to.old) }
    {
        if self.run_len() == 0 {
            return Ok(());
        }
        if LONGEST < self.run_len() {
            return Ok(());
        }
        let place = self.at - self.run_len() as u64;
        self.machine.take(place, self.run.as_slice(), limit, to)
    }

    /// The end of the text: the last token, whether the text may end there, and the block that stands open. Tells
    /// whether that block decides a sample.
    pub(crate) fn finish(&mut self, limit: u32, to: &mut Vec<Sample>) -> Result<bool, AllocError>
        requires { Fits (reading self.old) }
        ensures marks { OnOk result
            (known_marks (known_of self.new.machine)
            ≡ known_marks (ended_taken (reading self.old)).known) }
        ensures behind { is_some self.old.machine.fault ≡ true → IsOk result }
        ensures fault { OnOk result (self.new.machine.fault ≡ end_fault (reading self.old)) }
        ensures lines { OnOk result
            (self.new.machine.lines.items ≡ (ended_taken (reading self.old)).known.lines) }
        ensures decided { OnOk result
            (self.new.machine.decided ≡ (ended_taken (reading self.old)).lines.decided) }
        ensures rises { IfOk result
            (λ more. more ≡ open_rises (end_fault (reading self.old))
            (ended_taken (reading self.old)).lines) }
        ensures samples { OnOk result
            (to.new.items ≡ pushed limit self.old.machine.decided to.old.items
            (ended_samples (reading self.old)
            ++ open_samples (end_fault (reading self.old))
            (ended_taken (reading self.old)).lines)) }
        ensures part { OnErr result
            (Part limit self.old.machine.decided
            (ended_samples (reading self.old)
            ++ open_samples (end_fault (reading self.old)) (ended_taken (reading self.old)).lines)
            to.old.items to.new.items) }
    {
        self.last(limit, to)?;
        self.machine.end(self.at);
        self.machine.close(limit, to)
    }

    /// Bytes without white space.
    fn grown(&mut self, bytes: &[u8], limit: u32, to: &mut Vec<Sample>) -> Result<(), AllocError>
        requires dark { list_all is_dark bytes.now ≡ true }
        requires room { self.old.at + length bytes.now < 2 ^ 64 }
        requires fits { Fits (reading self.old) }
        ensures state { OnOk result (reading self.new ≡ after_bytes (reading self.old) bytes.now) }
        ensures samples { OnOk result
            (to.new.items ≡ pushed limit self.old.machine.decided to.old.items
            (samples_in_bytes (reading self.old) bytes.now)) }
        ensures silent { OnErr result (to.new.items ≡ to.old.items) }
        ensures behind { is_some self.old.machine.fault ≡ true → IsOk result }
    {
        if LONGEST < self.run_len() {
            self.at += bytes.len() as u64;
            return Ok(());
        }
        if bytes.len() <= LONGEST - self.run_len() {
            self.run.append(bytes);
            self.at += bytes.len() as u64;
            return Ok(());
        }
        self.too_long(bytes, limit, to)
    }

    /// Bytes without white space that make the run too long.
    fn too_long(&mut self, bytes: &[u8], limit: u32, to: &mut Vec<Sample>) -> Result<(), AllocError>
        requires dark { list_all is_dark bytes.now ≡ true }
        requires room { self.old.at + length bytes.now < 2 ^ 64 }
        requires fits { Fits (reading self.old) }
        requires short { length self.old.run.bytes.items ≤ 70000 }
        requires over { 70000 < length self.old.run.bytes.items + length bytes.now }
        ensures state { OnOk result (reading self.new ≡ after_bytes (reading self.old) bytes.now) }
        ensures samples { OnOk result
            (to.new.items ≡ pushed limit self.old.machine.decided to.old.items
            (samples_in_bytes (reading self.old) bytes.now)) }
        ensures silent { OnErr result (to.new.items ≡ to.old.items) }
        ensures behind { is_some self.old.machine.fault ≡ true → IsOk result }
    {
        let place = self.at - self.run_len() as u64;
        let more = LONGEST + 1 - self.run_len();
        self.run.append(&bytes[..more]);
        self.at += bytes.len() as u64;
        self.machine.take(place, self.run.as_slice(), limit, to)
    }
}

/// How many bytes stand before the first white space.
fn span_len(bytes: &[u8]) -> usize
    ensures within { result ≤ length bytes.now }
    ensures dark { list_all is_dark (take result bytes.now) ≡ true }
    ensures white { result < length bytes.now → is_white (slice_index bytes.now result) ≡ true }
{
    let mut at = 0;
    while LANES <= bytes.len() - at {
        let run = dark_run(bytes, at);
        if run < LANES {
            return at + run;
        }
        at += LANES;
    }
    span_len_from(bytes, at)
}

/// How many bytes stand before the first white space, where so many were seen to.
#[tactic(auto, using(std::proofs::lemmas::List::Folds::list_all_more))]
fn span_len_from(bytes: &[u8], at: usize) -> usize
    requires seen { at ≤ length bytes.now }
    requires dark { list_all is_dark (take at bytes.now) ≡ true }
    ensures within { result ≤ length bytes.now }
    ensures dark { list_all is_dark (take result bytes.now) ≡ true }
    ensures white { result < length bytes.now → is_white (slice_index bytes.now result) ≡ true }
{
    for i in at..bytes.len() {
        if is_white(bytes[i]) {
            return i;
        }
    }
    bytes.len()
}

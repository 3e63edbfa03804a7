ghost use Rattle.std.specs.Prelude.{◌≡◌, ◌==◌, if◌then◌else◌, ℕ, ◌<◌, ◌≤◌, ◌+◌, ◌^◌, ◌++◌, List, [], ◌∷◌, take, length, true, Some, IfOk, IfSome};
ghost use Rattle.std.specs.List.{list_all};
ghost use Rattle.vcd_grammar.specs.Tokens.{is_white, tokens_so_far, tokens_of};
ghost use Rattle.vcd_cut.specs.Cutting.{is_dark, cutting, after_cut, tokens_cut, counted_cut, taken_by, word_of, tokens_in, FitsIn, Sound, Begins};
ghost use Rattle.vcd_cut.specs.Standing.{Stands, IsOnLine, IsIdle, BeginsWithWord};

use crate::cut::{Cut, CutToken, Source};
use crate::run::{LONGEST, Run};
use crate::white::span_len;
use std::alloc::{AllocError, Global};
use std::mem;

/// Cuts a text into tokens, in pieces of any size.
#[derive(Drop)]
pub struct Cutter {
    /// How many bytes were read.
    pub(crate) at: u64,
    /// How many of them are line feeds.
    pub(crate) breaks: u64,
    /// The run of bytes that stands open; one byte more than a token may have, where it is too long.
    pub(crate) run: Run,
    /// The word of the last token that did not stand whole in the bytes.
    pub(crate) done: Run,
}

impl Cutter {
    /// Before the first byte.
    pub fn new(alloc: Global) -> Result<Self, AllocError>
        ensures { IfOk result (λ c. Stands c []) }
    {
        let run = Run::new(alloc)?;
        let done = Run::new(alloc)?;
        Ok(Cutter {
            at: 0,
            breaks: 0,
            run,
            done,
        })
    }

    /// Reads the bytes up to the first white space and that byte too, or all bytes where there is
    /// none. A token counts at the white space after it, or at its byte 70,001.
    pub fn next(&mut self, bytes: &[u8]) -> Cut
        requires some { 0 < length bytes.now }
        requires room { (fed : List ℕ) × Stands self.old fed ×
            (length fed + length bytes.now < 2 ^ 64) }
        ensures some { 0 < result.used }
        ensures within { result.used ≤ length bytes.now }
        ensures stands { (fed : List ℕ) → Stands self.old fed →
            Stands self.new (fed ++ take result.used bytes.now) }
        ensures tokens { (fed : List ℕ) → Stands self.old fed →
            tokens_so_far (fed ++ take result.used bytes.now)
            ≡ tokens_so_far fed ++ tokens_in self.new result.token bytes.now }
        ensures line { (fed : List ℕ) → Stands self.old fed →
            IfSome result.token (λ t. IsOnLine fed t.place t.line) }
    {
        let len = span_len(bytes);
        if len < bytes.len() {
            let token = self.closed(&bytes[..len], bytes[len]);
            Cut {
                used: len + 1,
                token,
            }
        } else {
            let token = self.grown(bytes);
            Cut { used: len, token }
        }
    }

    /// Whether no run stands open.
    #[inline(always)]
    pub fn is_idle(&self) -> bool
        ensures { result ≡ true → IsIdle self.now }
    {
        self.run.len() == 0
    }

    /// Reads the word with which the bytes begin, and the white space behind it. The token is what
    /// `next` would cut off them.
    #[inline(always)]
    pub fn skip(&mut self, bytes: &[u8], len: usize) -> CutToken
        requires idle { IsIdle self.old }
        requires word { BeginsWithWord bytes.now len }
        requires room { (fed : List ℕ) × Stands self.old fed ×
            (length fed + length bytes.now < 2 ^ 64) }
        ensures idle { IsIdle self.new }
        ensures stands { (fed : List ℕ) → Stands self.old fed →
            Stands self.new (fed ++ take (len + 1) bytes.now) }
        ensures tokens { (fed : List ℕ) → Stands self.old fed →
            tokens_so_far (fed ++ take (len + 1) bytes.now)
            ≡ tokens_so_far fed ++ record { place = result.place; word = take len bytes.now } ∷ [] }
        ensures line { (fed : List ℕ) → Stands self.old fed →
            IsOnLine fed result.place result.line }
    {
        let place = self.at;
        let line = self.line();
        self.at = place + len as u64 + 1;
        self.breaks += breaks_in(bytes[len]);
        CutToken {
            place,
            line,
            source: Source::Given(len),
        }
    }

    /// The end of the text: its last token, where one stands open.
    pub fn finish(&mut self) -> Option<CutToken>
        requires { (fed : List ℕ) × Stands self.old fed × (length fed + 1 < 2 ^ 64) }
        ensures tokens { (fed : List ℕ) → Stands self.old fed →
            tokens_of fed ≡ tokens_so_far fed ++ tokens_in self.new result [] }
        ensures line { (fed : List ℕ) → Stands self.old fed →
            IfSome result (λ t. IsOnLine fed t.place t.line) }
    {
        if self.run.len() == 0 {
            return None;
        }
        self.joined(&[])
    }

    /// The word of a token that was just cut off these bytes.
    pub fn word<'a>(&'a self, token: CutToken, bytes: &'a [u8]) -> &'a [u8]
        ensures { result.now ≡ word_of self.now token.source bytes.now }
    {
        match token.source {
            Source::Given(len) if len <= bytes.len() => &bytes[..len],
            Source::Given(_) => bytes,
            Source::Kept => self.done.as_slice(),
        }
    }

    /// How many bytes were read.
    pub fn place(&self) -> u64
        ensures { (fed : List ℕ) → Stands self.now fed → result ≡ length fed }
    {
        self.at
    }

    /// Bytes without white space, and a byte of white space after them.
    fn closed(&mut self, bytes: &[u8], gap: u8) -> Option<CutToken>
        requires dark { list_all is_dark bytes.now ≡ true }
        requires gap { is_white gap ≡ true }
        requires room { self.old.at + length bytes.now + 1 < 2 ^ 64 }
        requires sound { Sound (cutting self.old) }
        ensures state { cutting self.new ≡ after_cut (cutting self.old) (bytes.now ++ gap ∷ []) }
        ensures tokens { tokens_cut (cutting self.old) (bytes.now ++ gap ∷ [])
            ≡ tokens_in self.new result bytes.now }
        ensures begins { IfSome result (λ t. Begins (cutting self.old) t) }
        ensures within { IfSome result (λ t. FitsIn t.source (length bytes.now)) }
    {
        let token = self.last_of(bytes);
        self.at += bytes.len() as u64 + 1;
        self.breaks += breaks_in(gap);
        token
    }

    /// Bytes without white space that end the run, if there is one.
    fn last_of(&mut self, bytes: &[u8]) -> Option<CutToken>
        requires dark { list_all is_dark bytes.now ≡ true }
        requires room { self.old.at + 1 < 2 ^ 64 }
        requires sound { Sound (cutting self.old) }
        ensures at { self.new.at ≡ self.old.at }
        ensures breaks { self.new.breaks ≡ self.old.breaks }
        ensures empty { length self.new.run.bytes.items ≡ 0 }
        ensures tokens { counted_cut (cutting self.old) bytes.now
            ≡ tokens_in self.new result bytes.now }
        ensures begins { IfSome result (λ t. Begins (cutting self.old) t) }
        ensures within { IfSome result (λ t. FitsIn t.source (length bytes.now)) }
    {
        if self.run.len() == 0 && bytes.len() <= LONGEST {
            self.whole(bytes)
        } else {
            self.joined(bytes)
        }
    }

    /// The token that bytes are which stand whole.
    fn whole(&self, bytes: &[u8]) -> Option<CutToken>
        requires empty { length self.now.run.bytes.items ≡ 0 }
        requires short { length bytes.now ≤ 70000 }
        requires dark { list_all is_dark bytes.now ≡ true }
        requires room { self.now.breaks + 1 < 2 ^ 64 }
        ensures tokens { counted_cut (cutting self.now) bytes.now
            ≡ tokens_in self.now result bytes.now }
        ensures begins { IfSome result (λ t. Begins (cutting self.now) t) }
        ensures within { IfSome result (λ t. FitsIn t.source (length bytes.now)) }
    {
        if bytes.is_empty() {
            return None;
        }
        Some(CutToken {
            place: self.at,
            line: self.line(),
            source: Source::Given(bytes.len()),
        })
    }

    /// Bytes without white space that end the run, or its last ones where it is too long.
    fn joined(&mut self, bytes: &[u8]) -> Option<CutToken>
        requires some { 0 < length self.old.run.bytes.items + length bytes.now }
        requires dark { list_all is_dark bytes.now ≡ true }
        requires room { self.old.at + 1 < 2 ^ 64 }
        requires sound { Sound (cutting self.old) }
        ensures at { self.new.at ≡ self.old.at }
        ensures breaks { self.new.breaks ≡ self.old.breaks }
        ensures empty { length self.new.run.bytes.items ≡ 0 }
        ensures tokens { counted_cut (cutting self.old) bytes.now
            ≡ tokens_in self.new result bytes.now }
        ensures begins { IfSome result (λ t. Begins (cutting self.old) t) }
        ensures kept { IfSome result (λ t. t.source ≡ Source.Kept) }
    {
        if LONGEST < self.run.len() {
            self.run.clear();
            return None;
        }
        let token = self.open_token();
        self.take_first(bytes);
        mem::swap(&mut self.run, &mut self.done);
        self.run.clear();
        Some(token)
    }

    /// The token of the run that stands open.
    fn open_token(&self) -> CutToken
        requires short { length self.now.run.bytes.items ≤ 70000 }
        requires room { self.now.at + 1 < 2 ^ 64 }
        requires sound { Sound (cutting self.now) }
        ensures begins { Begins (cutting self.now) result }
        ensures kept { result.source ≡ Source.Kept }
    {
        CutToken {
            place: self.at - self.run.len() as u64,
            line: self.line(),
            source: Source::Kept,
        }
    }

    /// The number of the text line that stands open.
    #[inline(always)]
    fn line(&self) -> u64
        requires { self.now.breaks + 1 < 2 ^ 64 }
        ensures { result ≡ 1 + self.now.breaks }
    {
        1 + self.breaks
    }

    /// Appends bytes to the run, up to one more than a token may have.
    fn take_first(&mut self, bytes: &[u8])
        requires short { length self.old.run.bytes.items ≤ 70000 }
        ensures run { self.new.run.bytes.items ≡ taken_by self.old.run.bytes.items bytes.now }
        ensures at { self.new.at ≡ self.old.at }
        ensures breaks { self.new.breaks ≡ self.old.breaks }
    {
        let most = LONGEST + 1 - self.run.len();
        if bytes.len() <= most {
            self.run.append(bytes);
        } else {
            self.run.append(&bytes[..most]);
        }
    }

    /// Bytes without white space.
    fn grown(&mut self, bytes: &[u8]) -> Option<CutToken>
        requires dark { list_all is_dark bytes.now ≡ true }
        requires room { self.old.at + length bytes.now < 2 ^ 64 }
        requires sound { Sound (cutting self.old) }
        ensures state { cutting self.new ≡ after_cut (cutting self.old) bytes.now }
        ensures tokens { tokens_cut (cutting self.old) bytes.now
            ≡ tokens_in self.new result bytes.now }
        ensures begins { IfSome result (λ t. Begins (cutting self.old) t) }
    {
        if LONGEST < self.run.len() {
            self.at += bytes.len() as u64;
            return None;
        }
        if bytes.len() <= LONGEST - self.run.len() {
            self.run.append(bytes);
            self.at += bytes.len() as u64;
            return None;
        }
        Some(self.too_long(bytes))
    }

    /// Bytes without white space that make the run too long.
    fn too_long(&mut self, bytes: &[u8]) -> CutToken
        requires dark { list_all is_dark bytes.now ≡ true }
        requires room { self.old.at + length bytes.now < 2 ^ 64 }
        requires sound { Sound (cutting self.old) }
        requires short { length self.old.run.bytes.items ≤ 70000 }
        requires over { 70000 < length self.old.run.bytes.items + length bytes.now }
        ensures state { cutting self.new ≡ after_cut (cutting self.old) bytes.now }
        ensures tokens { tokens_cut (cutting self.old) bytes.now
            ≡ tokens_in self.new (Some result) bytes.now }
        ensures begins { Begins (cutting self.old) result }
    {
        let token = self.open_token();
        self.take_first(bytes);
        self.done.clear();
        self.done.append(self.run.as_slice());
        self.at += bytes.len() as u64;
        token
    }
}

/// 1 for a line feed, and 0 for another byte.
fn breaks_in(byte: u8) -> u64
    ensures breaks { result ≡ (if byte == 10 then 1 else 0) }
    ensures most { result ≤ 1 }
{
    if byte == b'\n' { 1 } else { 0 }
}

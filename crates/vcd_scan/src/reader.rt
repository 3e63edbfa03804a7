ghost use Rattle.std.specs.Prelude.{◌≡◌, ◌<◌, ◌≤◌, ◌+◌, ◌^◌, ◌++◌, ℕ, List, [], length, take, None, Some, Err, map, option_map, IfOk, OnOk};
ghost use Rattle.vcd_cut.specs.Standing.{Stands as CutterStands, IsIdle, BeginsWithWord};
ghost use Rattle.vcd_course.specs.Told.{event_told, open_told};
ghost use Rattle.vcd_course.specs.Opening.{first_open};
ghost use Rattle.vcd_scan.specs.Wired.{wires_told};
ghost use Rattle.vcd_scan.specs.Told.{values_by};
ghost use Rattle.vcd_scan.specs.Standing.{Works, Stands, Reads, Took, Keeps, Answers, Appends, AppendsBy, refusal_of, refusal_in, rules_of, wiring_of, events_of, tokens_after, last_tokens_after, known_after, told_after, limit_after, limit_of, HasLines, Marks, UnlessMemory};
ghost use Rattle.vcd_scan.specs.Lined.{IsLined};
ghost use Rattle.std.specs.List.{All};
ghost use Rattle.vcd_scan.specs.Ending.{early_told, early_end_after, fault_to_end, told_to_end};

use crate::early::EarlyEnd;
use crate::machine::{Machine, ScanRules};
use crate::stop::ScanStop;
use crate::table::Wires;
use std::alloc::{AllocError, Global};
use vcd_course::{Course, CourseEvent};
use vcd_cut::{Cutter, short_word, whole_word};

/// Reads the values of a dump in pieces of any size.
#[derive(Drop)]
pub struct ValueReader {
    cutter: Cutter,
    machine: Machine,
    refused: Option<ScanStop>,
}

impl ValueReader {
    /// A reader that goes on after a header, which the cutter has read, with a course before
    /// anything happens. The lines are unknown until they get a value.
    pub fn new(
        alloc: Global,
        rules: ScanRules,
        wires: Wires,
        cutter: Cutter,
        course: Course,
    ) -> Self
        requires { open_told course ≡ first_open }
        ensures stands { (head : List ℕ) → CutterStands cutter head → Stands result head [] }
        ensures fresh { refusal_of result ≡ None }
        ensures wiring { wiring_of result ≡ wires_told wires }
        ensures rules { rules_of result ≡ values_by rules course }
        ensures events { events_of result ≡ [] }
        ensures limit { limit_of result ≡ None }
    {
        let mut course = course;
        course.forget(wires.lines.as_slice());
        ValueReader {
            cutter,
            machine: Machine::new(alloc, rules, wires, course),
            refused: None,
        }
    }

    /// The next piece of the text. Keeps what it tells for who takes it. After a refusal it refuses in
    /// the same way for good.
    pub fn feed(&mut self, piece: &[u8]) -> Result<(), ScanStop>
        // No `finish` has answered Ok, and the bytes fed are few enough to be counted.
        requires { (head fed : List ℕ) × Stands self.old head fed × (length (head ++ fed) + length
            piece.now + 1 < 2 ^ 64) }
        ensures stands { (head fed : List ℕ) → Stands self.old head fed →
            Stands self.new head (fed ++ piece.now) }
        ensures refusal { refusal_of self.new ≡ refusal_in result }
        ensures keeps { Keeps self.old self.new }
        ensures answer { (head fed : List ℕ) → Stands self.old head fed → refusal_of self.old ≡
            None →
            Answers result (known_after (rules_of self.old) (wiring_of self.old)
            (tokens_after head (fed ++ piece.now))).fault }
        ensures told { (head fed : List ℕ) → Stands self.old head fed → refusal_of self.old ≡ None →
            AppendsBy result
            (told_after (rules_of self.old) (wiring_of self.old) (tokens_after head fed))
            (told_after (rules_of self.old) (wiring_of self.old) (tokens_after head (fed ++ piece.now)))
            (events_of self.old) (events_of self.new) }
        ensures marks { (head fed : List ℕ) → Stands self.old head fed → refusal_of self.old ≡
            None → UnlessMemory result (Marks self.new (head ++ (fed ++ piece.now))
            (rules_of self.old) (wiring_of self.old) (tokens_after head (fed ++ piece.now))) }
        ensures again { (stop : ScanStop) → refusal_of self.old ≡ Some stop → result ≡ Err stop }
    {
        if let Some(stop) = self.refused {
            return Err(stop);
        }
        let answer = self.absorb(piece);
        if let Err(stop) = answer {
            self.refused = Some(stop);
        }
        answer
    }

    /// The next piece, where nothing was refused.
    fn absorb(&mut self, piece: &[u8]) -> Result<(), ScanStop>
        requires { (head fed : List ℕ) × Works self.old head fed × (length (head ++ fed) + length
            piece.now + 1 < 2 ^ 64) }
        ensures works { (head fed : List ℕ) → Works self.old head fed →
            OnOk result (Works self.new head (fed ++ piece.now)) }
        ensures refusal { refusal_of self.new ≡ refusal_of self.old }
        ensures keeps { Keeps self.old self.new }
        ensures answer { (head fed : List ℕ) → Works self.old head fed →
            Answers result (known_after (rules_of self.old) (wiring_of self.old)
            (tokens_after head (fed ++ piece.now))).fault }
        ensures told { (head fed : List ℕ) → Works self.old head fed →
            AppendsBy result
            (told_after (rules_of self.old) (wiring_of self.old) (tokens_after head fed))
            (told_after (rules_of self.old) (wiring_of self.old) (tokens_after head (fed ++ piece.now)))
            (events_of self.old) (events_of self.new) }
        ensures marks { (head fed : List ℕ) → Works self.old head fed →
            UnlessMemory result (Marks self.new (head ++ (fed ++ piece.now))
            (rules_of self.old) (wiring_of self.old) (tokens_after head (fed ++ piece.now))) }
    {
        let mut used = 0;
        while used < piece.len() {
            let len = self.step(&piece[used..])?;
            used += len;
            match self.machine.fault {
                Some(fault) => return Err(ScanStop::Bad(fault)),
                None => {}
            }
        }
        Ok(())
    }

    /// The bytes up to the first white space and that byte too, or all bytes where there is none; of a
    /// vector that stands whole those of its code too. Tells how many.
    #[inline(always)]
    fn step(&mut self, bytes: &[u8]) -> Result<usize, AllocError>
        requires some { 0 < length bytes.now }
        requires room { (head fed : List ℕ) × Works self.old head fed × (length (head ++ fed) +
            length bytes.now + 1 < 2 ^ 64) }
        ensures some { IfOk result (λ len. 0 < len) }
        ensures within { IfOk result (λ len. len ≤ length bytes.now) }
        ensures reads { (head fed : List ℕ) → Works self.old head fed →
            IfOk result (λ len. Reads self.new head (fed ++ take len bytes.now)) }
        ensures told { (head fed : List ℕ) → Works self.old head fed →
            IfOk result (λ len. Appends
            (told_after (rules_of self.old) (wiring_of self.old) (tokens_after head fed))
            (told_after (rules_of self.old) (wiring_of self.old) (tokens_after head (fed ++ take len bytes.now)))
            (events_of self.old) (events_of self.new)) }
        ensures refusal { refusal_of self.new ≡ refusal_of self.old }
        ensures keeps { Keeps self.old self.new }
    {
        if self.cutter.is_idle() {
            if bytes[0] == b'b' {
                if let Some(len) = whole_word(bytes) {
                    return self.vector(bytes, len);
                }
            } else {
                if let Some(len) = short_word(bytes) {
                    return self.word(bytes, len);
                }
            }
        }
        self.cut(bytes)
    }

    /// The word with which the bytes begin, and its code too where it is a vector that can be taken at
    /// once.
    #[inline(always)]
    fn vector(&mut self, bytes: &[u8], len: usize) -> Result<usize, AllocError>
        requires idle { IsIdle self.old.cutter }
        requires word { BeginsWithWord bytes.now len }
        requires some { 0 < length bytes.now }
        requires room { (head fed : List ℕ) × Works self.old head fed × (length (head ++ fed) +
            length bytes.now + 1 < 2 ^ 64) }
        ensures some { IfOk result (λ len. 0 < len) }
        ensures within { IfOk result (λ len. len ≤ length bytes.now) }
        ensures reads { (head fed : List ℕ) → Works self.old head fed →
            IfOk result (λ len. Reads self.new head (fed ++ take len bytes.now)) }
        ensures told { (head fed : List ℕ) → Works self.old head fed →
            IfOk result (λ len. Appends
            (told_after (rules_of self.old) (wiring_of self.old) (tokens_after head fed))
            (told_after (rules_of self.old) (wiring_of self.old) (tokens_after head (fed ++ take len bytes.now)))
            (events_of self.old) (events_of self.new)) }
        ensures refusal { refusal_of self.new ≡ refusal_of self.old }
        ensures keeps { Keeps self.old self.new }
    {
        let behind = &bytes[len + 1..];
        if let Some(more) = short_word(behind) {
            let is_taken = self.machine.vector_at_once(&bytes[..len], &behind[..more]);
            if is_taken {
                let _vector = self.cutter.skip(bytes, len);
                let _code = self.cutter.skip(behind, more);
                return Ok(len + 1 + (more + 1));
            }
        }
        self.word(bytes, len)
    }

    /// The word with which the bytes begin.
    #[inline(always)]
    fn word(&mut self, bytes: &[u8], len: usize) -> Result<usize, AllocError>
        requires idle { IsIdle self.old.cutter }
        requires word { BeginsWithWord bytes.now len }
        requires some { 0 < length bytes.now }
        requires room { (head fed : List ℕ) × Works self.old head fed × (length (head ++ fed) +
            length bytes.now + 1 < 2 ^ 64) }
        ensures some { IfOk result (λ len. 0 < len) }
        ensures within { IfOk result (λ len. len ≤ length bytes.now) }
        ensures reads { (head fed : List ℕ) → Works self.old head fed →
            IfOk result (λ len. Reads self.new head (fed ++ take len bytes.now)) }
        ensures told { (head fed : List ℕ) → Works self.old head fed →
            IfOk result (λ len. Appends
            (told_after (rules_of self.old) (wiring_of self.old) (tokens_after head fed))
            (told_after (rules_of self.old) (wiring_of self.old) (tokens_after head (fed ++ take len bytes.now)))
            (events_of self.old) (events_of self.new)) }
        ensures refusal { refusal_of self.new ≡ refusal_of self.old }
        ensures keeps { Keeps self.old self.new }
    {
        let token = self.cutter.skip(bytes, len);
        self.machine.take(token.place, token.line, &bytes[..len])?;
        Ok(len + 1)
    }

    /// What the cutter cuts off the bytes.
    fn cut(&mut self, bytes: &[u8]) -> Result<usize, AllocError>
        requires some { 0 < length bytes.now }
        requires room { (head fed : List ℕ) × Works self.old head fed × (length (head ++ fed) +
            length bytes.now + 1 < 2 ^ 64) }
        ensures some { IfOk result (λ len. 0 < len) }
        ensures within { IfOk result (λ len. len ≤ length bytes.now) }
        ensures reads { (head fed : List ℕ) → Works self.old head fed →
            IfOk result (λ len. Reads self.new head (fed ++ take len bytes.now)) }
        ensures told { (head fed : List ℕ) → Works self.old head fed →
            IfOk result (λ len. Appends
            (told_after (rules_of self.old) (wiring_of self.old) (tokens_after head fed))
            (told_after (rules_of self.old) (wiring_of self.old) (tokens_after head (fed ++ take len bytes.now)))
            (events_of self.old) (events_of self.new)) }
        ensures refusal { refusal_of self.new ≡ refusal_of self.old }
        ensures keeps { Keeps self.old self.new }
    {
        let cut = self.cutter.next(bytes);
        match cut.token {
            None => Ok(cut.used),
            Some(token) => {
                let word = self.cutter.word(token, bytes);
                self.machine.take(token.place, token.line, word)?;
                Ok(cut.used)
            }
        }
    }

    /// The end of the text. Tells the samples of the last block too, where the text may end there.
    /// Of a text that ends early it tells this, and no more than the pieces that are over.
    pub fn finish(&mut self) -> Result<Option<EarlyEnd>, ScanStop>
        // No `finish` has answered Ok.
        requires { (head fed : List ℕ) × Stands self.old head fed × (length (head ++ fed) + 1 < 2
            ^ 64) }
        ensures refusal { refusal_of self.new ≡ refusal_in result }
        ensures keeps { Keeps self.old self.new }
        ensures answer { (head fed : List ℕ) → Stands self.old head fed → refusal_of self.old ≡
            None →
            Answers result (fault_to_end (rules_of self.old) (wiring_of self.old) head fed) }
        ensures early { (head fed : List ℕ) → Stands self.old head fed →
            IfOk result (λ end. option_map early_told end
            ≡ early_end_after (rules_of self.old) (wiring_of self.old) head fed) }
        ensures told { (head fed : List ℕ) → Stands self.old head fed →
            OnOk result (Appends
            (told_after (rules_of self.old) (wiring_of self.old) (tokens_after head fed))
            (told_to_end (rules_of self.old) (wiring_of self.old) head fed)
            (events_of self.old) (events_of self.new)) }
        ensures marks { (head fed : List ℕ) → Stands self.old head fed → refusal_of self.old ≡
            None → UnlessMemory result (Marks self.new (head ++ fed)
            (rules_of self.old) (wiring_of self.old) (last_tokens_after head fed)) }
        ensures again { (stop : ScanStop) → refusal_of self.old ≡ Some stop → result ≡ Err stop }
    {
        if let Some(stop) = self.refused {
            return Err(stop);
        }
        let answer = self.end();
        if let Err(stop) = answer {
            self.refused = Some(stop);
        }
        answer
    }

    /// The end of the text, where nothing was refused.
    fn end(&mut self) -> Result<Option<EarlyEnd>, ScanStop>
        requires { (head fed : List ℕ) × Works self.old head fed × (length (head ++ fed) + 1 < 2 ^
            64) }
        ensures refusal { refusal_of self.new ≡ refusal_of self.old }
        ensures keeps { Keeps self.old self.new }
        ensures answer { (head fed : List ℕ) → Works self.old head fed →
            Answers result (fault_to_end (rules_of self.old) (wiring_of self.old) head fed) }
        ensures early { (head fed : List ℕ) → Works self.old head fed →
            IfOk result (λ end. option_map early_told end
            ≡ early_end_after (rules_of self.old) (wiring_of self.old) head fed) }
        ensures told { (head fed : List ℕ) → Works self.old head fed →
            OnOk result (Appends
            (told_after (rules_of self.old) (wiring_of self.old) (tokens_after head fed))
            (told_to_end (rules_of self.old) (wiring_of self.old) head fed)
            (events_of self.old) (events_of self.new)) }
        ensures marks { (head fed : List ℕ) → Works self.old head fed →
            UnlessMemory result (Marks self.new (head ++ fed)
            (rules_of self.old) (wiring_of self.old) (last_tokens_after head fed)) }
    {
        let place = self.cutter.place();
        self.last()?;
        match self.machine.fault_at(place) {
            None => {
                self.machine.close()?;
                Ok(None)
            }
            Some(fault) => {
                if !self.machine.lets_end() {
                    return Err(ScanStop::Bad(fault));
                }
                Ok(Some(EarlyEnd {
                    fault,
                    open_from: self.machine.open_from(),
                }))
            }
        }
    }

    /// The last token.
    fn last(&mut self) -> Result<(), AllocError>
        requires { (head fed : List ℕ) × Works self.old head fed × (length (head ++ fed) + 1 < 2 ^
            64) }
        ensures refusal { refusal_of self.new ≡ refusal_of self.old }
        ensures keeps { Keeps self.old self.new }
        ensures took { (head fed : List ℕ) → Works self.old head fed →
            OnOk result (Took self.new (last_tokens_after head fed)) }
        ensures told { (head fed : List ℕ) → Works self.old head fed →
            OnOk result (Appends
            (told_after (rules_of self.old) (wiring_of self.old) (tokens_after head fed))
            (told_after (rules_of self.old) (wiring_of self.old) (last_tokens_after head fed))
            (events_of self.old) (events_of self.new)) }
        ensures lines { (head fed : List ℕ) → Works self.old head fed →
            OnOk result (HasLines self.new (head ++ fed)) }
    {
        match self.cutter.finish() {
            None => Ok(()),
            Some(token) => {
                let word = self.cutter.word(token, &[]);
                self.machine.take(token.place, token.line, word)
            }
        }
    }

    /// What was told and nobody took, in its order.
    pub fn events(&self) -> &[CourseEvent]
        ensures told { map event_told result.now ≡ events_of self.now }
        ensures lines { (text : List ℕ) → HasLines self.now text →
            All (λ e. IsLined text e.stamp) result.now }
    {
        self.machine.told.as_slice()
    }

    /// Where the first section behind the header begins that was read past and says that a limit is
    /// exceeded.
    pub fn limit(&self) -> Option<u64>
        ensures held { result ≡ limit_of self.now }
        ensures told { (head fed : List ℕ) → Stands self.now head fed → refusal_of self.now ≡ None →
            result ≡ limit_after (rules_of self.now) (wiring_of self.now) (tokens_after head fed) }
    {
        self.machine.limit
    }

    /// Forgets what was told so far.
    pub fn take_events(&mut self)
        ensures events { events_of self.new ≡ [] }
        ensures limit { limit_of self.new ≡ limit_of self.old }
        ensures lines { (text : List ℕ) → HasLines self.old text → HasLines self.new text }
        ensures stands { (head fed : List ℕ) → Stands self.old head fed → Stands self.new head fed }
        ensures refusal { refusal_of self.new ≡ refusal_of self.old }
        ensures keeps { Keeps self.old self.new }
    {
        self.machine.told.clear();
    }
}

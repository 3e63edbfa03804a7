ghost use Rattle.std.specs.Prelude.{◌≡◌, ◌<◌, ◌≤◌, ◌+◌, ◌^◌, ◌++◌, ℕ, List, [], length, take, None, Some, Err, true, false, IfOk, OnOk};
ghost use Rattle.vcd_way.specs.Ways.{ValueRules};
ghost use Rattle.vcd_way.specs.Steps.{is_past_header_at};
ghost use Rattle.vcd_cut.specs.Standing.{Stands as CutterStands};
ghost use Rattle.vcd_header.specs.Gathering.{FitsRules, gathered_so_far, gathered_of, header_fault_so_far, header_fault_of};
ghost use Rattle.vcd_header.specs.Told.{declarations_told, sections_told};
ghost use Rattle.vcd_header.specs.Standing.{Works, Stands, refusal_of, rules_of, declared_of, remarks_of, is_over_of, Answers, refusal_in, Reads, Tells, IsApart};

use crate::declared::{Declared, Section};
use crate::gathered::Gathered;
use crate::rules::HeaderRules;
use crate::stop::HeaderStop;
use std::alloc::{AllocError, Global};
use vcd_cut::Cutter;
use vcd_grammar::{VcdCause, VcdFault};

/// Reads the header of a dump in pieces of any size.
#[derive(Drop)]
pub struct HeaderReader {
    cutter: Cutter,
    gathered: Gathered,
    refused: Option<HeaderStop>,
}

impl HeaderReader {
    /// A reader by these rules, before the first byte.
    pub fn new(alloc: Global, rules: HeaderRules) -> Result<Self, AllocError>
        ensures stands { IfOk result (λ r. Stands r []) }
        ensures fresh { IfOk result (λ r. refusal_of r ≡ None) }
        ensures rules { IfOk result (λ r. rules_of r ≡ rules) }
    {
        let cutter = Cutter::new(alloc)?;
        Ok(HeaderReader {
            cutter,
            gathered: Gathered::new(alloc, rules),
            refused: None,
        })
    }

    /// The next piece of the text, up to the end of the header. Tells how many of its bytes were
    /// read: all of them, unless the header is over. After a refusal it refuses in the same way for
    /// good.
    pub fn feed(&mut self, piece: &[u8]) -> Result<usize, HeaderStop>
        // No `finish` has answered Ok, and the bytes fed are few enough to be counted.
        requires { (fed : List ℕ) × Stands self.old fed ×
            (length fed + length piece.now + 1 < 2 ^ 64) }
        ensures within { IfOk result (λ used. used ≤ length piece.now) }
        ensures all { IfOk result (λ used. used < length piece.now → is_over_of self.new ≡ true) }
        ensures stands { (fed : List ℕ) → Stands self.old fed →
            IfOk result (λ used. Stands self.new (fed ++ take used piece.now)) }
        ensures refusal { refusal_of self.new ≡ refusal_in result }
        ensures rules { rules_of self.new ≡ rules_of self.old }
        ensures answer { (m : ValueRules) (fed : List ℕ) → FitsRules m (rules_of self.old) →
            Stands self.old fed → refusal_of self.old ≡ None →
            Answers result (header_fault_so_far m (fed ++ piece.now)) }
        ensures again { (stop : HeaderStop) → refusal_of self.old ≡ Some stop → result ≡ Err stop }
    {
        if let Some(stop) = self.refused {
            return Err(stop);
        }
        let answer = self.absorb(piece);
        if let Err(stop) = answer {
            self.refused = Some(stop);
        }
        answer
    }

    /// The next piece, where nothing was refused.
    fn absorb(&mut self, piece: &[u8]) -> Result<usize, HeaderStop>
        requires { (fed : List ℕ) × Works self.old fed ×
            (length fed + length piece.now + 1 < 2 ^ 64) }
        ensures within { IfOk result (λ used. used ≤ length piece.now) }
        ensures all { IfOk result (λ used. used < length piece.now → is_over_of self.new ≡ true) }
        ensures works { (fed : List ℕ) → Works self.old fed →
            IfOk result (λ used. Works self.new (fed ++ take used piece.now)) }
        ensures refusal { refusal_of self.new ≡ refusal_of self.old }
        ensures rules { rules_of self.new ≡ rules_of self.old }
        ensures answer { (m : ValueRules) (fed : List ℕ) → FitsRules m (rules_of self.old) →
            Works self.old fed → Answers result (header_fault_so_far m (fed ++ piece.now)) }
    {
        let mut used = 0;
        while used < piece.len() {
            if self.gathered.is_over() {
                return Ok(used);
            }
            let len = self.step(&piece[used..])?;
            used += len;
            match self.gathered.fault {
                Some(fault) => return Err(HeaderStop::Bad(fault)),
                None => {}
            }
        }
        Ok(used)
    }

    /// The bytes up to the first white space and that byte too, or all bytes where there is none.
    /// Tells how many.
    fn step(&mut self, bytes: &[u8]) -> Result<usize, AllocError>
        requires some { 0 < length bytes.now }
        requires room { (fed : List ℕ) × Works self.old fed ×
            (length fed + length bytes.now + 1 < 2 ^ 64) }
        requires open { is_over_of self.old ≡ false }
        ensures some { IfOk result (λ len. 0 < len) }
        ensures within { IfOk result (λ len. len ≤ length bytes.now) }
        ensures reads { (fed : List ℕ) → Works self.old fed →
            IfOk result (λ len. Reads self.new (fed ++ take len bytes.now)) }
        ensures apart { OnOk result (IsApart self.new) }
        ensures refusal { refusal_of self.new ≡ refusal_of self.old }
        ensures rules { rules_of self.new ≡ rules_of self.old }
    {
        let cut = self.cutter.next(bytes);
        match cut.token {
            None => Ok(cut.used),
            Some(token) => {
                let word = self.cutter.word(token, bytes);
                self.gathered.take(token.place, word)?;
                Ok(cut.used)
            }
        }
    }

    /// The end of a text that ends before its header is over. After a refusal it refuses in the
    /// same way for good.
    pub fn finish(&mut self) -> Result<(), HeaderStop>
        // No `finish` has answered Ok.
        requires fed { (fed : List ℕ) × Stands self.old fed × (length fed + 1 < 2 ^ 64) }
        requires open { is_over_of self.old ≡ false }
        ensures refusal { refusal_of self.new ≡ refusal_in result }
        ensures rules { rules_of self.new ≡ rules_of self.old }
        ensures answer { (m : ValueRules) (fed : List ℕ) → FitsRules m (rules_of self.old) →
            Stands self.old fed → refusal_of self.old ≡ None →
            Answers result (header_fault_of m fed) }
        ensures declared { (m : ValueRules) (fed : List ℕ) → FitsRules m (rules_of self.old) →
            Stands self.old fed → OnOk result (Tells self.new (gathered_of m fed)) }
        ensures again { (stop : HeaderStop) → refusal_of self.old ≡ Some stop → result ≡ Err stop }
    {
        if let Some(stop) = self.refused {
            return Err(stop);
        }
        let answer = self.end();
        if let Err(stop) = answer {
            self.refused = Some(stop);
        }
        answer
    }

    /// The end of the text, where nothing was refused.
    fn end(&mut self) -> Result<(), HeaderStop>
        requires fed { (fed : List ℕ) × Works self.old fed × (length fed + 1 < 2 ^ 64) }
        requires open { is_over_of self.old ≡ false }
        ensures refusal { refusal_of self.new ≡ refusal_of self.old }
        ensures rules { rules_of self.new ≡ rules_of self.old }
        ensures answer { (m : ValueRules) (fed : List ℕ) → FitsRules m (rules_of self.old) →
            Works self.old fed → Answers result (header_fault_of m fed) }
        ensures declared { (m : ValueRules) (fed : List ℕ) → FitsRules m (rules_of self.old) →
            Works self.old fed → OnOk result (Tells self.new (gathered_of m fed)) }
    {
        let place = self.cutter.place();
        self.last()?;
        if let Some(fault) = self.gathered.fault {
            return Err(HeaderStop::Bad(fault));
        }
        if !self.gathered.is_over() {
            return Err(HeaderStop::Bad(VcdFault {
                place,
                cause: VcdCause::Cut,
            }));
        }
        Ok(())
    }

    /// The last token.
    fn last(&mut self) -> Result<(), AllocError>
        requires fed { (fed : List ℕ) × Works self.old fed × (length fed + 1 < 2 ^ 64) }
        requires open { is_over_of self.old ≡ false }
        ensures refusal { refusal_of self.new ≡ refusal_of self.old }
        ensures rules { rules_of self.new ≡ rules_of self.old }
        ensures state { (m : ValueRules) (fed : List ℕ) → FitsRules m (rules_of self.old) →
            Works self.old fed → OnOk result (Tells self.new (gathered_of m fed)) }
        ensures apart { OnOk result (IsApart self.new) }
    {
        let Some(token) = self.cutter.finish() else {
            return Ok(());
        };
        let word = self.cutter.word(token, &[]);
        self.gathered.take(token.place, word)
    }

    /// Whether the header is over.
    pub fn is_over(&self) -> bool
        ensures over { result ≡ is_over_of self.now }
        ensures state { (m : ValueRules) (fed : List ℕ) → FitsRules m (rules_of self.now) →
            Stands self.now fed → refusal_of self.now ≡ None →
            result ≡ is_past_header_at (gathered_so_far m fed).spot }
    {
        self.gathered.is_over()
    }

    /// The declarations so far, in their order.
    pub fn declarations(&self) -> &[Declared]
        ensures told { declarations_told result.now ≡ declared_of self.now }
        ensures state { (m : ValueRules) (fed : List ℕ) → FitsRules m (rules_of self.now) →
            Stands self.now fed → refusal_of self.now ≡ None →
            declarations_told result.now ≡ (gathered_so_far m fed).header }
    {
        self.gathered.declared.as_slice()
    }

    /// The sections so far that declare nothing, in their order.
    pub fn remarks(&self) -> &[Section]
        ensures told { sections_told result.now ≡ remarks_of self.now }
        ensures state { (m : ValueRules) (fed : List ℕ) → FitsRules m (rules_of self.now) →
            Stands self.now fed → refusal_of self.now ≡ None →
            sections_told result.now ≡ (gathered_so_far m fed).remarks }
    {
        self.gathered.remarks.as_slice()
    }

    /// The cutter that has read what this reader has, to read on with.
    pub fn into_cutter(self) -> Cutter
        ensures { (fed : List ℕ) → Stands self fed → refusal_of self ≡ None →
            CutterStands result fed }
    {
        self.cutter
    }
}

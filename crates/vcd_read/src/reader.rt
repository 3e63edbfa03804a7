ghost use Rattle.std.specs.Prelude.{◌≡◌, ◌<◌, ◌+◌, ◌-◌, ◌^◌, ◌++◌, ℕ, List, [], length, take, nat_lt, None, Some, Err, true, false, ◌⊎◌, IfOk, OnOk, OnErr, if◌then◌else◌};
ghost use Rattle.vcd_grammar.specs.Reading.{marks_of, samples_of, samples_before_end, marks_so_far, marks_at_end, samples_so_far};
ghost use Rattle.vcd_grammar.specs.Judging.{nothing, behind};
ghost use Rattle.vcd_grammar.specs.Tokens.{tokens_of};
ghost use Rattle.vcd_read.specs.Standing.{Works, Stands, refusal_of, limit_of, marks_told, is_followed, Behind, GoesOn};
ghost use Rattle.vcd_read.specs.Answers.{Answers, refusal_in, result_of, fault_or, end_stop, stop_so_far, stop_at_end, AppendsBy, AppendsAtEnd, TellsMarks, is_memory, still_followed};

use crate::scan::Scan;
use crate::stop::VcdStop;
use fsb_io::Memory;
use fsb_signal::{Marks, Sample};
use std::alloc::Global;

/// Reads a dump in pieces of any size.
#[derive(Drop)]
pub struct Reader {
    scan: Scan,
    limit: u32,
    refused: Option<VcdStop>,
    /// The marks behind the last piece that was read to its end.
    marks: Option<Marks>,
    /// Whether these are the marks of all bytes that were fed.
    followed: bool,
}

impl Reader {
    /// A reader of dumps of at most 2^32 - 1 samples, before the first byte.
    pub fn new(alloc: Global) -> Result<Self, Memory>
        ensures stands { IfOk result (λ r. Stands r []) }
        ensures fresh { IfOk result (λ r. refusal_of r ≡ None) }
        ensures limit { IfOk result (λ r. limit_of r ≡ 2 ^ 32 - 1) }
    {
        Reader::up_to(alloc, u32::MAX)
    }

    /// A reader of dumps of at most so many samples, before the first byte.
    pub fn up_to(alloc: Global, limit: u32) -> Result<Self, Memory>
        ensures stands { IfOk result (λ r. Stands r []) }
        ensures fresh { IfOk result (λ r. refusal_of r ≡ None) }
        ensures limit { IfOk result (λ r. limit_of r ≡ limit) }
    {
        let scan = Scan::new(alloc)?;
        Ok(Reader {
            scan,
            limit,
            refused: None,
            marks: None,
            followed: true,
        })
    }

    /// The next piece of the text. Appends the samples that it decides; after a refusal it appends nothing and refuses
    /// in the same way for good, but goes on with the header for its marks.
    pub fn feed(&mut self, piece: &[u8], to: &mut Vec<Sample>) -> Result<(), VcdStop>
        // No `finish` has answered Ok, and the bytes fed are few enough to be counted.
        requires { (fed : List ℕ) × Stands self.old fed × (length fed + length piece.now < 2 ^ 64) }
        ensures stands { (fed : List ℕ) → Stands self.old fed → Stands self.new (fed ++ piece.now) }
        ensures refusal { refusal_of self.new ≡ refusal_in result }
        ensures limit { limit_of self.new ≡ limit_of self.old }
        ensures answer { (fed : List ℕ) → Stands self.old fed → refusal_of self.old ≡ None →
            Answers result (stop_so_far (limit_of self.old) (fed ++ piece.now)) }
        ensures samples { (fed : List ℕ) → Stands self.old fed → refusal_of self.old ≡ None →
            AppendsBy result (samples_so_far fed)
            (take (limit_of self.old) (samples_so_far (fed ++ piece.now)))
            to.old.items to.new.items }
        ensures again { (stop : VcdStop) → refusal_of self.old ≡ Some stop → result ≡ Err stop }
        ensures silent { (stop : VcdStop) → refusal_of self.old ≡ Some stop →
            to.new.items ≡ to.old.items }
        ensures followed { is_followed self.new
            ≡ still_followed (refusal_of self.old) (is_followed self.old) result }
        ensures marks { (fed : List ℕ) → Stands self.old fed → refusal_of self.old ≡ None →
            TellsMarks result (marks_so_far (fed ++ piece.now)) (marks_told self.old)
            (marks_told self.new) }
        ensures marks_behind { (fed : List ℕ) (stop : VcdStop) → Stands self.old fed →
            refusal_of self.old ≡ Some stop → is_followed self.old ≡ true →
            marks_told self.new ≡ marks_so_far (fed ++ piece.now) }
        ensures marks_stay { is_followed self.old ≡ false → refusal_of self.old ≡ None ⊎
            marks_told self.new ≡ marks_told self.old }
    {
        if let Some(stop) = self.refused {
            self.follow(piece, to);
            return Err(stop);
        }
        let answer = self.absorb(piece, to);
        if let Err(stop) = answer {
            self.refused = Some(stop);
            self.followed = !is_memory(stop);
        }
        answer
    }

    /// The next piece behind a refusal, whose marks alone may still come.
    fn follow(&mut self, piece: &[u8], to: &mut Vec<Sample>)
        requires fed { (fed : List ℕ) × Stands self.old fed × (length fed + length piece.now < 2 ^ 64) }
        requires refused { (stop : VcdStop) × (refusal_of self.old ≡ Some stop) }
        ensures stands { (fed : List ℕ) → Stands self.old fed → Stands self.new (fed ++ piece.now) }
        ensures refusal { refusal_of self.new ≡ refusal_of self.old }
        ensures limit { limit_of self.new ≡ limit_of self.old }
        ensures followed { is_followed self.new ≡ is_followed self.old }
        ensures silent { to.new.items ≡ to.old.items }
        ensures marks_stay { is_followed self.old ≡ false →
            marks_told self.new ≡ marks_told self.old }
    {
        if self.followed && self.marks.is_none() {
            self.read_on(piece, to);
        }
    }

    /// The next piece behind a fault, for its marks.
    fn read_on(&mut self, piece: &[u8], to: &mut Vec<Sample>)
        requires { (fed : List ℕ) × Behind self.old.scan fed × (length fed + length piece.now < 2 ^ 64) }
        ensures behind { (fed : List ℕ) → Behind self.old.scan fed → Behind self.new.scan (fed ++ piece.now) }
        ensures marks { (fed : List ℕ) → Behind self.old.scan fed →
            marks_told self.new ≡ marks_so_far (fed ++ piece.now) }
        ensures refusal { refusal_of self.new ≡ refusal_of self.old }
        ensures limit { limit_of self.new ≡ limit_of self.old }
        ensures followed { is_followed self.new ≡ is_followed self.old }
        ensures silent { to.new.items ≡ to.old.items }
    {
        self.scan.absorb(piece, self.limit, to).unwrap();
        self.marks = self.scan.machine.marks();
    }

    /// The next piece, where nothing was refused.
    fn absorb(&mut self, piece: &[u8], to: &mut Vec<Sample>) -> Result<(), VcdStop>
        requires { (fed : List ℕ) × Works self.old fed × (length fed + length piece.now < 2 ^ 64) }
        ensures works { OnOk result
            ((fed : List ℕ) → Works self.old fed → Works self.new (fed ++ piece.now)) }
        ensures limit { limit_of self.new ≡ limit_of self.old }
        ensures marks { (fed : List ℕ) → Works self.old fed →
            TellsMarks result (marks_so_far (fed ++ piece.now)) (marks_told self.old)
            (marks_told self.new) }
        ensures refusal { refusal_of self.new ≡ refusal_of self.old }
        ensures followed { is_followed self.new ≡ is_followed self.old }
        ensures behind { (fed : List ℕ) → Works self.old fed →
            GoesOn result (marks_told self.new) self.new.scan (fed ++ piece.now) }
        ensures answer { (fed : List ℕ) → Works self.old fed →
            Answers result (stop_so_far (limit_of self.old) (fed ++ piece.now)) }
        ensures samples { (fed : List ℕ) → Works self.old fed →
            AppendsBy result (samples_so_far fed)
            (take (limit_of self.old) (samples_so_far (fed ++ piece.now)))
            to.old.items to.new.items }
    {
        self.scan.absorb(piece, self.limit, to)?;
        self.marks = self.scan.machine.marks();
        self.answer()
    }

    /// What the tokens so far answer.
    fn answer(&self) -> Result<(), VcdStop>
        ensures { result ≡ result_of
            (if nat_lt self.now.limit self.now.scan.machine.decided then Some VcdStop.TooLong else
            fault_or self.now.scan.machine.fault None) }
    {
        if u64::from(self.limit) < self.scan.machine.decided {
            return Err(VcdStop::TooLong);
        }
        match self.scan.machine.fault {
            None => Ok(()),
            Some(fault) => Err(VcdStop::Bad(fault)),
        }
    }

    /// Which of the two parity lines the dump declares: none is told exactly until its `$enddefinitions` has its `$end`, in
    /// a token that counts. A fault makes no difference, but lines that are declared behind it do not count. After want of
    /// memory what is told stays as it was.
    pub fn marks(&self) -> Option<Marks>
        ensures told { result ≡ marks_told self.now }
        ensures marks { (fed : List ℕ) → Stands self.now fed → is_followed self.now ≡ true →
            result ≡ marks_so_far fed }
    {
        self.marks
    }

    /// The end of the text. Appends the samples that it decides; after a refusal it appends nothing and refuses in the
    /// same way for good.
    pub fn finish(&mut self, to: &mut Vec<Sample>) -> Result<(), VcdStop>
        // No `finish` has answered Ok.
        requires { (fed : List ℕ) × Stands self.old fed }
        ensures stands { OnErr result ((fed : List ℕ) → Stands self.old fed → Stands self.new fed) }
        ensures refusal { refusal_of self.new ≡ refusal_in result }
        ensures limit { limit_of self.new ≡ limit_of self.old }
        ensures answer { (fed : List ℕ) → Stands self.old fed → refusal_of self.old ≡ None →
            Answers result (stop_at_end (limit_of self.old) fed) }
        ensures samples { (fed : List ℕ) → Stands self.old fed → refusal_of self.old ≡ None →
            AppendsAtEnd result (limit_of self.old) (samples_so_far fed) (samples_before_end fed)
            (samples_of fed) to.old.items to.new.items }
        ensures again { (stop : VcdStop) → refusal_of self.old ≡ Some stop → result ≡ Err stop }
        ensures silent { (stop : VcdStop) → refusal_of self.old ≡ Some stop →
            to.new.items ≡ to.old.items }
        ensures marks { OnOk result
            ((fed : List ℕ) → Stands self.old fed → marks_told self.new ≡ Some (marks_of fed)) }
        ensures followed { is_followed self.new ≡ false }
        ensures marks_at_end { (fed : List ℕ) → Stands self.old fed → refusal_of self.old ≡ None →
            TellsMarks result (marks_at_end fed) (marks_told self.old) (marks_told self.new) }
        ensures marks_behind { (fed : List ℕ) (stop : VcdStop) → Stands self.old fed →
            refusal_of self.old ≡ Some stop → is_followed self.old ≡ true →
            marks_told self.new ≡ marks_at_end fed }
        ensures marks_stay { is_followed self.old ≡ false → refusal_of self.old ≡ None ⊎
            marks_told self.new ≡ marks_told self.old }
    {
        if let Some(stop) = self.refused {
            self.follow_end(to);
            return Err(stop);
        }
        let answer = self.end(to);
        self.followed = false;
        match answer {
            Ok(()) => self.marks = Some(self.scan.machine.declared_marks()),
            Err(stop) => self.refused = Some(stop),
        }
        answer
    }

    /// The end of the text behind a refusal, whose marks alone may still come.
    fn follow_end(&mut self, to: &mut Vec<Sample>)
        requires fed { (fed : List ℕ) × Stands self.old fed }
        requires refused { (stop : VcdStop) × (refusal_of self.old ≡ Some stop) }
        ensures stands { (fed : List ℕ) → Stands self.old fed → Stands self.new fed }
        ensures refusal { refusal_of self.new ≡ refusal_of self.old }
        ensures limit { limit_of self.new ≡ limit_of self.old }
        ensures followed { is_followed self.new ≡ false }
        ensures silent { to.new.items ≡ to.old.items }
        ensures marks { (fed : List ℕ) → Stands self.old fed → is_followed self.old ≡ true →
            marks_told self.new ≡ marks_at_end fed }
        ensures marks_stay { is_followed self.old ≡ false →
            marks_told self.new ≡ marks_told self.old }
    {
        self.last_marks(to);
        self.followed = false;
    }

    /// The marks of the whole text, unless they were told or do not come any more.
    fn last_marks(&mut self, to: &mut Vec<Sample>)
        requires fed { (fed : List ℕ) × Stands self.old fed }
        requires refused { (stop : VcdStop) × (refusal_of self.old ≡ Some stop) }
        ensures refusal { refusal_of self.new ≡ refusal_of self.old }
        ensures limit { limit_of self.new ≡ limit_of self.old }
        ensures silent { to.new.items ≡ to.old.items }
        ensures marks { (fed : List ℕ) → Stands self.old fed → is_followed self.old ≡ true →
            marks_told self.new ≡ marks_at_end fed }
        ensures marks_stay { is_followed self.old ≡ false →
            marks_told self.new ≡ marks_told self.old }
    {
        if self.followed && self.marks.is_none() {
            self.read_end(to);
        }
    }

    /// The end of the text behind a fault, for its marks.
    fn read_end(&mut self, to: &mut Vec<Sample>)
        requires { (fed : List ℕ) × Behind self.old.scan fed }
        ensures marks { (fed : List ℕ) → Behind self.old.scan fed →
            marks_told self.new ≡ marks_at_end fed }
        ensures refusal { refusal_of self.new ≡ refusal_of self.old }
        ensures limit { limit_of self.new ≡ limit_of self.old }
        ensures silent { to.new.items ≡ to.old.items }
    {
        let _more = self.scan.finish(self.limit, to).unwrap();
        self.marks = self.scan.machine.marks();
    }

    /// The end of the text, where nothing was refused.
    fn end(&mut self, to: &mut Vec<Sample>) -> Result<(), VcdStop>
        requires { (fed : List ℕ) × Works self.old fed }
        ensures limit { limit_of self.new ≡ limit_of self.old }
        ensures marks { (fed : List ℕ) → Works self.old fed →
            TellsMarks result (marks_at_end fed) (marks_told self.old) (marks_told self.new) }
        ensures refusal { refusal_of self.new ≡ refusal_of self.old }
        ensures declared { OnOk result ((fed : List ℕ) → Works self.old fed →
            self.new.scan.machine.lines.items ≡ (behind nothing (tokens_of fed)).lines) }
        ensures answer { (fed : List ℕ) → Works self.old fed →
            Answers result (stop_at_end (limit_of self.old) fed) }
        ensures samples { (fed : List ℕ) → Works self.old fed →
            AppendsAtEnd result (limit_of self.old) (samples_so_far fed) (samples_before_end fed)
            (samples_of fed) to.old.items to.new.items }
    {
        let more = self.scan.finish(self.limit, to)?;
        self.marks = self.scan.machine.marks();
        self.end_answer(more)
    }

    /// What the whole text answers, where its end decides one more sample or not.
    #[tactic(auto, unfolding(crate::specs::Answers::end_stop))]
    fn end_answer(&self, more: bool) -> Result<(), VcdStop>
        ensures { result ≡ result_of
            (end_stop self.now.limit self.now.scan.machine.decided self.now.scan.machine.fault
            more) }
    {
        if u64::from(self.limit) < self.scan.machine.decided {
            return Err(VcdStop::TooLong);
        }
        if let Some(fault) = self.scan.machine.fault {
            return Err(VcdStop::Bad(fault));
        }
        if more && self.scan.machine.decided == u64::from(self.limit) {
            return Err(VcdStop::TooLong);
        }
        Ok(())
    }
}

/// Whether memory was wanting.
fn is_memory(stop: VcdStop) -> bool
    ensures { result ≡ is_memory stop }
{
    match stop {
        VcdStop::Memory => true,
        VcdStop::Bad(_) | VcdStop::TooLong => false,
    }
}

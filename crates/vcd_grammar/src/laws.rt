ghost use Rattle.std.specs.Prelude.{◌≡◌, ℕ, List, [], ◌++◌, Some, None, is_some, ◌⊎◌};
ghost use Rattle.fsb_signal.specs.declared.marks.Marks.{Marks};
ghost use Rattle.fsb_signal.specs.declared.sample.Sample.{Sample};
ghost use Rattle.vcd_grammar.specs.declared.fault.VcdFault.{VcdFault};
ghost use Rattle.vcd_grammar.specs.Heading.{is_header_over};
ghost use Rattle.vcd_grammar.specs.Tokens.{tokens_so_far, tokens_of};
ghost use Rattle.vcd_grammar.specs.Reading.{Reads, FirstFault, marks_of, marks_so_far, marks_at_end, samples_so_far, first_fault};

/// Each text has exactly one answer: its marks and one trace, or one first fault.
pub fn one_answer()
    ensures one_trace { (text : List ℕ) (m n : Marks) (w v : List Sample) → Reads text m w →
        Reads text n v → w ≡ v }
    ensures one_marks { (text : List ℕ) (m n : Marks) (w v : List Sample) → Reads text m w →
        Reads text n v → m ≡ n }
    ensures one_fault { (text : List ℕ) (f g : VcdFault) → FirstFault text f → FirstFault text g →
        f ≡ g }
    ensures not_both { (text : List ℕ) (m : Marks) (w : List Sample) (f : VcdFault) →
        Reads text m w → FirstFault text f → ⊥ }
    ensures either { (text : List ℕ) →
        ((m : Marks) × (w : List Sample) × Reads text m w) ⊎ ((f : VcdFault) × FirstFault text f) }
{}

/// The marks are known exactly once the `$enddefinitions` has its `$end`, also behind a fault. They come before the first
/// sample, and stay: what the first bytes of a text show, the whole text has.
pub fn marks_come_first()
    ensures over { (fed : List ℕ) →
        is_some (marks_so_far fed) ≡ is_header_over (tokens_so_far fed) }
    ensures over_at_end { (text : List ℕ) →
        is_some (marks_at_end text) ≡ is_header_over (tokens_of text) }
    ensures at_end { (fed : List ℕ) (m : Marks) → marks_so_far fed ≡ Some m →
        marks_at_end fed ≡ Some m }
    ensures none { (fed : List ℕ) → marks_so_far fed ≡ None → samples_so_far fed ≡ [] }
    ensures stay { (fed more : List ℕ) (m : Marks) → marks_so_far fed ≡ Some m →
        marks_so_far (fed ++ more) ≡ Some m }
    ensures whole { (fed more : List ℕ) (m : Marks) → marks_so_far fed ≡ Some m →
        marks_of (fed ++ more) ≡ m }
{}

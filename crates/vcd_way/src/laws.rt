ghost use Rattle.std.specs.Prelude.{◌≡◌, ℕ, Bool, List, [], ◌++◌, Some, None, is_some, option_map, length, ◌⊎◌};
ghost use Rattle.vcd_grammar.specs.declared.fault.VcdFault.{VcdFault};
ghost use Rattle.vcd_grammar.specs.Reading.{first_fault, samples_of, samples_before_end, samples_so_far, marks_of, fault_so_far, marks_so_far, marks_at_end};
ghost use Rattle.vcd_way.specs.Ways.{Way};
ghost use Rattle.vcd_way.specs.Events.{DumpEvent, samples_among};
ghost use Rattle.vcd_way.specs.Answers.{ReadsBy, FirstFaultBy, first_fault_by, events_by, events_before_end_by, events_so_far_by, fault_so_far_by, header_by, header_so_far_by, header_at_end_by};
ghost use Rattle.vcd_way.specs.Strict.{strict, marks_by};
ghost use Rattle.vcd_way.specs.Lawful.{IsLawfulWay, values_so_far_by, HasWidths};
ghost use Rattle.vcd_grammar.specs.Heading.{is_header_over};
ghost use Rattle.vcd_grammar.specs.Tokens.{tokens_so_far, tokens_of};

use vcd_grammar::marks_come_first;

/// The strict way is the grammar: the same faults, samples and marks, of a whole text and of its
/// first bytes. By it a dump has samples and no holes.
pub fn strict_is_the_grammar()
    ensures fault { (text : List ℕ) → first_fault text ≡ first_fault_by strict text }
    ensures samples { (text : List ℕ) → samples_of text ≡ samples_among (events_by strict text) }
    ensures alone { (text : List ℕ) → length (events_by strict text) ≡ length (samples_of text) }
    ensures before_end { (text : List ℕ) →
        samples_before_end text ≡ samples_among (events_before_end_by strict text) }
    ensures marks { (text : List ℕ) → marks_of text ≡ marks_by (header_by strict text) }
    ensures fault_so_far { (fed : List ℕ) → fault_so_far fed ≡ fault_so_far_by strict fed }
    ensures so_far { (fed : List ℕ) →
        samples_so_far fed ≡ samples_among (events_so_far_by strict fed) }
    ensures marks_so_far { (fed : List ℕ) →
        marks_so_far fed ≡ option_map marks_by (header_so_far_by strict fed) }
    ensures marks_at_end { (text : List ℕ) →
        marks_at_end text ≡ option_map marks_by (header_at_end_by strict text) }
{
    marks_come_first();
}

/// In each way each text has exactly one answer: one header and one list of events, or one first
/// fault.
pub fn one_answer<W>()
    ensures one_header { (way : Way W) (text : List ℕ) (h j : W) (e d : List DumpEvent) →
        ReadsBy way text h e → ReadsBy way text j d → h ≡ j }
    ensures one_list { (way : Way W) (text : List ℕ) (h j : W) (e d : List DumpEvent) →
        ReadsBy way text h e → ReadsBy way text j d → e ≡ d }
    ensures one_fault { (way : Way W) (text : List ℕ) (f g : VcdFault) → FirstFaultBy way text f →
        FirstFaultBy way text g → f ≡ g }
    ensures not_both { (way : Way W) (text : List ℕ) (h : W) (e : List DumpEvent) (f : VcdFault) →
        ReadsBy way text h e → FirstFaultBy way text f → ⊥ }
    ensures either { (way : Way W) (text : List ℕ) →
        ((h : W) × (e : List DumpEvent) × ReadsBy way text h e)
        ⊎ ((f : VcdFault) × FirstFaultBy way text f) }
{}

/// In each way what is kept of the header is known exactly once its `$enddefinitions` has its
/// `$end`, also after a fault. It comes before the first event, and stays: what the first bytes of
/// a text show, the whole text has.
pub fn header_comes_first<W>()
    ensures over { (way : Way W) (fed : List ℕ) →
        is_some (header_so_far_by way fed) ≡ is_header_over (tokens_so_far fed) }
    ensures over_at_end { (way : Way W) (text : List ℕ) →
        is_some (header_at_end_by way text) ≡ is_header_over (tokens_of text) }
    ensures at_end { (way : Way W) (text : List ℕ) (h : W) → header_so_far_by way text ≡ Some h →
        header_at_end_by way text ≡ Some h }
    ensures none { (way : Way W) (fed : List ℕ) → header_so_far_by way fed ≡ None →
        events_so_far_by way fed ≡ [] }
    ensures stay { (way : Way W) (fed more : List ℕ) (h : W) → header_so_far_by way fed ≡ Some h →
        header_so_far_by way (fed ++ more) ≡ Some h }
    ensures whole { (way : Way W) (fed more : List ℕ) (h : W) → header_so_far_by way fed ≡ Some h →
        header_by way (fed ++ more) ≡ h }
{}

/// In each way the events of the first bytes are the first events of the text. A fault among them
/// is its first fault.
pub fn first_bytes_stay<W>()
    ensures so_far { (way : Way W) (fed more : List ℕ) →
        (rest : List DumpEvent)
        × (events_so_far_by way (fed ++ more) ≡ events_so_far_by way fed ++ rest) }
    ensures events { (way : Way W) (fed more : List ℕ) →
        (rest : List DumpEvent) × (events_by way (fed ++ more) ≡ events_so_far_by way fed ++ rest) }
    ensures fault { (way : Way W) (fed more : List ℕ) (f : VcdFault) →
        fault_so_far_by way fed ≡ Some f → first_fault_by way (fed ++ more) ≡ Some f }
{}

/// In a lawful way each line has as many digits as the signal table says, whatever stands in the
/// text.
pub fn lines_keep_their_widths<W>()
    ensures widths { (way : Way W) (holds : W → Bool) (fed : List ℕ) → IsLawfulWay way holds →
        HasWidths (values_so_far_by way fed) }
{}

//! What ties the reader of dumps to their writer: what is written of a trace reads back as that trace. The contracts are
//! laws on the words of `fsb_signal` and `vcd_grammar` in which the contracts of the writer and of the reader are stated.
//! The must-fail edits turn definitions that the laws rest on.
#![tactic(auto)]

ghost use Rattle.std.specs.Prelude.{◌≡◌, ℕ, ◌<◌, ◌≤◌, ◌^◌, ◌⊎◌, List, IsTrue, All, length};
ghost use Rattle.fsb_signal.specs.declared.sample.Sample.{Sample};
ghost use Rattle.std.specs.List.{list_all};
ghost use Rattle.fsb_signal.specs.Parity.{has_no_parity, marks_in};
ghost use Rattle.fsb_signal.specs.Samples.{is_known_trace};
ghost use Rattle.fsb_signal.specs.DumpText.{dump_text};
ghost use Rattle.vcd_grammar.specs.Reading.{Reads};
ghost use Rattle.vcd_laws.specs.Written.{IsWritten};

use fsb_signal::{Sample, Word};

/// The dump that is written of a trace in a profile says this trace and has the marks of the profile, where no bit of it is
/// unknown, it has at most 200,000 samples, and in profile 1 none asserts a parity line. So no two such traces have one
/// dump, nor does one trace in two profiles.
pub fn written_dumps_read_back()
    ensures reads { (p : ℕ) (w : List Sample) → IsWritten p w →
        Reads (dump_text p w) (marks_in p) w }
    ensures own_text { (p q : ℕ) (v w : List Sample) → IsWritten p v → IsWritten q w
        → dump_text p v ≡ dump_text q w → v ≡ w }
    ensures own_profile { (p q : ℕ) (v w : List Sample) → IsWritten p v → IsWritten q w
        → dump_text p v ≡ dump_text q w → p ≡ q }
{}

/// The same of a trace in memory, whose data words have 64 lines by their type.
pub fn its_dump_reads_back(profile: u8, samples: &[Sample])
    requires profile { profile ≡ 1 ⊎ profile ≡ 2 }
    requires known { IsTrue (is_known_trace samples.now) }
    requires parity { profile ≡ 1 → IsTrue (list_all has_no_parity samples.now) }
    requires few { length samples.now ≤ 200000 }
    ensures { Reads (dump_text profile samples.now) (marks_in profile) samples.now }
{
    data_has_64_lines(samples);
}

// No data word in memory has a bit above its 64 lines.
fn data_has_64_lines(samples: &[Sample])
    ensures { All (λ s. s.dbus.bits < 2 ^ 64) samples.now }
{
    for sample in samples {
        word_has_64_lines(&sample.dbus);
    }
}

// The type of a word's bits says so, where they are looked at.
fn word_has_64_lines(word: &Word)
    ensures { word.now.bits < 2 ^ 64 }
{
    let _bits = word.bits;
}

ghost use Rattle.std.specs.Prelude.{List, Bool};
ghost use Rattle.fsb_signal.specs.declared.sample.Sample.{Sample as SampleIs};
ghost use Rattle.vcd_grammar.specs.Reading.{Reads};
ghost use Rattle.scope_write.specs.Text.{shown_dump};
ghost use Rattle.scope_write.specs.Samples.{AreShown, Has64Lines, marks_there};

use fsb_signal::Sample;

/// The text of samples says by the strict grammar exactly these samples, and has the marks of the lines that are there,
/// where nothing is asserted or unknown on a line that is not written, and there are at most 10^18 of them.
pub fn shown_dumps_read_back()
    ensures { (there : List Bool) (w : List SampleIs) → AreShown there w →
        Reads (shown_dump there w) (marks_there there) w }
{}

/// The data word of a sample in memory has 64 lines, by its type.
pub fn sample_has_64_lines(sample: &Sample)
    ensures { Has64Lines sample.now }
{
    let _bits = sample.dbus.bits;
    let _unknown = sample.dbus.unknown;
}

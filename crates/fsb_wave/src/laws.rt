//! What a wave shows. Each clause is a law on the definition of its text.

ghost use Rattle.std.specs.Prelude.{◌≡◌, ◌≤◌, ◌<◌, ◌^◌, ℕ, List, Some, IsTrue, length, slice_get};
ghost use Rattle.fsb_signal.specs.declared.lines.TheConstants.Lines.{DRDY};
ghost use Rattle.fsb_signal.specs.declared.sample.Sample.{Sample};
ghost use Rattle.fsb_signal.specs.Samples.{has_line, line_at};
ghost use Rattle.fsb_wave.specs.WaveText.{NamedLine, control_lines, has_request, wave_lines};
ghost use Rattle.fsb_wave.specs.Law.{EqualWaves, EqualWavesAt, AreShownAlike, is_unknown_at};

/// Two traces whose waves over a range are the same text have waves of the same lines, the same number of samples, and
/// at each clock of the range the same control lines asserted and the same unknown. The same clocks of the range have
/// ADS# at them or before them, and there the address and request words are shown alike: both known and the same, or
/// neither known. So are the data words, which have 64 lines, at a clock with DRDY#.
pub fn equal_waves_show_equal_lines()
    ensures lines { (v w : List Sample) (from to : ℕ) → EqualWaves v w from to
        → wave_lines v from to ≡ wave_lines w from to }
    ensures number { (v w : List Sample) (from to : ℕ) → EqualWaves v w from to
        → length v ≡ length w }
    ensures asserted { (v w : List Sample) (from to : ℕ) → EqualWaves v w from to
        → (c : ℕ) → from ≤ c → c ≤ to
        → (k : ℕ) (named : NamedLine) → slice_get control_lines k ≡ Some named
        → line_at named.line v c ≡ line_at named.line w c }
    ensures unknown { (v w : List Sample) (from to : ℕ) → EqualWaves v w from to
        → (c : ℕ) → from ≤ c → c ≤ to
        → (k : ℕ) (named : NamedLine) → slice_get control_lines k ≡ Some named
        → is_unknown_at named.line v c ≡ is_unknown_at named.line w c }
    ensures asked { (v w : List Sample) (from to c : ℕ) (s t : Sample)
        → EqualWavesAt v w from to c s t
        → has_request (slice_get v) c ≡ has_request (slice_get w) c }
    ensures address { (v w : List Sample) (from to c : ℕ) (s t : Sample)
        → EqualWavesAt v w from to c s t → IsTrue (has_request (slice_get v) c)
        → AreShownAlike s.addr t.addr }
    ensures request { (v w : List Sample) (from to c : ℕ) (s t : Sample)
        → EqualWavesAt v w from to c s t → IsTrue (has_request (slice_get v) c)
        → AreShownAlike s.req t.req }
    ensures data { (v w : List Sample) (from to c : ℕ) (s t : Sample)
        → EqualWavesAt v w from to c s t → IsTrue (has_line s DRDY)
        → s.dbus.bits < 2 ^ 64 → t.dbus.bits < 2 ^ 64
        → AreShownAlike s.dbus t.dbus }
{}

ghost use Rattle.std.specs.Prelude.{◌≡◌, ◌≤◌, ◌<◌, ◌+◌, ◌^◌, ◌++◌, ◌∷◌, [], ℕ, List, Some, IfSome, length, option_map, slice_get};
ghost use Rattle.std.specs.Option.{option_copied};
ghost use Rattle.fsb_count.specs.Clocks.{count_where, nth_where};
ghost use Rattle.fsb_signal.specs.declared.sample.Sample.{Sample};
ghost use Rattle.fsb_wave.specs.WaveText.{wave_lines, lines_over, lines_below, lines_behind, requests, transfers, drawings, asserts_at, has_request, mark_at, text_at, request_text, data_text};
ghost use Rattle.fsb_wave.specs.Wave.{Stands, kept_at, shown};

use crate::range::ClockRange;
use crate::text::{clocks_line, data_line, drawn_name, mark_of, request_line};
use arrayvec::ArrayVec;
use fsb_count::{count_where, nth_where};
use fsb_io::Line;
use fsb_signal::{Lines, Sample, control_line, idle_sample};

/// The drawing of a range of at most 64 clocks of a trace, which is fed sample by sample.
///
/// It is a list of lines, each with its line feed: one for each of the 21 control lines; then the address and request
/// words of each clock with ADS# at it or at the clock before it; then the data word of each clock with DRDY#; then the
/// number of samples. A line is drawn with a character for each clock: `#` asserted, `.` not asserted, `?` unknown. No
/// call takes memory.
#[derive(Drop)]
pub struct Wave {
    /// The clocks that are drawn.
    range: ClockRange,
    /// How many samples were fed.
    count: u64,
    /// The samples from the clock before the range on.
    kept: [Sample; 65],
}

impl Wave {
    /// The wave of the clocks from `from` to `to`, at most 64, before the first sample.
    pub fn new(from: u32, to: u32) -> Wave
        requires ordered { from ≤ to }
        requires few { to ≤ from + 63 }
        ensures { Stands result from to [] }
    {
        Wave {
            range: ClockRange { from, to },
            count: 0,
            kept: [idle_sample(); 65],
        }
    }

    /// Takes the sample of the next clock. Fewer than 2^32 samples were fed before.
    pub fn feed(&mut self, sample: &Sample)
        requires { (from : ℕ) × (to : ℕ) × (h : List Sample) × Stands self.old from to h
            × (length h < 2 ^ 32) }
        ensures { (from to : ℕ) (h : List Sample) → Stands self.old from to h
            → Stands self.new from to (h ++ sample.now ∷ []) }
    {
        if self.range.first_kept() <= self.count && self.count <= u64::from(self.range.to) {
            self.kept[self.range.place_of(self.count)] = *sample;
        }
        self.count += 1;
    }

    /// How many lines there are.
    pub fn lines(&self) -> u32
        ensures { (from to : ℕ) (h : List Sample) → Stands self.now from to h
            → result ≡ length (wave_lines h from to) }
    {
        self.length() as u32
    }

    /// The line of this number, from 0, with its line feed; none where there are not so many.
    pub fn line(&self, i: u32) -> Option<Line>
        ensures { (from to : ℕ) (h : List Sample) → Stands self.now from to h
            → option_map (λ line. line.items) result ≡ slice_get (wave_lines h from to) i }
    {
        self.line_of(i as usize)
    }

    // How many lines there are, by what is kept.
    fn length(&self) -> usize
        ensures value { result
            ≡ length (lines_over (kept_at self.now) self.now.range.from (shown self.now)
            self.now.count) }
        ensures few { result ≤ 150 }
    {
        21 + self.requests() + self.transfers() + 1
    }

    // The line of this number, by what is kept.
    fn line_of(&self, i: usize) -> Option<Line>
        ensures { option_map (λ line. line.items) result
            ≡ slice_get (lines_over (kept_at self.now) self.now.range.from (shown self.now)
            self.now.count)
            i }
    {
        if i < 21 {
            Some(self.drawing(i))
        } else {
            self.line_below(i - 21)
        }
    }

    // The line of this number below the drawings.
    fn line_below(&self, i: usize) -> Option<Line>
        ensures { option_map (λ line. line.items) result
            ≡ slice_get (lines_below (kept_at self.now) self.now.range.from (shown self.now)
            self.now.count)
            i }
    {
        let requests = self.requests();
        if i < requests {
            self.request(i)
        } else {
            self.line_behind(i - requests)
        }
    }

    // The line of this number behind the lines of requests.
    fn line_behind(&self, i: usize) -> Option<Line>
        ensures { option_map (λ line. line.items) result
            ≡ slice_get (lines_behind (kept_at self.now) self.now.range.from (shown self.now)
            self.now.count)
            i }
    {
        let transfers = self.transfers();
        if i < transfers {
            self.transfer(i)
        } else if i == transfers {
            Some(clocks_line(self.count))
        } else {
            None
        }
    }

    // The drawing of a control line.
    fn drawing(&self, number: usize) -> Line
        requires { number < 21 }
        ensures { slice_get (drawings (kept_at self.now) self.now.range.from (shown self.now))
            number
            ≡ Some result.items }
    {
        let (name, control) = control_line(number);
        let mut line = drawn_name(name);
        for place in 0..self.shown() {
            line.push(self.mark(control, place));
        }
        line.push(b'\n');
        line
    }

    // How a line is drawn at a place of the range.
    #[tactic(auto, unfolding(crate::specs::WaveText::mark_at))]
    fn mark(&self, line: Lines, place: usize) -> u8
        requires { place < 64 }
        ensures { result ≡ mark_at (kept_at self.now) line (self.now.range.from + place) }
    {
        match self.sample_at(self.range.clock_of(place)) {
            Some(sample) => mark_of(line, sample),
            None => b'.',
        }
    }

    // How many lines of requests there are.
    fn requests(&self) -> usize
        ensures { result
            ≡ count_where (λ place. has_request (kept_at self.now) (self.now.range.from + place))
            (shown self.now) }
    {
        count_where(self.shown(), |place| self.has_request(place))
    }

    // The place of the k-th of them.
    fn request_place(&self, k: usize) -> Option<usize>
        ensures value { result
            ≡ nth_where (λ place. has_request (kept_at self.now) (self.now.range.from + place)) k
            (shown self.now) }
        ensures few { IfSome result (λ place. place < 64) }
    {
        nth_where(k, self.shown(), |place| self.has_request(place))
    }

    // The line of the k-th clock of a request.
    fn request(&self, k: usize) -> Option<Line>
        ensures { option_map (λ line. line.items) result
            ≡ slice_get (requests (kept_at self.now) self.now.range.from (shown self.now)) k }
    {
        match self.request_place(k) {
            Some(place) => Some(self.request_at(place)),
            None => None,
        }
    }

    // The line of a request at a place of the range.
    #[tactic(auto, unfolding(crate::specs::WaveText::text_at))]
    fn request_at(&self, place: usize) -> Line
        requires { place < 64 }
        ensures { result.items ≡ text_at request_text (kept_at self.now)
            (self.now.range.from + place) }
    {
        let clock = self.range.clock_of(place);
        match self.sample_at(clock) {
            Some(sample) => request_line(clock, sample),
            None => ArrayVec::new(),
        }
    }

    // How many lines of data there are.
    fn transfers(&self) -> usize
        ensures { result
            ≡ count_where (λ place.
            asserts_at (kept_at self.now) Lines.DRDY (self.now.range.from + place))
            (shown self.now) }
    {
        count_where(self.shown(), |place| self.has_data(place))
    }

    // The place of the k-th of them.
    fn transfer_place(&self, k: usize) -> Option<usize>
        ensures value { result
            ≡ nth_where (λ place. asserts_at (kept_at self.now) Lines.DRDY
            (self.now.range.from + place)) k
            (shown self.now) }
        ensures few { IfSome result (λ place. place < 64) }
    {
        nth_where(k, self.shown(), |place| self.has_data(place))
    }

    // The line of the k-th clock of data.
    fn transfer(&self, k: usize) -> Option<Line>
        ensures { option_map (λ line. line.items) result
            ≡ slice_get (transfers (kept_at self.now) self.now.range.from (shown self.now)) k }
    {
        match self.transfer_place(k) {
            Some(place) => Some(self.data_at(place)),
            None => None,
        }
    }

    // The line of data at a place of the range.
    #[tactic(auto, unfolding(crate::specs::WaveText::text_at))]
    fn data_at(&self, place: usize) -> Line
        requires { place < 64 }
        ensures { result.items ≡ text_at data_text (kept_at self.now)
            (self.now.range.from + place) }
    {
        let clock = self.range.clock_of(place);
        match self.sample_at(clock) {
            Some(sample) => data_line(clock, sample),
            None => ArrayVec::new(),
        }
    }

    // Whether ADS# is asserted at a place of the range or at the clock before it.
    #[tactic(auto, unfolding(crate::specs::WaveText::has_request))]
    fn has_request(&self, place: usize) -> bool
        requires { place < 64 }
        ensures { result ≡ has_request (kept_at self.now) (self.now.range.from + place) }
    {
        let clock = self.range.clock_of(place);
        self.has_at(Lines::ADS, clock) || self.has_at(Lines::ADS, clock.saturating_sub(1))
    }

    // Whether DRDY# is asserted at a place of the range.
    fn has_data(&self, place: usize) -> bool
        requires { place < 64 }
        ensures { result ≡ asserts_at (kept_at self.now) Lines.DRDY (self.now.range.from + place) }
    {
        self.has_at(Lines::DRDY, self.range.clock_of(place))
    }

    // Whether the line is asserted at a clock, as far as it is kept.
    #[tactic(auto, unfolding(crate::specs::WaveText::asserts_at))]
    fn has_at(&self, line: Lines, clock: u64) -> bool
        ensures { result ≡ asserts_at (kept_at self.now) line clock }
    {
        match self.sample_at(clock) {
            Some(sample) => sample.has(line),
            None => false,
        }
    }

    // What is kept of a clock.
    #[tactic(auto, unfolding(crate::specs::Wave::kept_at))]
    fn sample_at(&self, clock: u64) -> Option<&Sample>
        ensures { option_copied result ≡ kept_at self.now clock }
    {
        let place = clock.saturating_sub(self.range.first_kept());
        self.kept.get(place as usize)
    }

    // How many clocks of the range were fed.
    fn shown(&self) -> usize
        ensures value { result ≡ shown self.now }
        ensures few { result ≤ 64 }
    {
        self.range.reached(self.count)
    }
}

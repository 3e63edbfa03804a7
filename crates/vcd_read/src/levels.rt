ghost use Rattle.std.specs.Prelude.{◌≡◌, ◌<◌, ◌≤◌, ◌-◌, ◌^◌, ℕ, List, [], ◌∷◌, length, slice_index, true, false, if◌then◌else◌};
ghost use Rattle.std.specs.List.{list_all};
ghost use Rattle.vcd_grammar.specs.Digits.{extended, pad_of};
ghost use Rattle.vcd_grammar.specs.Levels.{bits_from, is_low, level_of, control_of, asserted_at, unknown_at};
ghost use Rattle.vcd_grammar.specs.Values.{sample_at, word_of};
ghost use Rattle.vcd_grammar.specs.Judging.{is_too_wide};
ghost use Rattle.fsb_signal.specs.DumpText.{width_of};
ghost use Rattle.vcd_read.specs.Lanes.{is_binary};
ghost use Rattle.vcd_read.specs.Lines.{with_line, with_lines, nothing_set};

use crate::digits::{is_unknown, pad_of};
use fsb_signal::{Lines, Sample, Word, signal_at};
use vcd_grammar::Level;

/// What each signal of the table has, and the digit of the clock.
#[derive(Clone, Copy, Debug)]
pub(crate) struct Values {
    pub(crate) levels: [Level; 22],
    pub(crate) clock: u8,
}

/// The digit that is put before a value that is too short.
fn pad_before(digits: &[u8]) -> u8
    ensures { result ≡ pad_of (slice_index digits.now 0) }
{
    match digits {
        [] => b'0',
        [first, ..] => pad_of(*first),
    }
}

/// So many ones.
fn ones(count: usize) -> u64
    requires { count ≤ 64 }
    ensures { result ≡ 2 ^ count - 1 }
{
    if count == 0 {
        0
    } else {
        u64::MAX >> (64 - count)
    }
}

/// The bits, where the test holds, and none where it does not.
fn bits_if(test: bool, bits: u64) -> u64
    ensures { result ≡ (if test then bits else 0) }
{
    if test { bits } else { 0 }
}

/// What the digits of a value say, once they are extended to a width.
fn level_of_digits(width: u8, digits: &[u8]) -> Level
    requires within { width ≤ 64 }
    requires fits { length digits.now ≤ width }
    ensures { result ≡ level_of (extended width digits.now) }
{
    let pad = pad_before(digits);
    let missing = width as usize - digits.len();
    let mut asserted = bits_if(pad == b'0', ones(missing));
    let mut unknown = bits_if(is_unknown(pad), ones(missing));
    for digit in digits {
        asserted = 2 * asserted + bits_if(*digit == b'0', 1);
        unknown = 2 * unknown + bits_if(is_unknown(*digit), 1);
    }
    Level { asserted, unknown }
}

/// What one digit says of a line of one bit.
#[tactic(auto, unfolding(vcd_grammar::specs::Levels::level_of, vcd_grammar::specs::Digits::extended))]
fn level_of_digit(digit: u8) -> Level
    ensures { result ≡ level_of (extended 1 (digit ∷ [])) }
{
    Level {
        asserted: bits_if(digit == b'0', 1),
        unknown: bits_if(is_unknown(digit), 1),
    }
}

/// What the digits of a value say, once they are extended to a width.
fn level_of(width: u8, digits: &[u8]) -> Level
    requires within { width ≤ 64 }
    requires fits { length digits.now ≤ width }
    ensures { result ≡ level_of (extended width digits.now) }
{
    match digits {
        [digit] => {
            if width == 1 {
                level_of_digit(*digit)
            } else {
                level_of_digits(width, digits)
            }
        }
        _ => level_of_digits(width, digits),
    }
}

/// The width of the line of this number.
pub(crate) fn width_at(number: u8) -> u8
    requires { number < 22 }
    ensures width { result ≡ width_of number }
    ensures most { result ≤ 64 }
{
    signal_at(number).width
}

/// What so many digits 0 and 1 say, once they are extended to a width; with a bit for each that is
/// 0.
#[inline(always)]
pub(crate) fn level_of_binary(width: u8, count: usize, zeros: u64) -> Level
    requires within { width ≤ 64 }
    requires fits { count ≤ width }
    requires small { zeros < 2 ^ count }
    ensures { (digits : List ℕ) → length digits ≡ count → list_all is_binary digits ≡ true →
        bits_from is_low 0 digits ≡ zeros → result ≡ level_of (extended width digits) }
{
    Level {
        asserted: ones(width as usize) - ones(count) + zeros,
        unknown: 0,
    }
}

/// The width of the line of this number, and 0 past the table.
pub(crate) fn width_of(number: u8) -> u64
    ensures { result ≡ width_of number }
{
    if number < 22 {
        u64::from(width_at(number))
    } else {
        0
    }
}

/// The digit of the clock that a value of one digit at most gives.
fn clock_digit(digits: &[u8]) -> u8
    requires { length digits.now ≤ 1 }
    ensures { result ≡ slice_index (extended 1 digits.now) 0 }
{
    match digits {
        [] => b'0',
        [first, ..] => *first,
    }
}

/// Whether a value has more digits than the line of this number.
pub(crate) fn is_wider(digits: &[u8], number: u8) -> bool
    ensures { result ≡ is_too_wide digits.now (number ∷ []) }
{
    if number < 22 {
        (width_at(number) as usize) < digits.len()
    } else {
        0 < digits.len()
    }
}

/// Whether a value has more digits than one of the lines.
pub(crate) fn is_too_wide(digits: &[u8], lines: &[u8]) -> bool
    ensures { result ≡ is_too_wide digits.now lines.now }
{
    for number in lines {
        if is_wider(digits, *number) {
            return true;
        }
    }
    false
}

fn asserted_at(levels: &[Level; 22], number: usize) -> u64
    requires { number < 22 }
    ensures { result ≡ asserted_at levels.now number }
{
    levels[number].asserted
}

fn unknown_at(levels: &[Level; 22], number: usize) -> u64
    requires { number < 22 }
    ensures { result ≡ unknown_at levels.now number }
{
    levels[number].unknown
}

/// The control lines as one number, from what each signal has.
#[inline(always)]
fn control_of<F: Fn(usize) -> u64>(bits: F) -> u32
    requires { (n : ℕ) → n < 22 → F.pre bits n }
    ensures { (f : ℕ → ℕ) → ((n b : ℕ) → n < 22 → F.post bits n b → b ≡ f n) →
        result ≡ control_of f }
{
    let requests = bits(1) % 2
        + 2 * (bits(2) % 2)
        + 4 * (bits(3) % 2)
        + 8 * (bits(4) % 2)
        + 16 * (bits(5) % 2)
        + 32 * (bits(6) % 2)
        + 64 * (bits(7) % 2)
        + 128 * (bits(8) % 2);
    let rest = 256 * (bits(11) % 2)
        + 512 * (bits(12) % 2)
        + 1024 * (bits(13) % 2)
        + 2048 * (bits(14) % 2)
        + 4096 * (bits(15) % 8)
        + 32768 * (bits(16) % 2)
        + 65536 * (bits(17) % 2)
        + 131072 * (bits(18) % 2);
    let parity = 262144 * (bits(20) % 4) + 1048576 * (bits(21) % 2);
    (requests + rest + parity) as u32
}

/// The control lines that are asserted.
fn asserted_lines(levels: &[Level; 22]) -> u32
    ensures { result ≡ control_of (asserted_at levels.now) }
{
    control_of(|number| asserted_at(levels, number))
}

/// Whether no control line is unknown; where one is, the answer is false.
fn are_lines_known(levels: &[Level; 22]) -> bool
    ensures { result ≡ true → control_of (unknown_at levels.now) ≡ 0 }
{
    let requests = unknown_at(levels, 1)
        | unknown_at(levels, 2)
        | unknown_at(levels, 3)
        | unknown_at(levels, 4)
        | unknown_at(levels, 5)
        | unknown_at(levels, 6)
        | unknown_at(levels, 7)
        | unknown_at(levels, 8);
    let rest = unknown_at(levels, 11)
        | unknown_at(levels, 12)
        | unknown_at(levels, 13)
        | unknown_at(levels, 14)
        | unknown_at(levels, 15)
        | unknown_at(levels, 16)
        | unknown_at(levels, 17)
        | unknown_at(levels, 18);
    let parity = unknown_at(levels, 20) | unknown_at(levels, 21);
    requests | rest | parity == 0
}

/// The control lines that are unknown, line by line.
#[cold]
#[inline(never)]
fn each_unknown_line(levels: &[Level; 22]) -> u32
    ensures { result ≡ control_of (unknown_at levels.now) }
{
    control_of(|number| unknown_at(levels, number))
}

/// The control lines that are unknown: mostly none is.
fn unknown_lines(levels: &[Level; 22]) -> u32
    ensures { result ≡ control_of (unknown_at levels.now) }
{
    if are_lines_known(levels) {
        0
    } else {
        each_unknown_line(levels)
    }
}

/// A word of the bus, from what is asserted and what is unknown.
fn word_of(asserted: u64, unknown: u64) -> Word
    ensures { result ≡ word_of asserted unknown }
{
    Word {
        bits: asserted ^ (asserted & unknown),
        unknown,
    }
}

/// The sample of what the signals have.
#[inline(always)]
fn sample_at(levels: &[Level; 22]) -> Sample
    ensures { result ≡ sample_at levels.now }
{
    let unknown = unknown_lines(levels);
    let asserted = asserted_lines(levels);
    let req = word_of(
        asserted_at(levels, 9) % (1 << 5),
        unknown_at(levels, 9) % (1 << 5),
    );
    let addr = word_of(
        asserted_at(levels, 10) % (1 << 33),
        unknown_at(levels, 10) % (1 << 33),
    );
    Sample {
        lines: Lines(asserted ^ (asserted & unknown)),
        unknown: Lines(unknown),
        req,
        addr,
        dbus: word_of(asserted_at(levels, 19), unknown_at(levels, 19)),
    }
}

impl Values {
    /// The values before anything was declared: no line is asserted.
    pub(crate) fn new() -> Self
        ensures { result ≡ nothing_set }
    {
        let level = Level {
            asserted: 0,
            unknown: 0,
        };
        Values {
            levels: [level; 22],
            clock: b'1',
        }
    }

    /// Gives a line some digits.
    pub(crate) fn set_line(&mut self, number: u8, digits: &[u8])
        requires { number < 22 → is_too_wide digits.now (number ∷ []) ≡ false }
        ensures { self.new ≡ with_line self.old number digits.now }
    {
        if number < 22 {
            self.levels[number as usize] = level_of(width_at(number), digits);
            if number == 0 {
                self.clock = clock_digit(digits);
            }
        }
    }

    /// Gives a line one digit.
    #[tactic(auto, unfolding(vcd_grammar::specs::Digits::extended))]
    pub(crate) fn set_digit(&mut self, number: u8, digit: u8)
        ensures { self.new ≡ with_line self.old number (digit ∷ []) }
    {
        if number == 0 {
            self.levels[0] = level_of_digit(digit);
            self.clock = digit;
        } else {
            self.set_line(number, &[digit]);
        }
    }

    /// Gives a line what digits say of it.
    pub(crate) fn set_level(&mut self, number: u8, level: Level)
        requires { number < 22 }
        ensures { (digits : List ℕ) → 0 < number →
            level ≡ level_of (extended (width_of number) digits) →
            self.new ≡ with_line self.old number digits }
    {
        self.levels[number as usize] = level;
    }

    /// Gives some lines some digits.
    pub(crate) fn set_lines(&mut self, lines: &[u8], digits: &[u8])
        requires { is_too_wide digits.now lines.now ≡ false }
        ensures { self.new ≡ with_lines self.old lines.now digits.now }
    {
        for number in lines {
            self.set_line(*number, digits);
        }
    }

    /// Gives some lines one digit.
    pub(crate) fn set_lines_to(&mut self, lines: &[u8], digit: u8)
        ensures { self.new ≡ with_lines self.old lines.now (digit ∷ []) }
    {
        for number in lines {
            self.set_line(*number, &[digit]);
        }
    }

    /// The sample of the values.
    #[inline(always)]
    pub(crate) fn sample(&self) -> Sample
        ensures { result ≡ sample_at self.now.levels }
    {
        sample_at(&self.levels)
    }
}

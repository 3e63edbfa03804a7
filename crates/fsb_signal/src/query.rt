//! Samples and words that are made, and questions to them.

ghost use Rattle.std.specs.Prelude.{◌≡◌, ◌<◌, ◌^◌};
ghost use Rattle.fsb_signal.specs.Samples.{bit_of, has_line, has_unknown, has_known_lines, is_known, is_known_word, response_of, address_parity_of, line_at, known_word, known_sample, idle};
ghost use Rattle.fsb_signal.specs.DumpText.{value_of};

use crate::lines::Lines;
use crate::sample::{Sample, Word};
use bitflags::Flags;

impl Word {
    /// The word in which exactly these bits are asserted and none is unknown.
    pub const fn known(bits: u64) -> Word
        ensures { result ≡ known_word bits }
    {
        Word { bits, unknown: 0 }
    }

    /// Whether no bit is unknown.
    pub fn is_known(&self) -> bool
        ensures { result ≡ is_known_word self.now }
    {
        self.unknown == 0
    }
}

impl Sample {
    /// The sample without unknown bits that asserts these lines and these bits of the words, of which `req` has at
    /// most 5 bits and `addr` at most 33.
    pub fn known(lines: Lines, req: u8, addr: u64, dbus: u64) -> Sample
        requires lines { lines.0 < 2 ^ 21 }
        requires req { req < 2 ^ 5 }
        requires addr { addr < 2 ^ 33 }
        ensures { result ≡ known_sample lines.0 req addr dbus }
    {
        Sample {
            lines,
            unknown: Lines(0),
            req: Word::known(u64::from(req)),
            addr: Word::known(addr),
            dbus: Word::known(dbus),
        }
    }

    /// Whether the line is asserted; of several lines, whether each of them is.
    pub fn has(&self, line: Lines) -> bool
        ensures { result ≡ has_line self.now line }
    {
        self.lines.contains(line)
    }

    /// Whether the line is unknown; of several lines, whether each of them is.
    pub fn has_unknown(&self, line: Lines) -> bool
        ensures { result ≡ has_unknown self.now line }
    {
        self.unknown.contains(line)
    }

    /// Whether no control line is unknown.
    pub fn has_known_lines(&self) -> bool
        ensures { result ≡ has_known_lines self.now }
    {
        self.unknown.0 == 0
    }

    /// Whether no control line and no bit of a word is unknown.
    pub fn is_known(&self) -> bool
        ensures { result ≡ is_known self.now }
    {
        self.has_known_lines()
            && self.req.is_known()
            && self.addr.is_known()
            && self.dbus.is_known()
    }

    /// The response on RS2#, RS1# and RS0#, as a number of three bits with 1 for asserted.
    pub fn response(&self) -> u8
        ensures { result ≡ response_of self.now }
    {
        let high = u8::from(self.has(Lines::RS2));
        let middle = u8::from(self.has(Lines::RS1));
        let low = u8::from(self.has(Lines::RS0));
        4 * high + 2 * middle + low
    }

    /// What is asserted on the signal of this number, as a number with 1 for asserted: 0 or 1 of a single line. It is
    /// 0 for the clock itself, which is no part of a sample.
    #[tactic(auto, unfolding(crate::specs::DumpText::value_of))]
    pub fn value(&self, number: u8) -> u64
        requires { number < 22 }
        ensures { result ≡ value_of self.now number }
    {
        match number {
            1 => self.bit(Lines::BREQ0),
            2 => self.bit(Lines::BREQ1),
            3 => self.bit(Lines::BREQ2),
            4 => self.bit(Lines::BREQ3),
            5 => self.bit(Lines::BPRI),
            6 => self.bit(Lines::LOCK),
            7 => self.bit(Lines::BNR),
            8 => self.bit(Lines::ADS),
            9 => self.req.bits,
            10 => self.addr.bits,
            11 => self.bit(Lines::AERR),
            12 => self.bit(Lines::HIT),
            13 => self.bit(Lines::HITM),
            14 => self.bit(Lines::DEFER),
            15 => u64::from(self.response()),
            16 => self.bit(Lines::TRDY),
            17 => self.bit(Lines::DBSY),
            18 => self.bit(Lines::DRDY),
            19 => self.dbus.bits,
            20 => self.address_parity(),
            21 => self.bit(Lines::RP),
            _ => 0,
        }
    }

    /// AP1# and AP0#, as a number of two bits with 1 for asserted.
    fn address_parity(&self) -> u64
        ensures { result ≡ address_parity_of self.now }
    {
        2 * self.bit(Lines::AP1) + self.bit(Lines::AP0)
    }

    // 1 where the line is asserted, and 0 where it is not.
    fn bit(&self, line: Lines) -> u64
        ensures { result ≡ bit_of self.now line }
    {
        u64::from(self.has(line))
    }
}

/// The sample in which nothing is asserted and nothing is unknown.
pub fn idle_sample() -> Sample
    ensures { result ≡ idle }
{
    Sample::known(Lines(0), 0, 0, 0)
}

/// Whether the line is asserted at the clock; past the last sample nothing is.
#[tactic(auto, unfolding(crate::specs::Samples::line_at))]
pub fn line_at(line: Lines, samples: &[Sample], clock: usize) -> bool
    ensures { result ≡ line_at line samples.now clock }
{
    match samples.get(clock) {
        Some(sample) => sample.has(line),
        None => false,
    }
}

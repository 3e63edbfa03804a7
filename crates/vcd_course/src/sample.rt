//! The sample of what the lines have.

ghost use Rattle.std.specs.Prelude.{◌≡◌, ◌<◌, ℕ, true};
ghost use Rattle.vcd_grammar.specs.Levels.{control_of, asserted_at, unknown_at};
ghost use Rattle.vcd_grammar.specs.Values.{sample_at, word_of};

use fsb_signal::{Lines, Sample, Word};
use vcd_grammar::Level;

fn asserted_at(levels: &[Level; 22], number: usize) -> u64
    requires { number < 22 }
    ensures { result ≡ asserted_at levels.now number }
{
    levels[number].asserted
}

fn unknown_at(levels: &[Level; 22], number: usize) -> u64
    requires { number < 22 }
    ensures { result ≡ unknown_at levels.now number }
{
    levels[number].unknown
}

/// The control lines as one number, from what each signal has.
#[inline(always)]
fn control_of<F: Fn(usize) -> u64>(bits: F) -> u32
    requires { (n : ℕ) → n < 22 → F.pre bits n }
    ensures { (f : ℕ → ℕ) → ((n b : ℕ) → n < 22 → F.post bits n b → b ≡ f n) →
        result ≡ control_of f }
{
    let requests = bits(1) % 2
        + 2 * (bits(2) % 2)
        + 4 * (bits(3) % 2)
        + 8 * (bits(4) % 2)
        + 16 * (bits(5) % 2)
        + 32 * (bits(6) % 2)
        + 64 * (bits(7) % 2)
        + 128 * (bits(8) % 2);
    let rest = 256 * (bits(11) % 2)
        + 512 * (bits(12) % 2)
        + 1024 * (bits(13) % 2)
        + 2048 * (bits(14) % 2)
        + 4096 * (bits(15) % 8)
        + 32768 * (bits(16) % 2)
        + 65536 * (bits(17) % 2)
        + 131072 * (bits(18) % 2);
    let parity = 262144 * (bits(20) % 4) + 1048576 * (bits(21) % 2);
    (requests + rest + parity) as u32
}

/// The control lines that are asserted.
#[inline(always)]
fn asserted_lines(levels: &[Level; 22]) -> u32
    ensures { result ≡ control_of (asserted_at levels.now) }
{
    control_of(|number| asserted_at(levels, number))
}

/// Whether no control line is unknown; where one is, the answer is false.
#[inline(always)]
fn are_lines_known(levels: &[Level; 22]) -> bool
    ensures { result ≡ true → control_of (unknown_at levels.now) ≡ 0 }
{
    let requests = unknown_at(levels, 1)
        | unknown_at(levels, 2)
        | unknown_at(levels, 3)
        | unknown_at(levels, 4)
        | unknown_at(levels, 5)
        | unknown_at(levels, 6)
        | unknown_at(levels, 7)
        | unknown_at(levels, 8);
    let rest = unknown_at(levels, 11)
        | unknown_at(levels, 12)
        | unknown_at(levels, 13)
        | unknown_at(levels, 14)
        | unknown_at(levels, 15)
        | unknown_at(levels, 16)
        | unknown_at(levels, 17)
        | unknown_at(levels, 18);
    let parity = unknown_at(levels, 20) | unknown_at(levels, 21);
    requests | rest | parity == 0
}

/// The control lines that are unknown, line by line.
#[cold]
#[inline(never)]
fn each_unknown_line(levels: &[Level; 22]) -> u32
    ensures { result ≡ control_of (unknown_at levels.now) }
{
    control_of(|number| unknown_at(levels, number))
}

/// The control lines that are unknown: mostly none is.
#[inline(always)]
fn unknown_lines(levels: &[Level; 22]) -> u32
    ensures { result ≡ control_of (unknown_at levels.now) }
{
    if are_lines_known(levels) {
        0
    } else {
        each_unknown_line(levels)
    }
}

/// A word of the bus, from what is asserted and what is unknown.
#[inline(always)]
fn word_of(asserted: u64, unknown: u64) -> Word
    ensures { result ≡ word_of asserted unknown }
{
    Word {
        bits: asserted ^ (asserted & unknown),
        unknown,
    }
}

/// The sample of what the signals have.
#[inline(always)]
pub(crate) fn sample_at(levels: &[Level; 22]) -> Sample
    ensures { result ≡ sample_at levels.now }
{
    let unknown = unknown_lines(levels);
    let asserted = asserted_lines(levels);
    let req = word_of(
        asserted_at(levels, 9) % (1 << 5),
        unknown_at(levels, 9) % (1 << 5),
    );
    let addr = word_of(
        asserted_at(levels, 10) % (1 << 33),
        unknown_at(levels, 10) % (1 << 33),
    );
    Sample {
        lines: Lines(asserted ^ (asserted & unknown)),
        unknown: Lines(unknown),
        req,
        addr,
        dbus: word_of(asserted_at(levels, 19), unknown_at(levels, 19)),
    }
}

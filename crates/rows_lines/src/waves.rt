//! Waves of a worked run and of two samples, as text.

ghost use Rattle.std.specs.Prelude.{◌≤◌, ◌+◌};

use fsb_signal::{Lines, Sample, Word};
use fsb_wave::Wave;
use rows_store::{ADS, LOAD_THEN_STORE_HIT, sample, sample_at};
use std::process::Abort;

/// The sample at a clock of a load and of a store that hits.
fn load_then_store_hit(clock: u32) -> Sample {
    sample_at(&LOAD_THEN_STORE_HIT, &[(8, 0, 7)], clock as usize)
}

/// The wave of the first 60 clocks of that run.
fn wave_of_the_load(from: u32, to: u32) -> Wave
    requires ordered { from ≤ to }
    requires few { to ≤ from + 63 }
{
    let mut wave = Wave::new(from, to);
    for clock in 0..60 {
        wave.feed(&load_then_store_hit(clock));
    }
    wave
}

/// The wave of two samples.
fn wave_of_two(from: u32, to: u32, first: &Sample, second: &Sample) -> Wave
    requires ordered { from ≤ to }
    requires few { to ≤ from + 63 }
{
    let mut wave = Wave::new(from, to);
    wave.feed(first);
    wave.feed(second);
    wave
}

/// Whether this is the line of the wave.
fn has_line(wave: &Wave, at: u32, text: &str) -> bool {
    match wave.line(at) {
        Some(line) => line.as_slice() == text.as_bytes(),
        None => false,
    }
}

/// Expects the wave to give exactly these lines.
fn expect_lines(rt: &impl Abort, wave: &Wave, lines: &[&str]) {
    assert!(rt; wave.lines() as usize == lines.len());
    for (i, text) in lines.iter().enumerate() {
        assert!(rt; has_line(wave, i as u32, text), "{text}");
    }
    assert!(rt; wave.line(wave.lines()).is_none());
}

/// The wave of the first 12 clocks.
static OF_A_LOAD: [&'static str; 28] = [
    "BREQ0 ###.........\n",
    "BREQ1 ............\n",
    "BREQ2 ............\n",
    "BREQ3 ............\n",
    "BPRI  ............\n",
    "LOCK  ............\n",
    "BNR   ............\n",
    "ADS   ..#.........\n",
    "AERR  ............\n",
    "HIT   ............\n",
    "HITM  ............\n",
    "DEFER ............\n",
    "RS0   ........#...\n",
    "RS1   ........#...\n",
    "RS2   ........#...\n",
    "TRDY  ............\n",
    "DBSY  ........###.\n",
    "DRDY  ........####\n",
    "AP0   ............\n",
    "AP1   ............\n",
    "RP    ............\n",
    "A 2 40 6\n",
    "A 3 10 2\n",
    "D 8 7\n",
    "D 9 0\n",
    "D 10 0\n",
    "D 11 0\n",
    "clocks=60\n",
];

/// The wave of clocks behind the last one.
static PAST_THE_END: [&'static str; 22] = [
    "BREQ0 \n",
    "BREQ1 \n",
    "BREQ2 \n",
    "BREQ3 \n",
    "BPRI  \n",
    "LOCK  \n",
    "BNR   \n",
    "ADS   \n",
    "AERR  \n",
    "HIT   \n",
    "HITM  \n",
    "DEFER \n",
    "RS0   \n",
    "RS1   \n",
    "RS2   \n",
    "TRDY  \n",
    "DBSY  \n",
    "DRDY  \n",
    "AP0   \n",
    "AP1   \n",
    "RP    \n",
    "clocks=60\n",
];

#[test]
fn wave_text(rt: HostRuntime) {
    expect_lines(&rt, &wave_of_the_load(0, 11), &OF_A_LOAD);
    expect_lines(&rt, &wave_of_the_load(70, 71), &PAST_THE_END);
}

/// Some lines of the wave of a request whose first clock lies before the range, and of those unknown lines and bits.
static OF_TWO: [(u32, &'static str); 6] = [
    (7, "ADS   .\n"),
    (9, "HIT   ?\n"),
    (17, "DRDY  #\n"),
    (21, "A 1 ffffffff8 ?\n"),
    (22, "D 1 ?\n"),
    (23, "clocks=2\n"),
];

#[test]
fn wave_of_words_that_are_unknown(rt: HostRuntime) {
    let unknown = Sample {
        lines: Lines::DRDY,
        unknown: Lines::HIT,
        req: Word {
            bits: 1,
            unknown: 2,
        },
        addr: Word::known(0x1_ffff_ffff),
        dbus: Word {
            bits: 0,
            unknown: 1,
        },
    };
    let wave = wave_of_two(1, 64, &sample((ADS, 6, 8)), &unknown);
    assert!(rt; wave.lines() == 24);
    for (i, text) in OF_TWO.iter() {
        assert!(rt; has_line(&wave, *i, text), "{text}");
    }
}

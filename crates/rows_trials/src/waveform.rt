//! Waveforms that keep the rules for a while.
ghost use Rattle.std.specs.Prelude.{◌≡◌, ◌+◌, ◌≤◌, ◌<◌, ◌^◌, IfOk, OnOk, length, vec_len};

use fsb_arbiter::Arbiter;
use fsb_rules::Checker;
use fsb_signal::{Lines, Marks, Sample};
use fsb_trace::Who;
use rows_store::{
    ADS, AERR, BNR, BPRI, BREQ0, BREQ1, BREQ2, BREQ3, Blur, CLEAR, Clock, DBSY, DEFER, DRDY, Draws,
    HIT, HITM, LOCK, RS0, RS1, RS2, TRDY, blurred, with_parity,
};
use std::alloc::{AllocError, Global};

/// The steps of a waveform, at most: clocks, or both clocks of a request.
const STEPS: u32 = 70;

/// How often a step is drawn again that breaks a rule.
const TRIES: u32 = 200;

/// How often a step is drawn that is to break a rule.
const AIMS: u32 = 40;

/// The number of the last rule.
const RULES: u8 = 20;

/// The request lines of the four agents and of the priority agent.
const REQUESTS: [u32; 5] = [BREQ0, BREQ1, BREQ2, BREQ3, BPRI];

/// All of them together.
const ALL_REQUESTS: u32 = BREQ0 | BREQ1 | BREQ2 | BREQ3 | BPRI;

/// The response lines.
const RESPONSE: u32 = RS0 | RS1 | RS2;

/// The lines of a clock by themselves, each with how seldom it is drawn.
const SELDOM: [(u32, u32); 6] = [
    (BNR, 4),
    (AERR, 12),
    (HIT, 6),
    (HITM, 6),
    (DEFER, 6),
    (TRDY, 5),
];

/// The response codes that are drawn: normal data most often.
const CODES: [u32; 8] = [7, 7, 7, 6, 5, 1, 2, 4];

/// By the number of a rule, the lines of which one is asserted in the first clock of a step that breaks it; 0 where none need be.
const SIGNS: [u32; 21] = [
    0,
    0,
    ADS,
    ADS,
    ADS,
    ADS,
    ADS,
    ADS,
    0,
    LOCK,
    AERR,
    HIT | HITM | DEFER,
    HIT | HITM | DEFER,
    RESPONSE,
    RESPONSE,
    RESPONSE | TRDY,
    0,
    DRDY,
    ADS,
    0,
    0,
];

/// What is drawn alike in all clocks of a waveform.
#[derive(Clone, Copy)]
struct Habits {
    /// The agents that ask.
    asking: u32,
    /// How seldom an agent begins to ask.
    seldom: u32,
    /// How seldom a line or a bit is unknown.
    blurred: u32,
    /// Whether responses come.
    responds: bool,
    /// Whether half of the clocks are quiet ones with one line turned over.
    turns: bool,
}

/// What is drawn to break a rule.
const BREAKING: Habits = Habits {
    asking: ALL_REQUESTS,
    seldom: 4,
    blurred: 2,
    responds: true,
    turns: true,
};

/// A waveform from these draws: steps that break no rule of a dump with these marks. Three times out of four it is to break a rule of a number that is
/// drawn: then from a drawn step on, steps are tried that break it, and the first that does is the last. Else it is spoilt.
pub fn waveform(alloc: Global, draws: &mut Draws, marks: Marks) -> Result<Vec<Sample>, AllocError>
    ensures { IfOk result (λ w. vec_len w ≤ 140) }
{
    let mut w = Vec::new(alloc);
    let mut now = Now {
        last: 0,
        quiet: 0,
        arbiter: Arbiter::new(),
    };
    let habits = drawn_habits(draws);
    let rule = (1 + draws.below(26) % 26) as u8;
    let from = draws.below(STEPS);
    for n in 0..STEPS {
        if n >= from {
            if let Some(step) = breaking(draws, &now, marks, &w, rule) {
                put(&mut w, step)?;
                return Ok(w);
            }
        }
        let step = lawful(draws, habits, &now, marks, &w);
        now.take(step);
        put(&mut w, step)?;
    }
    if rule > RULES {
        spoil(draws, &mut w);
    }
    Ok(w)
}

/// What the next step is drawn by.
#[derive(Clone, Copy)]
struct Now {
    /// The control lines of the last clock.
    last: u32,
    /// The clocks since the last clock with ADS#.
    quiet: u32,
    arbiter: Arbiter,
}

impl Now {
    /// Takes the clocks of a step.
    fn take(&mut self, step: Step) {
        self.take_clock(step.0);
        if let Some(second) = step.1 {
            self.take_clock(second);
        }
    }

    fn take_clock(&mut self, drawn: Drawn) {
        self.arbiter.absorb(&sample(drawn));
        self.last = drawn.clock.0;
        self.quiet = if has(drawn.clock.0, ADS) {
            0
        } else {
            self.quiet.saturating_add(1)
        };
    }

    /// The number of the agent that may begin a request, if there is one: 4 is the priority agent.
    fn winner(&self) -> Option<u32> {
        match self.arbiter.winner() {
            Some(Who::Symmetric(agent)) => Some(u32::from(agent)),
            Some(Who::Priority) => Some(4),
            None => None,
        }
    }
}

/// Adds the clocks of a step.
fn put(w: &mut Vec<Sample>, step: Step) -> Result<(), AllocError>
    ensures { OnOk result (length w.new.items ≤ length w.old.items + 2) }
{
    w.push(sample(step.0))?;
    if let Some(second) = step.1 {
        w.push(sample(second))?;
    }
    Ok(())
}

/// A step that breaks no rule, with a request half of the time where one may begin.
fn lawful(draws: &mut Draws, habits: Habits, now: &Now, marks: Marks, w: &[Sample]) -> Step
    requires { length w.now + 2 < 2 ^ 32 }
{
    let winner = now.winner();
    let begins = winner.is_some() && now.quiet > 1 && draws.once_in(2);
    for n in 0..TRIES {
        let drawn = step(draws, habits, now.last, winner, begins && n < 8);
        if broken_by(marks, w, drawn).is_none() {
            return drawn;
        }
    }
    step(draws, habits, now.last, winner, false)
}

/// A step that breaks this rule first, if one is found.
fn breaking(draws: &mut Draws, now: &Now, marks: Marks, w: &[Sample], rule: u8) -> Option<Step>
    requires { length w.now + 2 < 2 ^ 32 }
{
    if rule > RULES {
        return None;
    }
    let signs = SIGNS.get(rule as usize).copied().unwrap_or(0);
    let winner = now.winner();
    for n in 0..AIMS {
        let begins = draws.once_in(2);
        let agent = if n % 4 == 0 { None } else { winner };
        let drawn = step(draws, BREAKING, now.last, agent, begins);
        let may_break = signs == 0 || has(drawn.0.clock.0, signs);
        if may_break && broken_by(marks, w, drawn) == Some(rule) {
            return Some(drawn);
        }
    }
    None
}

/// Who asks in a waveform, and whether it has responses: three times out of four.
fn drawn_habits(draws: &mut Draws) -> Habits {
    let agent = BREQ0 << (draws.below(4) % 4);
    let asking = if draws.once_in(3) {
        agent | BPRI
    } else {
        ALL_REQUESTS
    };
    let responds = !draws.once_in(4);
    let seldom = if responds { 12 } else { 3 };
    Habits {
        asking,
        seldom,
        blurred: 8,
        responds,
        turns: false,
    }
}

/// Three times out of four, turns one control line over at one clock, or draws that clock anew.
fn spoil(draws: &mut Draws, w: &mut [Sample])
    requires { length w.old ≤ 140 }
    ensures { length w.new ≡ length w.old }
{
    if w.is_empty() {
        return;
    }
    let at = draws.below(w.len() as u32) as usize;
    let line = draws.below(21) % 21;
    let habits = drawn_habits(draws);
    let drawn = sample(drawn_clock(draws, habits, 0, 5, false));
    let kind = draws.below(4);
    if let Some(spoiled) = w.get_mut(at) {
        match kind {
            0 => {}
            1 => *spoiled = drawn,
            _ => *spoiled = turned_over(spoiled, line),
        }
    }
}

/// The sample with the control line of this number turned over; no bit of it is unknown.
pub fn turned_over(sample: &Sample, line: u32) -> Sample
    requires { line < 21 }
{
    Sample::known(
        Lines((sample.lines.0 ^ (1 << line)) % (1 << 21)),
        (sample.req.bits % (1 << 5)) as u8,
        sample.addr.bits % (1 << 33),
        sample.dbus.bits,
    )
}

/// A clock that is drawn, and what of it is unknown.
#[derive(Clone, Copy)]
struct Drawn {
    clock: Clock,
    blur: Blur,
}

/// A clock, and the one behind it where a request begins.
type Step = (Drawn, Option<Drawn>);

/// The rule that the samples and then these clocks break first.
fn broken_by(marks: Marks, w: &[Sample], drawn: Step) -> Option<u8>
    requires { length w.now + 2 < 2 ^ 32 }
{
    let (first, second) = drawn;
    let mut checker = Checker::new(marks);
    for sample in w {
        let _ = checker.feed(sample);
    }
    let mut found = checker.feed(&sample(first));
    if let Some(second) = second {
        found = checker.feed(&sample(second));
    }
    found.map(|broken| broken.rule)
}

/// A clock after one with these control lines, and the one behind it where a request begins, of this agent.
fn step(draws: &mut Draws, habits: Habits, last: u32, winner: Option<u32>, begins: bool) -> Step {
    let agent = match winner {
        Some(agent) => agent,
        None => draws.below(5),
    };
    let first = drawn_clock(draws, habits, last, 5, begins);
    if begins {
        (
            first,
            Some(drawn_clock(draws, habits, first.clock.0, agent, false)),
        )
    } else {
        (first, None)
    }
}

/// A clock after one with these control lines, in which a request of this agent began, if one did.
fn drawn_clock(draws: &mut Draws, habits: Habits, last: u32, agent: u32, begins: bool) -> Drawn {
    let lines = lines(draws, habits, last, agent, begins);
    let (req, addr) = words(draws, last, lines, agent);
    let lines = parity_lines(draws, (lines, req, addr));
    let blur = drawn_blur(draws, habits.blurred);
    Drawn {
        clock: (lines, req, addr),
        blur,
    }
}

/// The lines of parity: AP0#, AP1# and RP#.
const PARITY: [u32; 3] = [Lines::AP0.0, Lines::AP1.0, Lines::RP.0];

/// The lines of a clock with the parity of its words, in which one line is turned over once in eight draws.
fn parity_lines(draws: &mut Draws, clock: Clock) -> u32 {
    let all = with_parity(clock).0;
    if draws.once_in(8) {
        all ^ PARITY[draws.below(3) as usize % 3]
    } else {
        all
    }
}

/// What is unknown, once in so many times: a control line, or a bit of a word.
fn drawn_blur(draws: &mut Draws, seldom: u32) -> Blur {
    if !draws.once_in(seldom) {
        return CLEAR;
    }
    let line = draws.below(21) % 21;
    match draws.below(6) {
        0 => Blur {
            lines: 1 << (line % 18),
            ..CLEAR
        },
        1 => Blur { req: 1, ..CLEAR },
        2 => Blur { addr: 1, ..CLEAR },
        _ => Blur { data: 1, ..CLEAR },
    }
}

/// The words of a clock with these lines, after one with those: of a request's second clock, of its first, or none.
fn words(draws: &mut Draws, last: u32, lines: u32, agent: u32) -> (u64, u64) {
    let number = u64::from(draws.below(5));
    if has(last, ADS) {
        let den = u64::from(draws.below(2));
        let id = (u64::from(agent % 8) * 16 + number) * 8192;
        return if agent == 4 {
            (0, 0)
        } else if draws.once_in(6) {
            (0, id)
        } else {
            (2, id + den * 2)
        };
    }
    if has(lines, ADS) {
        let line = u64::from(draws.below(4)) * 4;
        return match draws.below(8) {
            0 => (0, (u64::from(draws.below(4)) * 16 + number) * 8192),
            1 | 2 => (5, line),
            3 | 4 => (2, line),
            _ => (6, line),
        };
    }
    (0, 0)
}

/// Control lines after these. Three times out of four nothing happens but to the request lines, ADS# and LOCK#.
fn lines(draws: &mut Draws, habits: Habits, last: u32, agent: u32, begins: bool) -> u32 {
    let mut lines = request_lines(draws, habits, last, agent);
    if begins {
        lines |= ADS;
    }
    if has(last, LOCK) && !draws.once_in(10) || has(lines, ADS) && draws.once_in(8) {
        lines |= LOCK;
    }
    if habits.turns && draws.once_in(2) {
        (lines | last & DBSY) ^ (1 << (draws.below(21) % 21))
    } else if draws.once_in(4) {
        lines | event_lines(draws, habits, last)
    } else {
        lines | last & DBSY
    }
}

/// The lines of snoops, responses and data, of errors and of blocked requests.
fn event_lines(draws: &mut Draws, habits: Habits, last: u32) -> u32 {
    let mut lines = 0;
    for (line, times) in SELDOM {
        if draws.once_in(times) {
            lines |= line;
        }
    }
    if habits.responds && draws.once_in(3) {
        let code = draws.below(8) as usize;
        lines |= CODES[code % 8] * RS0;
    }
    if has(last, DBSY) != draws.once_in(3) {
        lines |= DBSY;
    }
    if draws.once_in(2) {
        lines |= DRDY;
    }
    lines
}

/// The request lines after these: kept, and that of an agent whose request began is released.
fn request_lines(draws: &mut Draws, habits: Habits, last: u32, agent: u32) -> u32 {
    let mut lines = 0;
    for (number, line) in REQUESTS.into_iter().enumerate() {
        let begun = has(last, ADS) && number == agent as usize;
        let seldom = if line == BPRI { 60 } else { habits.seldom };
        let asks = has(habits.asking, line) && draws.once_in(seldom);
        if !begun && (has(last, line) || asks) {
            lines |= line;
        }
    }
    lines
}

/// Whether the line is among the lines.
fn has(lines: u32, line: u32) -> bool {
    lines & line != 0
}

/// The sample of a clock that is drawn.
fn sample(drawn: Drawn) -> Sample {
    blurred(drawn.clock, drawn.blur)
}

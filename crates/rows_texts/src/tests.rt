use fsb_signal::{Lines, Marks, Sample};
use loads::{NO_DATA, late_load, load, load_of_known_data, load_with_parity};
use parity::{BAD_PARITY, GOOD_PARITY};
use rows_store::{
    FALLING, FALLING_VERILATOR, NO_SAMPLES, PARITY_OF_A_LOAD, SAME_TIME, SCOPES, SIMULATOR_HEAD,
    SIMULATOR_RISES, SIMULATOR_START, UNKNOWN_AFTER_FALL, UNKNOWN_AFTER_RISE, UNMARKED,
};
use std::alloc::{AllocError, Global};
use std::test::Fail;
use table::{BAD, GOOD};
use texts::{LINES, PARITY_LINES, PARITY_QUIET, QUIET, VALUES};
use vcd_read::{Reader, VcdCause, VcdFault, VcdStop, read_dump};

mod calls;
mod loads;
mod marks;
mod parity;
mod table;
mod texts;

/// What stands before the text of a row.
#[derive(Clone, Copy)]
pub(crate) enum Start {
    /// Nothing.
    Whole,
    /// The declarations of the needed lines.
    Lines,
    /// The same, and their end.
    Values,
    /// The same, and values at time 0: BCLK is 0, and no other line is asserted or unknown.
    Quiet,
    /// The same, with the two parity lines.
    Parity,
}

impl Start {
    /// The texts that stand before, one behind the other.
    fn texts(self) -> &'static [&'static str] {
        match self {
            Start::Whole => &[],
            Start::Lines => &[LINES],
            Start::Values => &[LINES, VALUES],
            Start::Quiet => &[LINES, VALUES, QUIET],
            Start::Parity => &[LINES, PARITY_LINES, VALUES, QUIET, PARITY_QUIET],
        }
    }
}

/// What the needed lines have that the marks of a row do not name; a line that is not needed is known and not asserted.
#[derive(Clone, Copy)]
pub(crate) enum Rest {
    /// They are not asserted.
    Idle,
    /// They are unknown, as before the first value.
    Unknown,
}

/// What a row says of some lines.
#[derive(Clone, Copy)]
pub(crate) enum Mark {
    /// The control line is asserted.
    Asserts(Lines),
    /// The control line is unknown.
    Unknown(Lines),
    /// The bits of the request word that are asserted, and those that are unknown.
    Req(u64, u64),
    /// The bits of the address word, likewise.
    Addr(u64, u64),
    /// The bits of the data word, likewise.
    Data(u64, u64),
}

/// A sample as a row says it.
pub(crate) type Sees = (Rest, &'static [Mark]);

/// What stands before, the text, how far into the text the place of its first fault is, and its cause.
pub(crate) type Bad = (Start, &'static str, u64, VcdCause);

/// What stands before, the text, and its samples.
pub(crate) type Good = (Start, &'static str, &'static [Sees]);

/// The asserted and the unknown control lines of a sample, and of each word its asserted and its unknown bits.
#[derive(Clone, Copy, PartialEq, Eq)]
struct Seen {
    lines: Lines,
    unknown: Lines,
    req: (u64, u64),
    addr: (u64, u64),
    data: (u64, u64),
}

impl Seen {
    fn of_rest(rest: Rest) -> Seen {
        match rest {
            Rest::Idle => Seen {
                lines: Lines(0),
                unknown: Lines(0),
                req: (0, 0),
                addr: (0, 0),
                data: (0, 0),
            },
            Rest::Unknown => Seen {
                lines: Lines(0),
                unknown: Lines(0b11_1111_0110_1000_0001),
                req: (0, 0x1f),
                addr: (0, 0x1_ffff_ffff),
                data: (0, 0xffff_ffff_ffff_ffff),
            },
        }
    }

    fn mark(&mut self, mark: Mark) {
        match mark {
            Mark::Asserts(line) => self.lines = Lines(self.lines.0 | line.0),
            Mark::Unknown(line) => self.unknown = Lines(self.unknown.0 | line.0),
            Mark::Req(bits, unknown) => self.req = (bits, unknown),
            Mark::Addr(bits, unknown) => self.addr = (bits, unknown),
            Mark::Data(bits, unknown) => self.data = (bits, unknown),
        }
    }

    /// The sample that a row says.
    fn of_row(sees: Sees) -> Seen {
        let (rest, marks) = sees;
        let mut seen = Seen::of_rest(rest);
        for mark in marks {
            seen.mark(*mark);
        }
        seen
    }

    fn of_sample(sample: &Sample) -> Seen {
        Seen {
            lines: sample.lines,
            unknown: sample.unknown,
            req: (sample.req.bits, sample.req.unknown),
            addr: (sample.addr.bits, sample.addr.unknown),
            data: (sample.dbus.bits, sample.dbus.unknown),
        }
    }
}

/// Whether the sample is that of a row.
fn is_as_said(sample: &Sample, sees: &Sees) -> bool {
    Seen::of_sample(sample) == Seen::of_row(*sees)
}

/// Whether the samples are those of a row.
fn are_as_said(samples: &[Sample], expected: &[Sees]) -> bool {
    if samples.len() != expected.len() {
        return false;
    }
    for (sample, sees) in samples.iter().zip(expected.iter()) {
        if !is_as_said(sample, sees) {
            return false;
        }
    }
    true
}

/// The texts one behind the other.
fn joined(alloc: Global, texts: &[&str]) -> Result<Vec<u8>, AllocError> {
    let mut whole = Vec::new(alloc);
    for text in texts {
        whole.extend_from_slice(text.as_bytes())?;
    }
    Ok(whole)
}

/// The text of a row behind what stands before it.
fn text_of(alloc: Global, start: Start, text: &str) -> Result<Vec<u8>, AllocError> {
    let mut whole = joined(alloc, start.texts())?;
    whole.extend_from_slice(text.as_bytes())?;
    Ok(whole)
}

/// How many bytes stand before the text of a row.
fn start_len(alloc: Global, start: Start) -> Result<u64, AllocError> {
    Ok(joined(alloc, start.texts())?.len() as u64)
}

/// How a text is handed to the reader.
#[derive(Clone, Copy)]
enum Way {
    /// At once.
    Whole,
    /// In pieces of so many bytes.
    Pieces(usize),
}

const WAYS: [Way; 7] = [
    Way::Whole,
    Way::Pieces(1),
    Way::Pieces(2),
    Way::Pieces(3),
    Way::Pieces(7),
    Way::Pieces(64),
    Way::Pieces(113),
];

/// What a text says: its marks, if they are told, and its samples.
type Said = (Option<Marks>, Vec<Sample>);

/// What a text says that is fed in pieces of so many bytes, but at least one.
fn in_pieces(alloc: Global, bytes: &[u8], size: usize) -> Result<Said, VcdStop> {
    let mut reader = Reader::new(alloc)?;
    let mut samples = Vec::new(alloc);
    let mut at = 0;
    while at < bytes.len() {
        let end = bytes.len().min(at.saturating_add(size.max(1)));
        reader.feed(&bytes[at..end], &mut samples)?;
        at = end;
    }
    reader.finish(&mut samples)?;
    Ok((reader.marks(), samples))
}

/// What a text says that is read at once.
fn at_once(alloc: Global, bytes: &[u8]) -> Result<Said, VcdStop> {
    let (marks, samples) = read_dump(alloc, bytes)?;
    Ok((Some(marks), samples))
}

/// What a text says.
fn read(alloc: Global, bytes: &[u8], way: Way) -> Result<Said, VcdStop> {
    match way {
        Way::Whole => at_once(alloc, bytes),
        Way::Pieces(size) => in_pieces(alloc, bytes, size),
    }
}

/// The refusal that names this fault.
fn bad(place: u64, cause: VcdCause) -> VcdStop {
    VcdStop::Bad(VcdFault { place, cause })
}

/// What is wanted of a text.
#[derive(Clone, Copy)]
enum Wanted<'a> {
    /// This refusal.
    Stop(VcdStop),
    /// The samples of a row.
    Sees(&'a [Sees]),
    /// Exactly these samples.
    Samples(&'a [Sample]),
    /// These marks.
    Marked(Marks),
}

/// Whether what is said is what is wanted.
fn is_wanted(said: &Result<Said, VcdStop>, wanted: Wanted<'_>) -> bool {
    match (said, wanted) {
        (Err(stop), Wanted::Stop(wanted)) => *stop == wanted,
        (Ok((_, samples)), Wanted::Sees(expected)) => are_as_said(samples, expected),
        (Ok((_, samples)), Wanted::Samples(expected)) => samples.as_slice() == expected,
        (Ok((told, _)), Wanted::Marked(marks)) => *told == Some(marks),
        _ => false,
    }
}

/// Whether a text says what is wanted, in whatever pieces it comes.
fn says(alloc: Global, bytes: &[u8], wanted: Wanted<'_>) -> bool {
    for way in WAYS.iter() {
        if !is_wanted(&read(alloc, bytes, *way), wanted) {
            return false;
        }
    }
    true
}

/// Whether a text has this first fault, in whatever pieces it comes.
fn fails(alloc: Global, bytes: &[u8], place: u64, cause: VcdCause) -> bool {
    says(alloc, bytes, Wanted::Stop(bad(place, cause)))
}

/// Whether a text is read, and gives these samples, in whatever pieces it comes.
fn reads(alloc: Global, bytes: &[u8], expected: &[Sees]) -> bool {
    says(alloc, bytes, Wanted::Sees(expected))
}

/// Whether a text is read, and gives exactly these samples, in whatever pieces it comes.
fn gives(alloc: Global, bytes: &[u8], samples: &[Sample]) -> bool {
    says(alloc, bytes, Wanted::Samples(samples))
}

/// Whether the text of the row has its fault.
fn has_fault(alloc: Global, row: &Bad) -> Result<bool, AllocError> {
    let &(start, text, place, cause) = row;
    let bytes = text_of(alloc, start, text)?;
    let place = start_len(alloc, start)?.wrapping_add(place);
    Ok(fails(alloc, &bytes, place, cause))
}

/// Whether the text of the row gives its samples.
fn has_samples(alloc: Global, row: &Good) -> Result<bool, AllocError> {
    let &(start, text, expected) = row;
    let bytes = text_of(alloc, start, text)?;
    Ok(reads(alloc, &bytes, expected))
}

#[test]
fn each_fault(rt: HostRuntime) -> Result<(), Fail> {
    for (at, row) in BAD.iter().enumerate() {
        assert!(rt; has_fault(rt.alloc(), row)?, "row {at}");
    }
    Ok(())
}

#[test]
fn each_text_that_is_read(rt: HostRuntime) -> Result<(), Fail> {
    for (at, row) in GOOD.iter().enumerate() {
        assert!(rt; has_samples(rt.alloc(), row)?, "row {at}");
    }
    Ok(())
}

#[test]
fn each_text_with_parity_lines(rt: HostRuntime) -> Result<(), Fail> {
    for (at, row) in BAD_PARITY.iter().enumerate() {
        assert!(rt; has_fault(rt.alloc(), row)?, "row {at} of the faults");
    }
    for (at, row) in GOOD_PARITY.iter().enumerate() {
        assert!(rt; has_samples(rt.alloc(), row)?, "row {at}");
    }
    Ok(())
}

/// Texts behind a whole written dump, and how far into them the fault is.
type Behind = (&'static str, u64, VcdCause);

const FIRST_FAULTS: [Behind; 7] = [
    ("2!\n", 0, VcdCause::Token),
    ("0~\n", 0, VcdCause::Code),
    ("b01 !\n", 0, VcdCause::Width),
    ("b1z2 0\n", 0, VcdCause::Token),
    ("#5\n#4\n", 3, VcdCause::TimeBack),
    ("#99999999999999999999\n", 0, VcdCause::Token),
    ("b1", 2, VcdCause::Cut),
];

#[test]
fn written_dump_of_no_samples(rt: HostRuntime) {
    assert!(rt; reads(rt.alloc(), NO_SAMPLES.as_bytes(), &[]));
}

/// Whether the text behind the dump has its fault.
fn fails_behind(alloc: Global, row: &Behind) -> Result<bool, AllocError> {
    let &(text, place, cause) = row;
    let bytes = joined(alloc, &[NO_SAMPLES, text])?;
    let place = (NO_SAMPLES.len() as u64).wrapping_add(place);
    Ok(fails(alloc, &bytes, place, cause))
}

#[test]
fn first_faults_behind_a_written_dump(rt: HostRuntime) -> Result<(), Fail> {
    for (at, row) in FIRST_FAULTS.iter().enumerate() {
        assert!(rt; fails_behind(rt.alloc(), row)?, "row {at}");
    }
    Ok(())
}

#[test]
fn declarations_cut_or_missing(rt: HostRuntime) {
    assert!(rt; fails(rt.alloc(), b"$var wire 1", 11, VcdCause::Cut));
    assert!(rt; fails(rt.alloc(), b"$enddefinitions $end", 0, VcdCause::Missing(0)));
}

/// An end of the simulator's dump, and the samples that it then has.
type SimulatorEnd = (&'static str, [Sees; 2]);

const SIMULATOR_ENDS: [SimulatorEnd; 3] = [
    (
        SIMULATOR_RISES,
        [
            (Rest::Idle, &[NO_DATA]),
            (Rest::Idle, &[Mark::Asserts(Lines::BREQ0), NO_DATA]),
        ],
    ),
    (
        UNKNOWN_AFTER_FALL,
        [
            (Rest::Idle, &[NO_DATA]),
            (
                Rest::Idle,
                &[
                    Mark::Asserts(Lines::BREQ0),
                    Mark::Unknown(Lines::ADS),
                    NO_DATA,
                ],
            ),
        ],
    ),
    (
        UNKNOWN_AFTER_RISE,
        [
            (Rest::Idle, &[NO_DATA]),
            (Rest::Idle, &[Mark::Unknown(Lines::BREQ0), NO_DATA]),
        ],
    ),
];

/// The simulator's dump with this end.
fn simulated(alloc: Global, rises: &str) -> Result<Vec<u8>, AllocError> {
    joined(alloc, &[SIMULATOR_HEAD, SIMULATOR_START, rises])
}

/// Whether the simulator's dump has those samples.
fn is_simulated(alloc: Global, row: &SimulatorEnd) -> Result<bool, AllocError> {
    let (rises, expected) = row;
    let bytes = simulated(alloc, rises)?;
    Ok(reads(alloc, &bytes, expected))
}

#[test]
fn simulator_dump(rt: HostRuntime) -> Result<(), Fail> {
    for (at, row) in SIMULATOR_ENDS.iter().enumerate() {
        assert!(rt; is_simulated(rt.alloc(), row)?, "row {at}");
    }
    Ok(())
}

#[test]
fn load_driven_on_falling_edges(rt: HostRuntime) -> Result<(), Fail> {
    let samples = load(rt.alloc())?;
    assert!(rt; gives(rt.alloc(), FALLING.as_bytes(), &samples));
    assert!(rt; gives(rt.alloc(), FALLING_VERILATOR.as_bytes(), &samples));
    Ok(())
}

#[test]
fn load_among_scopes_and_other_variables(rt: HostRuntime) -> Result<(), Fail> {
    let samples = load_of_known_data(rt.alloc())?;
    assert!(rt; gives(rt.alloc(), SCOPES.as_bytes(), &samples));
    Ok(())
}

/// What the bench meant for clock 0 is seen at clock 1, and so on.
#[test]
fn lines_that_change_at_the_edge_come_one_clock_late(rt: HostRuntime) -> Result<(), Fail> {
    let samples = late_load(rt.alloc())?;
    assert!(rt; gives(rt.alloc(), SAME_TIME.as_bytes(), &samples));
    Ok(())
}

/// A dump of profile 2 has the parity of its request.
#[test]
fn parity_of_a_load(rt: HostRuntime) -> Result<(), Fail> {
    let samples = load_with_parity(rt.alloc())?;
    assert!(rt; gives(rt.alloc(), PARITY_OF_A_LOAD.as_bytes(), &samples));
    Ok(())
}

/// The marks that are told behind the first so many bytes of a text, and behind the rest, whether or not that is refused.
fn told_twice(
    alloc: Global,
    bytes: &[u8],
    first: usize,
) -> Result<(Option<Marks>, Option<Marks>), VcdStop> {
    let mut reader = Reader::new(alloc)?;
    let mut samples = Vec::new(alloc);
    let first = bytes.len().min(first);
    reader.feed(&bytes[..first], &mut samples)?;
    let told = reader.marks();
    let _answer = reader.feed(&bytes[first..], &mut samples);
    Ok((told, reader.marks()))
}

/// The marks of both parities.
const BOTH: Option<Marks> = Some(Marks { ap: true, rp: true });

/// What stands behind the end of the declarations, how many bytes behind that end are fed first, and the marks that are told
/// behind them and behind the rest.
type Twice = (&'static str, usize, (Option<Marks>, Option<Marks>));

const TWICE: [Twice; 4] = [
    ("\n#0 ", 0, (None, BOTH)),
    ("\n#0 ", 1, (BOTH, BOTH)),
    ("\n0~ ", 0, (None, BOTH)),
    ("\n0~ ", 1, (BOTH, BOTH)),
];

/// Whether the marks are told so.
fn is_told_twice(alloc: Global, row: &Twice) -> Result<bool, AllocError> {
    let &(rest, first, told) = row;
    let len = joined(alloc, &[LINES, PARITY_LINES, "$enddefinitions $end"])?.len();
    let bytes = joined(alloc, &[LINES, PARITY_LINES, "$enddefinitions $end", rest])?;
    Ok(told_twice(alloc, &bytes, len.wrapping_add(first)) == Ok(told))
}

/// The marks are told once the end of the declarations counts, also where the piece that has it is refused.
#[test]
fn marks_come_with_the_end_of_the_declarations(rt: HostRuntime) -> Result<(), Fail> {
    for (at, row) in TWICE.iter().enumerate() {
        assert!(rt; is_told_twice(rt.alloc(), row)?, "row {at}");
    }
    Ok(())
}

/// What a text is refused with, if it is, and the marks that are told behind it.
type Told = (Option<VcdStop>, Option<Marks>);

/// The last answer to a text that is fed in pieces of so many bytes, but at least one, to a reader of so many samples, and the
/// marks behind it.
fn told_in_pieces(alloc: Global, bytes: &[u8], limit: u32, size: usize) -> Result<Told, Fail> {
    let mut reader = Reader::up_to(alloc, limit)?;
    let mut samples = Vec::new(alloc);
    let mut refusal = None;
    let mut at = 0;
    while at < bytes.len() {
        let end = bytes.len().min(at.saturating_add(size.max(1)));
        refusal = reader.feed(&bytes[at..end], &mut samples).err();
        at = end;
    }
    Ok((refusal, reader.marks()))
}

/// What stands before, the text, at most how many samples, what it is refused with, and the marks that are told; the place of a
/// fault is so far behind the end of what stands before.
type Refused = (
    Start,
    &'static str,
    u32,
    Option<(u64, VcdCause)>,
    Option<Marks>,
);

const REFUSED: [Refused; 6] = [
    (
        Start::Values,
        " #0 hello ",
        u32::MAX,
        Some((4, VcdCause::Token)),
        Some(UNMARKED),
    ),
    (
        Start::Parity,
        "#1 0~ 1! #2 ",
        u32::MAX,
        Some((3, VcdCause::Code)),
        BOTH,
    ),
    (Start::Parity, "#1 1! #2 hello ", 0, None, BOTH),
    (
        Start::Lines,
        "hello $enddefinitions ",
        u32::MAX,
        Some((0, VcdCause::Header)),
        None,
    ),
    (
        Start::Lines,
        "hello $enddefinitions $end ",
        u32::MAX,
        Some((0, VcdCause::Header)),
        Some(UNMARKED),
    ),
    (
        Start::Whole,
        "$enddefinitions $end #0 ",
        u32::MAX,
        Some((0, VcdCause::Missing(0))),
        Some(UNMARKED),
    ),
];

/// Whether the text in pieces of so many bytes is refused so, too long where no fault is named, and its marks are told.
fn is_refused(alloc: Global, row: &Refused, size: usize) -> Result<bool, Fail> {
    let &(start, text, limit, fault, marks) = row;
    let bytes = text_of(alloc, start, text)?;
    let before = start_len(alloc, start)?;
    let stop = match fault {
        Some((place, cause)) => bad(before.wrapping_add(place), cause),
        None => VcdStop::TooLong,
    };
    Ok(told_in_pieces(alloc, &bytes, limit, size)? == (Some(stop), marks))
}

/// A text that is refused has its marks too, from the `$end` of its `$enddefinitions` on, in whatever pieces it comes.
#[test]
fn marks_of_refused_texts(rt: HostRuntime) -> Result<(), Fail> {
    for (at, row) in REFUSED.iter().enumerate() {
        for size in [1, 7, usize::MAX].iter() {
            assert!(rt; is_refused(rt.alloc(), row, *size)?, "row {at}");
        }
    }
    Ok(())
}

/// Of two samples a reader of at most one gives the first, and then refuses for good.
#[test]
fn reader_of_one_sample_refuses_a_second(rt: HostRuntime) -> Result<(), Fail> {
    let bytes = simulated(rt.alloc(), SIMULATOR_RISES)?;
    let mut reader = Reader::up_to(rt.alloc(), 1)?;
    let mut samples = Vec::new(rt.alloc());
    assert!(rt; reader.feed(&bytes, &mut samples) == Ok(()));
    assert!(rt; samples.len() == 1);
    let Err(stop) = reader.finish(&mut samples) else {
        panic!(rt; "a second sample was let through");
    };
    assert!(rt; stop == VcdStop::TooLong);
    assert!(rt; reader.feed(b"0~ ", &mut samples) == Err(VcdStop::TooLong));
    assert!(rt; samples.len() == 1);
    Ok(())
}

/// A sample comes once a greater time stamp counts, and that is with the white space behind it; so does a fault.
#[test]
fn samples_come_with_the_next_time(rt: HostRuntime) -> Result<(), Fail> {
    let bytes = simulated(rt.alloc(), "#500 1a 0b #500 #1000")?;
    let mut reader = Reader::new(rt.alloc())?;
    let mut samples = Vec::new(rt.alloc());
    assert!(rt; reader.feed(&bytes, &mut samples) == Ok(()));
    assert!(rt; samples.len() == 0);
    assert!(rt; reader.feed(b" 0a #1500 1a 0~", &mut samples) == Ok(()));
    assert!(rt; samples.len() == 1);
    let stop = reader.finish(&mut samples);
    let place = (bytes.len() as u64).wrapping_add(13);
    assert!(rt; stop == Err(bad(place, VcdCause::Code)));
    assert!(rt; samples.len() == 1);
    Ok(())
}

/// The samples of a text that is fed in two pieces, of which the first has so many bytes at most.
fn in_two(alloc: Global, bytes: &[u8], first: usize) -> Result<Vec<Sample>, VcdStop> {
    let mut reader = Reader::new(alloc)?;
    let mut samples = Vec::new(alloc);
    let first = bytes.len().min(first);
    reader.feed(&bytes[..first], &mut samples)?;
    reader.feed(&bytes[first..], &mut samples)?;
    reader.finish(&mut samples)?;
    Ok(samples)
}

/// Whether a dump that is cut in two behind the first so many bytes has these samples.
fn is_same_in_two(alloc: Global, bytes: &[u8], first: usize, expected: &[Sees]) -> bool {
    match in_two(alloc, bytes, first) {
        Ok(samples) => are_as_said(&samples, expected),
        Err(_) => false,
    }
}

/// Wherever a dump is cut in two, it is the same trace.
#[test]
fn cut_in_two_at_every_byte(rt: HostRuntime) -> Result<(), Fail> {
    for (rises, expected) in SIMULATOR_ENDS.iter() {
        let bytes = simulated(rt.alloc(), rises)?;
        for first in 0..bytes.len() {
            assert!(rt;
                is_same_in_two(rt.alloc(), &bytes, first, expected),
                "{first} of {rises}"
            );
        }
    }
    Ok(())
}

/// As long as the declarations have not ended, what is missing is the rest of them.
#[test]
fn declarations_cut_at_every_byte(rt: HostRuntime) {
    let head = SIMULATOR_HEAD.as_bytes();
    for len in 0..head.len().saturating_sub(1) {
        assert!(rt;
            fails(rt.alloc(), &head[..len], len as u64, VcdCause::Cut),
            "{len}"
        );
    }
    assert!(rt; reads(rt.alloc(), head, &[]));
}

/// A token of `len` bytes between two texts.
fn with_token(
    alloc: Global,
    before: &[&str],
    first: &str,
    len: usize,
    after: &str,
) -> Result<Vec<u8>, AllocError> {
    let mut whole = joined(alloc, before)?;
    whole.extend_from_slice(first.as_bytes())?;
    for _ in first.len()..len {
        whole.push(b'0')?;
    }
    whole.extend_from_slice(after.as_bytes())?;
    Ok(whole)
}

/// What stands before a token and how it begins, what stands behind it, and how far behind the declarations its place is;
/// of 70,000 bytes it is read, and of one more it is a fault.
type LongToken = (&'static str, &'static str, &'static str, u64);

const LONG_TOKENS: [LongToken; 5] = [
    ("$var wire 1 q ", "a", " $end $enddefinitions $end\n", 14),
    ("$var wire 1 ", "q", " a $end $enddefinitions $end\n", 12),
    ("$var wire 1 q a ", "[", " $end $enddefinitions $end\n", 16),
    ("", "$c", " $end $enddefinitions $end\n", 0),
    ("$var wire 9 q q $end $enddefinitions $end\n", "b", " q", 42),
];

/// Whether the longest token is read, and one that is a byte longer is refused.
fn is_longest(alloc: Global, row: &LongToken) -> Result<bool, AllocError> {
    let &(before, first, after, place) = row;
    let longest = with_token(alloc, &[LINES, before], first, 70_000, after)?;
    let too_long = with_token(alloc, &[LINES, before], first, 70_001, after)?;
    let place = (LINES.len() as u64).wrapping_add(place);
    Ok(reads(alloc, &longest, &[]) && fails(alloc, &too_long, place, VcdCause::Token))
}

#[test]
fn long_tokens(rt: HostRuntime) -> Result<(), Fail> {
    for (at, row) in LONG_TOKENS.iter().enumerate() {
        assert!(rt; is_longest(rt.alloc(), row)?, "row {at}");
    }
    Ok(())
}

/// Whether a token of any length is read past in the section.
fn is_read_past(alloc: Global, section: &str) -> Result<bool, AllocError> {
    let after = " $end $enddefinitions $end\n";
    let bytes = with_token(alloc, &[LINES, section], "x", 70_001, after)?;
    Ok(reads(alloc, &bytes, &[]))
}

/// A token of any length is read past in a section that is read past.
#[test]
fn long_tokens_in_sections(rt: HostRuntime) -> Result<(), Fail> {
    assert!(rt; is_read_past(rt.alloc(), "$comment ")?);
    assert!(rt; is_read_past(rt.alloc(), "$enddefinitions ")?);
    Ok(())
}

/// Tokens of 70,001 bytes: what stands before the token and how it begins, what stands behind, and the token's place.
const FIRST_OF_ALL: [LongToken; 5] = [
    ("", "x", "", 0),
    ("$var ", "x", "", 5),
    ("$var ", "x", " $end", 5),
    ("$date $end ", "$", "", 11),
    ("$var wire 2 ! BCLK ", "x", " $end", 19),
];

/// Whether the token is refused.
fn comes_first(alloc: Global, row: &LongToken) -> Result<bool, AllocError> {
    let &(before, first, after, place) = row;
    let bytes = with_token(alloc, &[before], first, 70_001, after)?;
    Ok(fails(alloc, &bytes, place, VcdCause::Token))
}

/// A token that is too long is that before it is anything else, and where it ends does not matter.
#[test]
fn long_tokens_come_first(rt: HostRuntime) -> Result<(), Fail> {
    for (at, row) in FIRST_OF_ALL.iter().enumerate() {
        assert!(rt; comes_first(rt.alloc(), row)?, "row {at}");
    }
    Ok(())
}

#[test]
fn long_tokens_come_first_as_codes(rt: HostRuntime) -> Result<(), Fail> {
    let values = [LINES, VALUES, "b1 "];
    let place = joined(rt.alloc(), &values)?.len() as u64;
    let code = with_token(rt.alloc(), &values, "!", 70_001, "")?;
    assert!(rt; fails(rt.alloc(), &code, place, VcdCause::Token));
    Ok(())
}

//! Command lines of p6bench over a text, with a source and sinks that lie in memory.

use fsb_hazard::{Hazard, ScriptHazard};
use fsb_io::{MemSink, MemSource, Memory};
use fsb_probe::{DataProbe, LineProbe, Probe};
use fsb_top::{Status, Words, bench, code, status_line};
use rows_files::halves;
use rows_runs::Stubborn;
use std::alloc::{AllocError, Global};

/// Which call fails, counted from 0: of the source, of the sink of what is printed, and of the sink of the dump.
#[derive(Clone, Copy)]
pub(crate) struct Fails {
    source: [u32; 1],
    out: [u32; 1],
    dump: [u32; 1],
}

impl Fails {
    /// No call fails: none has so high a number.
    pub(crate) const NONE: Fails = Fails {
        source: [u32::MAX],
        out: [u32::MAX],
        dump: [u32::MAX],
    };

    /// Has a call of the source or the sink of this name fail; whether there is one.
    pub(crate) fn add(&mut self, calls: &str, number: u32) -> bool {
        match calls {
            "source" => self.source = [number],
            "out" => self.out = [number],
            "dump" => self.dump = [number],
            _ => return false,
        }
        true
    }
}

/// What an order finds: whether the object on the bench of a run is one that always asks for a retry and not a script's,
/// whether there are probes of ADS#, of DRDY# and of the data, and which calls fail.
#[derive(Clone, Copy)]
pub(crate) struct Outside {
    pub(crate) is_stubborn: bool,
    pub(crate) has_probes: bool,
    pub(crate) fails: Fails,
}

impl Outside {
    /// A script's object and no probes, and no call fails.
    pub(crate) const PLAIN: Outside = Outside {
        is_stubborn: false,
        has_probes: false,
        fails: Fails::NONE,
    };
}

/// What came of an order.
#[derive(Drop)]
pub(crate) struct Came {
    /// The exit status, and its line.
    pub(crate) status: u8,
    pub(crate) line: String,
    /// What is printed, and what is dumped.
    pub(crate) out: String,
    pub(crate) dump: String,
    /// How often the source, the sink of what is printed and that of the dump were called.
    pub(crate) calls: [u64; 3],
    /// What is otherwise than it is after every order, if anything is.
    pub(crate) odd: &'static str,
}

impl Came {
    /// Nothing but this status came.
    pub(crate) fn of_status(alloc: Global, status: &Status) -> Result<Came, AllocError> {
        Ok(Came {
            status: code(status),
            line: text_of(alloc, status_line(status).as_slice())?,
            out: String::new(alloc),
            dump: String::new(alloc),
            calls: [0; 3],
            odd: "",
        })
    }

    /// Whether the same came.
    pub(crate) fn is_as(&self, other: &Came) -> bool {
        self.status == other.status
            && self.line.as_str() == other.line.as_str()
            && self.out.as_str() == other.out.as_str()
            && self.dump.as_str() == other.dump.as_str()
            && self.calls == other.calls
    }
}

/// The source and the sinks of a call.
#[derive(Drop)]
struct Objects {
    source: MemSource,
    out: MemSink,
    dump: MemSink,
}

/// Does what the words behind the name of the program ask for, over this text.
pub(crate) fn did(
    alloc: Global,
    words: &str,
    text: &[u8],
    outside: &Outside,
) -> Result<Came, Memory> {
    let words = words_of(alloc, words)?;
    let mut objects = objects_of(alloc, text, &outside.fails)?;
    let status = called(alloc, &words, &mut objects, outside)?;
    let came = came_of(alloc, &status, &objects)?;
    Ok(Came {
        odd: odd(&objects, &words, &status, &outside.fails),
        ..came
    })
}

// The words behind the name of the program; `@NUMBER` is a word of so many letters.
fn words_of(alloc: Global, line: &str) -> Result<Vec<String>, AllocError> {
    let (_, line) = halves(line);
    let mut words = Vec::new(alloc);
    for word in line.split(" ") {
        if !word.is_empty() {
            words.push(word_of(alloc, word)?)?;
        }
    }
    Ok(words)
}

// A word.
fn word_of(alloc: Global, word: &str) -> Result<String, AllocError> {
    let Some(number) = word.strip_prefix("@") else {
        return String::from_str(alloc, word);
    };
    let Ok(letters) = number.parse::<u16>() else {
        return String::from_str(alloc, word);
    };
    let mut long = String::new(alloc);
    for _ in 0..letters {
        long.push('n')?;
    }
    Ok(long)
}

// A source of this text, and sinks with room for all that is written.
fn objects_of(alloc: Global, text: &[u8], fails: &Fails) -> Result<Objects, Memory> {
    let source = MemSource::new(alloc, text, &fails.source)?;
    let out = MemSink::new(alloc, 1_000, &fails.out)?;
    let dump = MemSink::new(alloc, 10_000, &fails.dump)?;
    Ok(Objects { source, out, dump })
}

// Makes the call with what it finds outside.
fn called(
    alloc: Global,
    list: &[String],
    objects: &mut Objects,
    outside: &Outside,
) -> Result<Status, Memory> {
    let mut words = Words::new(alloc);
    for word in list {
        words.push(alloc, word.as_str())?;
    }
    if outside.is_stubborn {
        let hazard = Box::new(alloc, Stubborn::new())?;
        over(alloc, &words, objects, hazard, outside.has_probes)
    } else {
        let hazard = Box::new(alloc, ScriptHazard::new(alloc))?;
        over(alloc, &words, objects, hazard, outside.has_probes)
    }
}

// Makes the call over this object on the bench of a run, with no probes, or those of ADS#, of DRDY# and of the data.
fn over(
    alloc: Global,
    words: &Words,
    objects: &mut Objects,
    hazard: Box<dyn Hazard>,
    has_probes: bool,
) -> Result<Status, Memory> {
    let mut hazards: Vec<Box<dyn Hazard>> = Vec::new(alloc);
    hazards.push(hazard)?;
    let mut probes: Vec<Box<dyn Probe>> = Vec::new(alloc);
    if has_probes {
        probes.push(Box::new(alloc, LineProbe::new(7))?)?;
        probes.push(Box::new(alloc, LineProbe::new(17))?)?;
        probes.push(Box::new(alloc, DataProbe::new())?)?;
    }
    Ok(bench(
        alloc,
        words,
        &mut objects.source,
        &mut objects.out,
        &mut objects.dump,
        hazards,
        probes,
    ))
}

// What came of a call.
fn came_of(alloc: Global, status: &Status, objects: &Objects) -> Result<Came, AllocError> {
    let came = Came::of_status(alloc, status)?;
    let out = text_of(alloc, objects.out.holds())?;
    let dump = text_of(alloc, objects.dump.holds())?;
    let calls = [
        objects.source.calls(),
        objects.out.calls(),
        objects.dump.calls(),
    ];
    Ok(Came {
        out,
        dump,
        calls,
        ..came
    })
}

fn text_of(alloc: Global, bytes: &[u8]) -> Result<String, AllocError> {
    String::from_str(alloc, std::str::from_utf8(bytes).unwrap_or("no text"))
}

// What is otherwise than it is after every order: the source and the dump are begun under the second and the third word
// where they are called more than once, what is printed has no name, all is read but where the source failed, and each
// object counts its failed calls.
fn odd(objects: &Objects, words: &[String], status: &Status, fails: &Fails) -> &'static str {
    let (source, out, dump) = (&objects.source, &objects.out, &objects.dump);
    if !is_begun(source.begun_as(), source.calls(), words.get(1)) {
        "the source is begun otherwise"
    } else if !is_begun(dump.begun_as(), dump.calls(), words.get(2)) {
        "the dump is begun otherwise"
    } else if out.begun_as().is_some() {
        "what is printed is begun"
    } else if *status != Status::ReadFault && !source.left().is_empty() {
        "not all is read"
    } else if source.faults() != faults_of(fails.source, source.calls())
        || out.faults() != faults_of(fails.out, out.calls())
        || dump.faults() != faults_of(fails.dump, dump.calls())
    {
        "the objects failed otherwise"
    } else {
        ""
    }
}

// Whether an object that was called so often is begun under the word, or not begun where no call came behind the first.
fn is_begun(begun: Option<&[u8]>, calls: u64, word: Option<&String>) -> bool {
    match (begun, word) {
        (Some(begun), Some(word)) => calls > 1 && begun == word.as_bytes(),
        (Some(_), None) => false,
        (None, _) => calls <= 1,
    }
}

// How many of the first calls fail.
fn faults_of(fails: [u32; 1], calls: u64) -> u64 {
    match fails.first() {
        Some(&call) if u64::from(call) < calls => 1,
        _ => 0,
    }
}

//! Orders over a dump, with sources and sinks that lie in memory.

ghost use Rattle.scope_words.specs.Orders.{KeepsLimits};

use fsb_io::{MemSink, MemSource, Memory};
use rows_files::halves;
use scope_report::status;
use scope_top::{Ended, Stop, ending_at, perform};
use scope_words::{Order, Reading, read_order};
use std::alloc::{AllocError, Global};

/// Which calls fail, counted from 0: of the source of the dump, and of the sinks of the answer, the save file and the cut.
#[derive(Clone, Copy)]
pub(crate) struct Fails {
    dump: [u32; 1],
    answer: [u32; 1],
    save: [u32; 1],
    cut: [u32; 1],
}

impl Fails {
    /// No call fails: none has so high a number.
    pub(crate) const NONE: Fails = Fails {
        dump: [u32::MAX],
        answer: [u32::MAX],
        save: [u32::MAX],
        cut: [u32::MAX],
    };

    /// Has a call of the source or the sink of this name fail; whether there is one.
    pub(crate) fn add(&mut self, calls: &str, number: u32) -> bool {
        match calls {
            "dump" => self.dump = [number],
            "answer" => self.answer = [number],
            "save" => self.save = [number],
            "cut" => self.cut = [number],
            _ => return false,
        }
        true
    }
}

/// What an order finds: the dump, whether it can be begun again, the file of `--lines`, and which calls fail.
#[derive(Clone, Copy)]
pub(crate) struct Outside<'a> {
    pub(crate) dump: &'a [u8],
    pub(crate) is_again: bool,
    pub(crate) lines: &'a str,
    pub(crate) fails: Fails,
}

/// What came of an order: the exit status, what was answered and what was refused, the save file and the cut.
#[derive(Drop)]
pub(crate) struct Came {
    pub(crate) status: u8,
    pub(crate) answer: String,
    pub(crate) refusal: String,
    pub(crate) save: String,
    pub(crate) cut: String,
}

impl Came {
    /// Nothing came.
    pub(crate) fn nothing(alloc: Global) -> Came {
        refused(alloc, 0, String::new(alloc))
    }

    /// Whether the same status, answer and refusal came.
    pub(crate) fn is_as(&self, other: &Came) -> bool {
        self.status == other.status
            && self.answer.as_str() == other.answer.as_str()
            && self.refusal.as_str() == other.refusal.as_str()
    }
}

// What came of an order that was refused at once.
fn refused(alloc: Global, status: u8, refusal: String) -> Came {
    Came {
        status,
        answer: String::new(alloc),
        refusal,
        save: String::new(alloc),
        cut: String::new(alloc),
    }
}

/// Does what the words behind the name of the program ask for.
pub(crate) fn did(alloc: Global, words: &str, outside: Outside<'_>) -> Result<Came, Memory> {
    let (_, words) = halves(words);
    let words = words_of(alloc, words)?;
    match read_order(alloc, &words)? {
        Reading::Told(told) => Ok(refused(alloc, told.status(), told.text)),
        Reading::Order(order) => ordered(alloc, order, outside),
    }
}

// The words of a line.
fn words_of(alloc: Global, line: &str) -> Result<Vec<String>, AllocError> {
    let mut words = Vec::new(alloc);
    for word in line.split(" ") {
        words.push(String::from_str(alloc, word)?)?;
    }
    Ok(words)
}

// Where an order writes.
#[derive(Drop)]
struct Sinks {
    answer: MemSink,
    refusal: MemSink,
    save: MemSink,
    cut: MemSink,
}

impl Sinks {
    // Empty ones, of whose calls these fail.
    fn new(alloc: Global, fails: &Fails) -> Result<Sinks, Memory> {
        let answer = MemSink::new(alloc, 100_000, &fails.answer)?;
        let refusal = MemSink::new(alloc, 100_000, &[])?;
        let save = MemSink::new(alloc, 100_000, &fails.save)?;
        let cut = MemSink::new(alloc, 100_000, &fails.cut)?;
        Ok(Sinks {
            answer,
            refusal,
            save,
            cut,
        })
    }

    // Does what is asked for.
    fn perform(
        &mut self,
        alloc: Global,
        order: Order<'_>,
        is_again: bool,
        lines: &mut MemSource,
        dump: &mut MemSource,
    ) -> Result<Ended, Stop>
        requires { KeepsLimits order }
    {
        perform(
            alloc,
            order,
            is_again,
            lines,
            dump,
            &mut self.answer,
            &mut self.refusal,
            &mut self.save,
            &mut self.cut,
        )
    }

    // What came, where the order ended so.
    fn came(&self, alloc: Global, end: Result<Ended, Stop>) -> Result<Came, AllocError> {
        Ok(Came {
            status: status(ending_at(end)),
            answer: text_of(alloc, self.answer.holds())?,
            refusal: text_after(alloc, self.refusal.holds(), end.err())?,
            save: text_of(alloc, self.save.holds())?,
            cut: text_of(alloc, self.cut.holds())?,
        })
    }
}

// Does what is asked for, with sources and sinks of its own. Making six of them here, and then the four texts, would take
// the prover half an hour: it goes through all that is alive at each way out.
fn ordered(alloc: Global, order: Order<'_>, outside: Outside<'_>) -> Result<Came, Memory>
    requires { KeepsLimits order }
{
    let mut dump = MemSource::new(alloc, outside.dump, &outside.fails.dump)?;
    let mut lines = MemSource::new(alloc, outside.lines.as_bytes(), &[])?;
    let mut sinks = Sinks::new(alloc, &outside.fails)?;
    let end = sinks.perform(alloc, order, outside.is_again, &mut lines, &mut dump);
    Ok(sinks.came(alloc, end)?)
}

fn text_of(alloc: Global, bytes: &[u8]) -> Result<String, AllocError> {
    String::from_str(alloc, std::str::from_utf8(bytes).unwrap_or("no text"))
}

// What was refused, and a line that says why the command did not come to its end.
fn text_after(alloc: Global, bytes: &[u8], stop: Option<Stop>) -> Result<String, AllocError> {
    let mut text = text_of(alloc, bytes)?;
    if let Some(stop) = stop {
        write!(text, "{stop:?}\n")?;
    }
    Ok(text)
}

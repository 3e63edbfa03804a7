//! What a command line of p6scope asks for.

use crate::moment::Moment;
use scope_wiring::Choice;

/// What a command line asks for.
#[derive(Debug, Drop)]
pub enum Order<'a> {
    /// To tell what a dump declares.
    Lines {
        dump: &'a str,
    },
    /// To judge a dump.
    Check {
        wires: Wires<'a>,
        part: Part,
        views: Views<'a>,
        dump: &'a str,
    },
    /// To judge whether a coherent system could have made a dump.
    Coherence {
        wires: Wires<'a>,
        part: Part,
        dump: &'a str,
    },
    /// To write the requests of a dump as a table.
    Table {
        wires: Wires<'a>,
        part: Part,
        form: TableForm,
        dump: &'a str,
    },
    /// To write the picked lines as a dump of its own.
    Pick {
        wires: Wires<'a>,
        part: Part,
        dump: &'a str,
    },
    /// To tell the text of a rule, or the titles of all.
    Rule {
        number: Option<u8>,
    },
}

/// Which wires are the bus, and when they are sampled.
#[derive(Debug, Drop)]
pub struct Wires<'a> {
    pub choice: Choice,
    /// The file that names more lines.
    pub file: Option<&'a str>,
    pub edge: Edge,
    /// A clock that is first seen high has its first edge there.
    pub is_first: bool,
    /// The lines that are sampled after the changes of the edge's own time, by their numbers.
    pub after: Vec<u8>,
}

/// How what was found is shown: the form of the report, and the files that show the first broken rule.
#[derive(Clone, Copy, Debug)]
pub struct Views<'a> {
    pub format: Format,
    /// A save file for GTKWave.
    pub save: Option<&'a str>,
    /// A dump of the clocks around it.
    pub cut: Option<&'a str>,
}

/// The form of a report.
#[derive(Clone, Copy, Debug, PartialEq, Eq)]
pub enum Format {
    /// A text for people.
    Text,
    /// An object of JSON in one line.
    Json,
    /// A line of CSV for each broken part, and one with the names of the columns before them.
    Csv,
}

/// The form of a table.
#[derive(Clone, Copy, Debug, PartialEq, Eq)]
pub enum TableForm {
    /// Columns that are aligned, for people.
    Text,
    /// Lines of CSV, the first with the names of the columns.
    Csv,
}

/// The edge of the clock at which the lines are sampled.
#[derive(Clone, Copy, Debug, PartialEq, Eq)]
pub enum Edge {
    Rise,
    Fall,
}

/// Which clocks are judged.
#[derive(Clone, Copy, Debug)]
pub struct Part {
    /// Exactly from here on, whatever is under way.
    pub at: Option<Moment>,
    /// From the first quiet clock at or above this one on.
    pub from: Option<Moment>,
    /// Up to here.
    pub to: Option<Moment>,
    /// How many clocks without an asserted line make a quiet clock.
    pub quiet: u32,
    /// Up to how many broken rules are looked for, 1 to 16. Without `--resume` it is 1.
    pub most: u32,
}

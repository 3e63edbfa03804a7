//! Lines and words of the bus.

ghost use Rattle.std.specs.Prelude.{◌≡◌, true};
ghost use Rattle.reason_lines.specs.Named.{both, no_lines, with_address, with_arbitration, with_asked, with_data, with_line, with_request, with_response, with_snoop};

use fsb_signal::Lines;

/// Some of the control lines, and which of the three words.
#[derive(Clone, Copy, Debug, PartialEq, Eq)]
pub struct NamedLines {
    pub lines: Lines,
    /// REQ#.
    pub has_request: bool,
    /// A#, which carries the address and the deferred ID.
    pub has_address: bool,
    /// D#.
    pub has_data: bool,
}

impl NamedLines {
    /// No line.
    pub fn none() -> NamedLines
        ensures { result ≡ no_lines }
    {
        NamedLines {
            lines: Lines(0),
            has_request: false,
            has_address: false,
            has_data: false,
        }
    }

    /// These, and a control line.
    pub fn with_line(self, line: Lines) -> NamedLines
        ensures { result ≡ with_line line self }
    {
        NamedLines {
            lines: Lines(self.lines.0 | line.0),
            ..self
        }
    }

    /// All lines of the two.
    pub fn both(self, other: NamedLines) -> NamedLines
        ensures { result ≡ both self other }
    {
        NamedLines {
            lines: Lines(self.lines.0 | other.lines.0),
            has_request: self.has_request || other.has_request,
            has_address: self.has_address || other.has_address,
            has_data: self.has_data || other.has_data,
        }
    }

    pub(crate) fn with_request(self) -> NamedLines
        ensures { result ≡ with_request self }
    {
        NamedLines {
            has_request: true,
            ..self
        }
    }

    pub(crate) fn with_address(self) -> NamedLines
        ensures { result ≡ with_address self }
    {
        NamedLines {
            has_address: true,
            ..self
        }
    }

    pub(crate) fn with_data(self) -> NamedLines
        ensures { result ≡ with_data self }
    {
        NamedLines {
            has_data: true,
            ..self
        }
    }

    // The lines by which agents ask for the bus.
    pub(crate) fn with_asked(self) -> NamedLines
        ensures { result ≡ with_asked self }
    {
        self.with_line(Lines::BREQ0)
            .with_line(Lines::BREQ1)
            .with_line(Lines::BREQ2)
            .with_line(Lines::BREQ3)
            .with_line(Lines::BPRI)
    }

    // The lines that decide who wins the bus.
    pub(crate) fn with_arbitration(self) -> NamedLines
        ensures { result ≡ with_arbitration self }
    {
        self.with_asked().with_line(Lines::LOCK)
    }

    // The lines that show when a snoop ends.
    pub(crate) fn with_snoop(self) -> NamedLines
        ensures { result ≡ with_snoop self }
    {
        self.with_line(Lines::HIT).with_line(Lines::HITM)
    }

    pub(crate) fn with_response(self) -> NamedLines
        ensures { result ≡ with_response self }
    {
        self.with_line(Lines::RS0)
            .with_line(Lines::RS1)
            .with_line(Lines::RS2)
    }
}

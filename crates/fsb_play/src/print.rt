//! What is written of a run.

/// What is written of a run.
#[derive(Clone, Copy, Debug)]
pub enum Print<'a> {
    /// The log.
    Log,
    /// The log, and then the dump under this name.
    LogAndDump(&'a str),
    /// The summary of a generated run: what it was made from, the log's last line, and the requests on the bus.
    Summary { seed: u64, agents: u8, items: u16 },
}

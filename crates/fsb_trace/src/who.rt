/// Who wins the bus, and begins a request.
#[derive(Clone, Copy, Debug, PartialEq, Eq)]
pub enum Who {
    /// One of the symmetric agents, 0 to 3.
    Symmetric(u8),
    /// The priority agent, which is the bridge.
    Priority,
}

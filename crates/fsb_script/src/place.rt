/// Which lines may stand next in a bench file.
#[derive(Clone, Copy, Debug, PartialEq, Eq)]
pub(crate) enum Place {
    /// `p6bench 1`.
    First,
    Agents,
    Clocks,
    Cache,
    Ahead,
    /// The profile, the bridge, memory, or the first script.
    Profile,
    /// The bridge, memory, or the first script.
    Bridge,
    /// Memory, or the first script.
    Memory,
    /// The next script.
    Agent,
    /// Items of a script, or its end.
    Items,
    /// Accesses of a locked item, or its end.
    Locked,
    Hazards,
}

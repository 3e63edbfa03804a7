use scope_pick::Variable;
use vcd_cut::Cutter;
use vcd_header::Section;

/// What a header declares.
#[derive(Debug, Drop)]
pub struct Header {
    /// In the order of the declarations.
    pub variables: Vec<Variable>,
    /// The sections that declare nothing, in their order.
    pub remarks: Vec<Section>,
}

/// Where the reading of a dump stands behind its header.
#[derive(Drop)]
pub struct Behind {
    /// It has read the bytes of the header.
    pub(crate) cutter: Cutter,
    /// The bytes behind them that were taken of the source too.
    pub(crate) rest: Vec<u8>,
    /// How many bytes were taken of the source.
    pub(crate) taken: u64,
}

/// A header, and where the reading of its dump stands.
#[derive(Drop)]
pub struct Begun {
    pub header: Header,
    pub behind: Behind,
}

use vcd_grammar::VcdFault;

/// The end of a text that ends early: what is whole of it was read.
#[derive(Clone, Copy, Debug, PartialEq, Eq)]
pub struct EarlyEnd {
    /// The fault that the end would be.
    pub fault: VcdFault,
    /// Where the section or the value begins that stands open there.
    pub open_from: Option<u64>,
}

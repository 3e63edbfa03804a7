/// What is let pass in a header.
#[derive(Clone, Copy, Debug, PartialEq, Eq)]
pub struct HeaderRules {
    /// The most bits that a variable has.
    pub widest: u64,
    /// Words before the first `$` are read past.
    pub skips_preface: bool,
}

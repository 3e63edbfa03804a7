ghost use Rattle.std.specs.Prelude.{◌≡◌, length, map};
ghost use Rattle.fsb_signal.specs.Table.{table};
ghost use Rattle.vcd_grammar.specs.Levels.{level_of};
ghost use Rattle.vcd_course.specs.Lines.{values_in, SameUnlessListed};

use vcd_grammar::Level;

/// How many changed lines are listed.
pub(crate) const LISTED: usize = 32;

/// The digits of each line of the table, from its highest bit to its lowest, in as many first bytes
/// of its row; and what they say.
#[derive(Clone, Copy, Debug)]
pub(crate) struct Rows {
    pub(crate) rows: [[u8; 64]; 22],
    pub(crate) levels: [Level; 22],
    ghost long: { length rows ≡ 22 },
    ghost says: { levels ≡ map level_of (values_in table rows) },
}

/// The lines before the block that stands open, and in it. The end of a block copies those that
/// are listed.
#[derive(Drop)]
pub(crate) struct Block {
    pub(crate) before: Rows,
    pub(crate) inside: Rows,
    /// The lines that may have changed in the block, some maybe twice, as long as there is room.
    pub(crate) changed: [u8; 32],
    /// How many they are; more than there is room for, where any line may have changed.
    pub(crate) count: usize,
    ghost held: { length changed ≡ 32 },
    ghost same: { SameUnlessListed count changed before.rows inside.rows },
}

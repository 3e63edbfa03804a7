ghost use Rattle.std.specs.Prelude.{◌≡◌, true};
ghost use Rattle.std.specs.List.{list_all};
ghost use Rattle.vcd_way.specs.Lawful.{is_lawful_tap};

use vcd_way::Tap;

/// A code, and the taps that it stands for; none where it is another variable's.
#[derive(Drop)]
pub struct Wire {
    pub(crate) code: Vec<u8>,
    pub(crate) taps: Vec<Tap>,
    ghost lawful: { list_all is_lawful_tap taps.items ≡ true },
}

ghost use Rattle.std.specs.Prelude.{◌≡◌, ◌++◌, ◌∷◌, [], true, option_map, IfSome, IfOk, OnOk};
ghost use Rattle.std.specs.List.{list_all};
ghost use Rattle.vcd_way.specs.Lawful.{is_line, is_lawful_tap};
ghost use Rattle.vcd_scan.specs.Wired.{taps_in, wires_told, codes_told};

use crate::places::CodePlaces;
use crate::table::Wires;
use crate::wire::Wire;
use std::alloc::{AllocError, Global};
use vcd_header::copy_of;
use vcd_way::Tap;

impl Wires {
    /// These lines, and no code yet.
    pub fn new(alloc: Global, lines: Vec<u8>) -> Self
        requires { list_all is_line lines.items ≡ true }
        ensures { wires_told result ≡ record { codes = []; lines = lines.items } }
    {
        Wires {
            wires: Vec::new(alloc),
            places: CodePlaces::new(alloc),
            lines,
        }
    }

    /// One more code, which stands for these taps unless it was there before.
    pub fn add(&mut self, alloc: Global, code: &[u8], taps: Vec<Tap>) -> Result<(), AllocError>
        requires { list_all is_lawful_tap taps.items ≡ true }
        ensures { OnOk result (wires_told self.new ≡ record (wires_told self.old) {
          codes = codes_told self.old.wires.items ++ record { code = code.now; taps = taps.items } ∷ [];
        }) }
    {
        self.wires.reserve(1)?;
        let word = copy_of(alloc, code)?;
        self.places.add(alloc, code, self.wires.len())?;
        self.wires.push_reserved(Wire { code: word, taps });
        Ok(())
    }

    /// The taps of a code, where it was declared.
    #[inline(always)]
    pub(crate) fn taps(&self, code: &[u8]) -> Option<&[Tap]>
        ensures taps { option_map (λ taps. taps.now) result
            ≡ taps_in (codes_told self.now.wires.items) code.now }
        ensures lawful { IfSome result (λ taps. list_all is_lawful_tap taps.now ≡ true) }
    {
        let place = self.places.place(code)?;
        Some(self.wires[place].taps.as_slice())
    }
}

ghost use Rattle.std.specs.Prelude.{◌≡◌, ◌≢◌, ℕ, ◌<◌, ◌≤◌, ◌||◌, ◌==◌, false, IsTrue, IfOk, OnOk, OnErr, length, take};
ghost use Rattle.std.specs.List.{list_any};
ghost use Rattle.fsb_memory.specs.Controller.{is_mapped, line_in, start_bytes, is_in_line, is_line_named, first_line, count_in_first_line, set_bytes};

use fsb_access::{LINE_BYTES, Setting};
use fsb_io::Memory;
use std::alloc::Global;
use std::marker::Model;
use steady_map::SteadyMap;

/// The bytes of each line that was named. Contracts see them as a map of lines.
#[derive(Drop)]
pub struct Controller {
    lines: SteadyMap<[u8; 32]>,
}

impl Model for Controller {
    ghost use Rattle.fsb_memory.specs.Controller.{LineMap};

    ghost Value = { LineMap };

    ghost view = { λ controller. controller.lines.entries };
}

impl Controller {
    /// The memory that the settings make: later settings win, and all other bytes are 0. A line is named by a setting of
    /// one of its bytes, or in `lines`.
    pub fn new(alloc: Global, sets: &[Setting], lines: &[u64]) -> Result<Controller, Memory>
        ensures bytes { IfOk result (λ controller.
            (line : ℕ) → line_in controller line ≡ start_bytes sets.now line) }
        ensures named { IfOk result (λ controller.
            (line : ℕ) → is_mapped controller line ≡ is_line_named sets.now lines.now line) }
    {
        let mut controller = Controller::of_settings(alloc, sets)?;
        for line in lines {
            let bytes = controller.line(*line);
            controller.keep(*line, bytes)?;
        }
        Ok(controller)
    }

    /// The bytes of a line; they are zeros for a line that was never named. No memory is taken.
    pub fn line(&self, line: u64) -> [u8; 32]
        ensures bytes { result ≡ line_in self.now line }
        ensures all { length result ≡ 32 }
    {
        self.lines.get(line).copied().unwrap_or([0; 32])
    }

    /// Puts the bytes of a line that was named. No memory is taken.
    pub fn put(&mut self, line: u64, bytes: [u8; 32])
        requires { IsTrue (is_mapped self.old line) }
        ensures put { line_in self.new line ≡ bytes }
        ensures others { (other : ℕ) → other ≢ line →
            line_in self.new other ≡ line_in self.old other }
        ensures named { (other : ℕ) → is_mapped self.new other ≡ is_mapped self.old other }
    {
        let _ = self.lines.replace(line, bytes);
    }

    /// The memory that the settings make, with the lines that they name.
    fn of_settings(alloc: Global, sets: &[Setting]) -> Result<Controller, Memory>
        ensures bytes { IfOk result (λ controller.
            (line : ℕ) → line_in controller line ≡ start_bytes sets.now line) }
        ensures named { IfOk result (λ controller.
            (line : ℕ) → is_mapped controller line ≡ list_any (is_in_line line) sets.now) }
    {
        let mut controller = Controller {
            lines: SteadyMap::new(alloc),
        };
        let mut done = 0;
        while done < sets.len() {
            done += controller.set(&sets[done..])?;
        }
        Ok(controller)
    }

    /// Puts the first settings, those up to the first one of another line, and answers how many they are. The line is
    /// read once and put back once for all of them.
    fn set(&mut self, sets: &[Setting]) -> Result<usize, Memory>
        requires { 0 < length sets.now }
        ensures some { IfOk result (λ count. 0 < count) }
        ensures within { IfOk result (λ count. count ≤ length sets.now) }
        ensures count { IfOk result (λ count. count ≡ count_in_first_line sets.now) }
        ensures bytes { IfOk result (λ count.
            (line : ℕ) → line_in self.new line
            ≡ set_bytes line (line_in self.old line) (take count sets.now)) }
        ensures named { IfOk result (λ count.
            (line : ℕ) → is_mapped self.new line
            ≡ (list_any (is_in_line line) (take count sets.now) || is_mapped self.old line)) }
        ensures unnamed { OnErr result (is_mapped self.old (first_line sets.now) ≡ false) }
        ensures unchanged { OnErr result (self.new ≡ self.old) }
    {
        let line = sets[0].addr / LINE_BYTES;
        let mut bytes = self.line(line);
        let mut count = 0;
        while count < sets.len() && sets[count].addr / LINE_BYTES == line {
            bytes[(sets[count].addr % LINE_BYTES) as usize] = sets[count].byte;
            count += 1;
        }
        self.keep(line, bytes)?;
        Ok(count)
    }

    /// Puts the bytes of a line, which is named then. Memory lacks only for a line that was not named, and no line changes
    /// then.
    fn keep(&mut self, line: u64, bytes: [u8; 32]) -> Result<(), Memory>
        ensures kept { OnOk result (line_in self.new line ≡ bytes) }
        ensures others { OnOk result (
            (other : ℕ) → other ≢ line → line_in self.new other ≡ line_in self.old other) }
        ensures named { OnOk result (
            (other : ℕ) → is_mapped self.new other
            ≡ ((other == line) || is_mapped self.old other)) }
        ensures unnamed { OnErr result (is_mapped self.old line ≡ false) }
        ensures unchanged { OnErr result (self.new ≡ self.old) }
    {
        self.lines.insert(line, bytes)?;
        Ok(())
    }
}

//! What the words of the contracts say of each other. Each law is the contract of a function that
//! does nothing.

ghost use Rattle.std.specs.Prelude.{◌≡◌, ◌+◌, ◌*◌, ◌/◌, ◌%◌, ◌^◌, ◌≤◌, ◌↔◌, ℕ, IsTrue};
ghost use Rattle.std.specs.Int.{is_power_of_two};
ghost use Rattle.fsb_access.specs.ByteMemory.{ByteMemory, bytes_at, put_value, value_at};
ghost use Rattle.fsb_cache.specs.LineValues.{line_with_value, value_in_line};
ghost use Rattle.fsb_cache.specs.Sets.{CacheSets, Has, InOneSet};

/// The numbers of sets that a cache may have are powers of two.
#[tactic(auto, using(crate::proofs::Places::sizes))]
pub fn sizes_are_powers_of_two()
    ensures { (lines : ℕ) → IsTrue (is_power_of_two lines) ↔ ((k : ℕ) × (lines ≡ 2 ^ k)) }
{}

/// A set has one line at most.
#[tactic(auto, using(crate::proofs::SetMaps::one_line))]
pub fn set_has_one_line()
    ensures { (sets : CacheSets) (line other : ℕ) → InOneSet sets line other → Has sets line
        → Has sets other → line ≡ other }
{}

/// A line that has a memory's bytes loads and stores as that memory does.
#[tactic(auto, using(crate::proofs::LineBytes::loaded_as_in_memory, crate::proofs::LineBytes::stored_as_in_memory))]
pub fn lines_serve_as_memory()
    ensures loads { (memory : ByteMemory) (addr size : ℕ) → addr % 32 + size ≤ 32
        → value_in_line (bytes_at memory (addr / 32 * 32) 32) addr size
        ≡ value_at memory addr size }
    ensures stores { (memory : ByteMemory) (addr size value : ℕ) → addr % 32 + size ≤ 32
        → line_with_value (bytes_at memory (addr / 32 * 32) 32) addr size value
        ≡ bytes_at (put_value memory addr size value) (addr / 32 * 32) 32 }
{}

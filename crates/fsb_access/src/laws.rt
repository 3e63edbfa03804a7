//! Laws of the definitions: small functions with no code, whose contracts are the laws.

ghost use Rattle.std.specs.Prelude.{◌≡◌, ℕ, ◌+◌, ◌%◌, ◌^◌, ◌<◌, ◌≤◌, ◌⊎◌, true, List, [], ◌∷◌, ◌++◌};
ghost use Rattle.fsb_access.specs.Access.{is_place};
ghost use Rattle.fsb_access.specs.ByteMemory.{ByteMemory, bytes_at, value_at, put_value};
ghost use Rattle.fsb_access.specs.Replay.{start_of, served_value, replay, Served};
ghost use Rattle.fsb_access.specs.ScriptOrder.{script_of, InOrder, AreNextItem};
ghost use Rattle.fsb_access.specs.declared.access.Setting.{Setting};
ghost use Rattle.fsb_access.specs.declared.item.Item.{Item};
ghost use Rattle.fsb_access.specs.declared.log.Done.{Done};

/// A load of the bytes that a store has put gives the number that was stored, and bytes beside them stay as they were.
/// A number that is loaded fits its bytes, and the bytes of a lawful access lie within one line of 32 bytes.
pub fn stores_are_loaded()
    ensures stored { (memory : ByteMemory) (addr size value : ℕ) → value < 256 ^ size →
        value_at (put_value memory addr size value) addr size ≡ value }
    ensures beside { (memory : ByteMemory) (addr size value from count : ℕ) →
        (from + count ≤ addr) ⊎ (addr + size ≤ from) →
        bytes_at (put_value memory addr size value) from count ≡ bytes_at memory from count }
    ensures fits { (memory : ByteMemory) (addr size : ℕ) → ((place : ℕ) → memory place < 256) →
        value_at memory addr size < 256 ^ size }
    ensures line { (size addr : ℕ) → is_place size addr ≡ true → addr % 32 + size ≤ 32 }
{}

/// The empty log is served; so is a served log with one more entry, whose value is what that entry finds after the
/// others; and so is the front of a log that is served.
pub fn served_logs_go_on()
    ensures empty { (settings : List Setting) → Served settings [] }
    ensures next { (settings : List Setting) (log : List Done) (done : Done) → Served settings log →
        done.value ≡ served_value (replay (start_of settings) log) done.agent done.access →
        Served settings (log ++ done ∷ []) }
    ensures front { (settings : List Setting) (log more : List Done) →
        Served settings (log ++ more) → Served settings log }
{}

/// The empty log is in order; so is a log in order with the entries of the next item of one agent's script after it.
pub fn orderly_logs_go_on()
    ensures empty { (scripts : List (List Item)) → InOrder scripts [] }
    ensures next { (scripts : List (List Item)) (agent count : ℕ) (log more : List Done) →
        InOrder scripts log → AreNextItem (script_of scripts agent) agent count log more →
        InOrder scripts (log ++ more) }
{}

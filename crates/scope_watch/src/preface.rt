//! The text before the first `$` of a dump.
ghost use Rattle.std.specs.Prelude.{◌≡◌, ◌<◌, ◌+◌, ◌^◌, ◌++◌, ◌∷◌, ℕ, List, [], length, nat_le};
ghost use Rattle.vcd_grammar.specs.Tokens.{is_white};
ghost use Rattle.scope_watch.specs.Prefaces.{HasRead, preface_limit};

/// So many bytes without a `$` that begins a word are no dump.
const PREFACE_LIMIT: u64 = 1 << 20;

/// Reads the text before the first `$` that begins a word, in pieces of any size.
#[derive(Drop)]
pub(crate) struct PrefaceReader {
    /// How many bytes it has so far.
    pub(crate) count: u64,
    /// A word may begin with the next byte.
    pub(crate) starts: bool,
    /// The `$` has come.
    pub(crate) is_over: bool,
}

impl PrefaceReader {
    /// Before the first byte.
    pub(crate) fn new() -> Self
        ensures read { HasRead result [] }
        ensures none { result.count ≡ 0 }
    {
        PrefaceReader {
            count: 0,
            starts: true,
            is_over: false,
        }
    }

    /// The next bytes.
    pub(crate) fn take(&mut self, piece: &[u8])
        requires { (fed : List ℕ) × HasRead self.old fed
            × (length fed + length piece.now + 1 < 2 ^ 64) }
        ensures { (fed : List ℕ) → HasRead self.old fed → HasRead self.new (fed ++ piece.now) }
    {
        for at in 0..piece.len() {
            self.take_byte(piece[at]);
        }
    }

    /// The next byte.
    fn take_byte(&mut self, byte: u8)
        requires { (fed : List ℕ) × HasRead self.old fed × (length fed + 1 < 2 ^ 64) }
        ensures { (fed : List ℕ) → HasRead self.old fed → HasRead self.new (fed ++ byte ∷ []) }
    {
        if self.is_over {
            return;
        }
        if self.starts && byte == b'$' {
            self.is_over = true;
            return;
        }
        self.count += 1;
        self.starts = is_white(byte);
    }

    /// Whether what was read is too long for the text to be a dump.
    pub(crate) fn is_too_long(&self) -> bool
        ensures { result ≡ nat_le preface_limit self.now.count }
    {
        PREFACE_LIMIT <= self.count
    }
}

/// Whether a byte divides words.
fn is_white(byte: u8) -> bool
    ensures { result ≡ is_white byte }
{
    byte <= b' ' && (byte == b' ' || 9 <= byte && byte <= 13)
}

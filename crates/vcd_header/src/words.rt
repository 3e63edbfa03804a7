//! What a token says by itself.

ghost use Rattle.std.specs.Prelude.{◌≡◌};
ghost use Rattle.vcd_grammar.specs.Tokens.{is_long};
ghost use Rattle.vcd_grammar.specs.Words.{is_end, is_dollar, is_code_word};

/// A token of more bytes is too long.
const LONGEST: usize = 70_000;

/// Whether a word is too long for a token.
pub fn is_long(word: &[u8]) -> bool
    ensures { result ≡ is_long word.now }
{
    LONGEST < word.len()
}

/// Whether the token ends a section.
pub fn is_end(word: &[u8]) -> bool
    ensures { result ≡ is_end word.now }
{
    b"$end".as_slice() == word
}

/// Whether the token begins with `$`.
pub fn is_dollar(word: &[u8]) -> bool
    ensures { result ≡ is_dollar word.now }
{
    match word {
        [] => false,
        [first, ..] => *first == b'$',
    }
}

/// Whether each byte may stand in a code.
pub(crate) fn is_code_word(word: &[u8]) -> bool
    ensures { result ≡ is_code_word word.now }
{
    word.iter().all(|byte| 33 <= *byte && *byte <= 126)
}

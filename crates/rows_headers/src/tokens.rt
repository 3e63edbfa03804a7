//! Where tokens stand.

use std::alloc::{AllocError, Global};
use vcd_cut::{CutToken, Cutter};

/// A token: its word, its place and its text line.
#[derive(Drop)]
struct Found {
    word: Vec<u8>,
    place: u64,
    line: u64,
}

/// The tokens of the text below.
const TOKENS: [(&'static str, u64, u64); 5] = [
    ("$var", 1, 2),
    ("a", 6, 2),
    ("bb", 9, 3),
    ("#12", 14, 5),
    ("end", 18, 5),
];

const TEXT: &str = "\n$var a\r\nbb\n\n\t#12 end";

/// A token that was just cut off these bytes.
fn token_at(
    alloc: Global,
    cutter: &Cutter,
    token: CutToken,
    bytes: &[u8],
) -> Result<Found, AllocError> {
    let word = Vec::from_slice(alloc, cutter.word(token, bytes))?;
    Ok(Found {
        word,
        place: token.place,
        line: token.line,
    })
}

/// The tokens of a text that comes in pieces of a size.
fn tokens_of(alloc: Global, bytes: &[u8], size: usize) -> Result<Vec<Found>, AllocError> {
    let mut cutter = Cutter::new(alloc)?;
    let mut tokens = Vec::new(alloc);
    let mut at = 0;
    let mut end = 0;
    while at < bytes.len() {
        if at == end {
            end = bytes.len().min(at.saturating_add(size.max(1)));
        }
        let rest = &bytes[at..end];
        let cut = cutter.next(rest);
        if let Some(token) = cut.token {
            tokens.push(token_at(alloc, &cutter, token, rest)?)?;
        }
        at += cut.used;
    }
    if let Some(token) = cutter.finish() {
        tokens.push(token_at(alloc, &cutter, token, &[])?)?;
    }
    Ok(tokens)
}

/// Whether these are the tokens of the text.
fn are_as_said(tokens: &[Found]) -> bool {
    tokens.len() == TOKENS.len()
        && tokens.iter().zip(TOKENS.iter()).all(|(token, (word, place, line))| {
            token.word.as_slice() == word.as_bytes() && token.place == *place && token.line == *line
        })
}

#[test]
fn tokens_with_places_and_lines(rt: HostRuntime) {
    for size in 1..25 {
        let tokens = tokens_of(rt.alloc(), TEXT.as_bytes(), size)
            .ok()
            .expect(&rt, "memory");
        assert!(rt; are_as_said(tokens.as_slice()));
    }
}

ghost use Rattle.std.specs.Prelude.{◌≡◌, ◌≤◌, [], ◌∷◌, ◌++◌, length, Some, option_map, IfSome, IfOk, OnOk};
ghost use Rattle.vcd_grammar.specs.Codes.{lines_of, with_code};
ghost use Rattle.vcd_read.specs.CodesView.{only_of, with_single, packed, key_of, lines_at, LongKept, KeepsLong, KeepsGroups};

use std::alloc::{AllocError, Global};
use std::collections::BTreeMap;
use std::marker::Model;
use steady_map::SteadyMap;

/// A code of more bytes is kept as it is, and another one as a number.
const SHORT: usize = 7;

/// The key of the first long code.
const LONG: u64 = 1 << 63;

/// The codes that were declared, each with the lines that have it.
#[derive(Drop)]
pub(crate) struct Codes {
    alloc: Global,
    /// The line of a code that is this one byte, where it has exactly one.
    single: [Option<u8>; 128],
    /// The key of each long code, in a tree: no choice of codes makes a search in it long.
    long: BTreeMap<Vec<u8>, u64>,
    /// The place of each code's lines among the groups, by its key: one more than their index, and 0 where it has none.
    all: SteadyMap<usize>,
    /// The lines that have one code, whenever there was one more.
    groups: Vec<Vec<u8>>,
}

impl Model for Codes {
    ghost use Rattle.std.specs.Prelude.{List};
    ghost use Rattle.vcd_grammar.specs.Codes.{Code};
    ghost use Rattle.vcd_read.specs.CodesView.{codes_of, lines_at, CodesKept};

    ghost Value = { List Code };

    ghost view = { λ c. codes_of c.long.entries (lines_at c.groups.items) c.all.entries };

    ghost invariant = { λ c. CodesKept c.single c.long.entries c.groups.items c.all.entries };
}

impl Codes {
    /// No code.
    pub(crate) fn new(alloc: Global) -> Self
        ensures { result ≡ [] }
    {
        Codes {
            alloc,
            single: [None; 128],
            long: BTreeMap::new(alloc),
            all: SteadyMap::new(alloc),
            groups: Vec::new(alloc),
        }
    }

    /// The line of the code, where it has exactly one and is found at once.
    pub(crate) fn single(&self, code: &[u8]) -> Option<u8>
        ensures { IfSome result (λ number. lines_of self.now code.now ≡ Some (number ∷ [])) }
    {
        match code {
            [byte] => match self.single.get(*byte as usize) {
                Some(line) => *line,
                None => None,
            },
            _ => None,
        }
    }

    /// The lines of the code, where it was declared.
    pub(crate) fn lines(&self, code: &[u8]) -> Option<&[u8]>
        ensures { option_map (λ lines. lines.now) result ≡ lines_of self.now code.now }
    {
        let key = key_of(&self.long, code)?;
        let place = self.all.get(key)?;
        Some(lines_at(self.groups.as_slice(), *place))
    }

    /// Adds a variable's code, and its line if it is one.
    pub(crate) fn declare(&mut self, code: &[u8], line: &[u8]) -> Result<(), AllocError>
        ensures { OnOk result (self.new ≡ with_code self.old code.now line.now) }
    {
        let key = key_for(&mut self.long, self.alloc, code)?;
        let before = self.all.get(key).copied().unwrap_or(0);
        let place = joined(&mut self.groups, self.alloc, before, line)?;
        self.all.insert(key, place)?;
        let only = only_of(lines_at(self.groups.as_slice(), place));
        set_single(&mut self.single, code, only);
        Ok(())
    }
}

/// The lines at a place.
fn lines_at(groups: &[Vec<u8>], place: usize) -> &[u8]
    ensures { result.now ≡ lines_at groups.now place }
{
    if place == 0 || groups.len() < place {
        return &[];
    }
    groups[place - 1].as_slice()
}

/// The place of the lines at a place and one more variable's.
fn joined(
    groups: &mut Vec<Vec<u8>>,
    alloc: Global,
    place: usize,
    line: &[u8],
) -> Result<usize, AllocError>
    requires { place ≤ length groups.old.items }
    ensures lines { IfOk result (λ new.
        lines_at groups.new.items new ≡ lines_at groups.old.items place ++ line.now) }
    ensures within { IfOk result (λ new. new ≤ length groups.new.items) }
    ensures kept { KeepsGroups groups.old.items groups.new.items }
{
    if line.is_empty() {
        return Ok(place);
    }
    let mut lines = copy_of(alloc, lines_at(groups.as_slice(), place))?;
    lines.extend_from_slice(line)?;
    groups.push(lines)?;
    Ok(groups.len())
}

/// A code as a number.
fn packed(code: &[u8]) -> u64
    requires { length code.now ≤ 7 }
    ensures { result ≡ packed code.now }
{
    let mut key: u64 = 1;
    let mut left = code.len();
    while 0 < left {
        left -= 1;
        key = u64::from(code[left]) + 256 * key;
    }
    key
}

/// The key of a code, where it was declared or may be.
fn key_of(long: &BTreeMap<Vec<u8>, u64>, code: &[u8]) -> Option<u64>
    ensures { result ≡ key_of long.now.entries code.now }
{
    if code.len() <= SHORT {
        return Some(packed(code));
    }
    long.get(code).copied()
}

/// The key of a code, which is put among the long ones if it is one.
fn key_for(long: &mut BTreeMap<Vec<u8>, u64>, alloc: Global, code: &[u8]) -> Result<u64, AllocError>
    requires { LongKept long.old.entries }
    ensures key { IfOk result (λ key. key_of long.new.entries code.now ≡ Some key) }
    ensures long { KeepsLong long.old.entries long.new.entries }
    ensures kept { LongKept long.new.entries }
{
    if let Some(key) = key_of(long, code) {
        return Ok(key);
    }
    let key = LONG + long.len() as u64;
    let word = copy_of(alloc, code)?;
    long.insert(word, key)?;
    Ok(key)
}

/// The same bytes.
fn copy_of(alloc: Global, bytes: &[u8]) -> Result<Vec<u8>, AllocError>
    ensures { IfOk result (λ copy. copy.items ≡ bytes.now) }
{
    let mut copy = Vec::new(alloc);
    copy.extend_from_slice(bytes)?;
    Ok(copy)
}

/// The line, where there is exactly one.
fn only_of(lines: &[u8]) -> Option<u8>
    ensures { result ≡ only_of lines.now }
{
    match lines {
        [number] => Some(*number),
        _ => None,
    }
}

/// Tells the line of a code of one byte, and of no other code.
fn set_single(single: &mut [Option<u8>; 128], code: &[u8], only: Option<u8>)
    ensures { single.new ≡ with_single single.old code.now only }
{
    if code.len() == 1 {
        let byte = code[0] as usize;
        if byte < 128 {
            single[byte] = only;
        }
    }
}

//! The bits of words that are declared bit by bit, so that those of one word are at hand.

ghost use Rattle.std.specs.Prelude.{◌≡◌, ◌++◌, [], ◌∷◌, ◌<◌, IfOk, IfSome, OnOk, if◌then◌else◌};
ghost use Rattle.scope_pick.specs.declared.split.Bit.{Bit as Declared};
ghost use Rattle.scope_pick.specs.Splits.{is_of_word, base_of, bit_in, is_joined, is_first_bit};
ghost use Rattle.scope_pick.specs.Words.{word_at, base_at, AreWords, AreBases};

use crate::split::{Bit, base_of, bit_in, is_first_bit};
use std::alloc::{AllocError, Global};
use std::collections::BTreeMap;
use std::marker::Model;

/// The bits of a header, with those of each word at hand. Contracts see their list.
#[derive(Drop)]
pub struct Words<'a> {
    bits: &'a [Bit],
    /// By the scope, the line, and whether the name is the line's own.
    words: BTreeMap<(usize, u8, bool), Vec<Bit>>,
    /// The number of each word's lowest bit, by the same.
    bases: BTreeMap<(usize, u8, bool), Option<u32>>,
}

impl<'a> Model for Words<'a> {
    ghost use Rattle.std.specs.Prelude.{List};
    ghost use Rattle.scope_pick.specs.declared.split.Bit.{Bit as Declared};
    ghost use Rattle.scope_pick.specs.Words.{AreBases, AreWords};

    ghost Value = { List Declared };

    ghost view = { λ words. words.bits.now };

    ghost invariant = { λ words.
        AreWords words.words words.bits.now × AreBases words.bases words.bits.now };
}

impl<'a> Words<'a> {
    /// What is at hand of these bits.
    pub fn new(alloc: Global, bits: &'a [Bit]) -> Result<Self, AllocError>
        ensures { IfOk result (λ words. words ≡ bits.now) }
    {
        let words = words_of(alloc, bits)?;
        let bases = bases_of(alloc, bits, &words)?;
        Ok(Words { bits, words, bases })
    }

    /// Whether the bit is the first of its word in the header.
    pub fn is_first_bit(&self, bit: Bit) -> bool
        ensures { result ≡ is_first_bit self.now bit }
    {
        is_first_bit(word_at(&self.words, bit), bit)
    }

    /// The first bit of this number of the same word.
    pub fn bit_in(&self, bit: Bit, number: u32) -> Option<Bit>
        ensures { result ≡ bit_in self.now bit number }
    {
        bit_in(word_at(&self.words, bit), bit, number)
    }

    /// The number of the word's lowest bit, where it has all of them: the table's, or else 0.
    pub fn base_of(&self, bit: Bit) -> Option<u32>
        requires { bit.line < 22 }
        ensures { result ≡ base_of self.now bit }
    {
        match base_at(&self.bases, bit) {
            Some(base) => base,
            None => base_in(&self.words, self.bits, bit),
        }
    }

    /// Whether the bit belongs to a word that has all its bits.
    #[tactic(auto, unfolding(crate::specs::Splits::is_joined))]
    pub fn is_joined(&self, bit: Bit) -> bool
        requires { bit.line < 22 }
        ensures { result ≡ is_joined self.now bit }
    {
        self.base_of(bit).is_some()
    }
}

// The bits of each word, in the order of the header.
fn words_of(
    alloc: Global,
    bits: &[Bit],
) -> Result<BTreeMap<(usize, u8, bool), Vec<Bit>>, AllocError>
    ensures { IfOk result (λ words. AreWords words bits.now) }
{
    let mut words = BTreeMap::new(alloc);
    for bit in bits {
        add(alloc, &mut words, *bit)?;
    }
    Ok(words)
}

// Puts the bit behind the others of its word.
fn add(
    alloc: Global,
    words: &mut BTreeMap<(usize, u8, bool), Vec<Bit>>,
    bit: Bit,
) -> Result<(), AllocError>
    ensures { OnOk result ((other : Declared) → word_at words.new other
        ≡ word_at words.old other ++ (if is_of_word other bit then bit ∷ [] else [])) }
{
    let mut word = take_out(alloc, words, bit);
    word.push(bit)?;
    words.insert((bit.scope, bit.line, bit.exact), word)?;
    Ok(())
}

// Takes the bits of the bit's word out.
fn take_out(alloc: Global, words: &mut BTreeMap<(usize, u8, bool), Vec<Bit>>, bit: Bit) -> Vec<Bit>
    ensures own { result.items ≡ word_at words.old bit }
    ensures others { (other : Declared) → word_at words.new other
        ≡ (if is_of_word other bit then [] else word_at words.old other) }
{
    match words.remove(&(bit.scope, bit.line, bit.exact)) {
        Some(word) => word,
        None => Vec::new(alloc),
    }
}

// The bits of the bit's word.
fn word_at(words: &BTreeMap<(usize, u8, bool), Vec<Bit>>, bit: Bit) -> &[Bit]
    ensures { result.now ≡ word_at words.now bit }
{
    match words.get(&(bit.scope, bit.line, bit.exact)) {
        Some(word) => word,
        None => &[],
    }
}

// The number of the lowest bit of each word.
fn bases_of(
    alloc: Global,
    bits: &[Bit],
    words: &BTreeMap<(usize, u8, bool), Vec<Bit>>,
) -> Result<BTreeMap<(usize, u8, bool), Option<u32>>, AllocError>
    requires { AreWords words.now bits.now }
    ensures { IfOk result (λ bases. AreBases bases bits.now) }
{
    let mut bases = BTreeMap::new(alloc);
    for bit in bits {
        keep_base(&mut bases, words, bits, *bit)?;
    }
    Ok(bases)
}

// Keeps the number for the bit's word, unless it is kept already.
fn keep_base(
    bases: &mut BTreeMap<(usize, u8, bool), Option<u32>>,
    words: &BTreeMap<(usize, u8, bool), Vec<Bit>>,
    bits: &[Bit],
    bit: Bit,
) -> Result<(), AllocError>
    requires words { AreWords words.now bits.now }
    requires bases { AreBases bases.old bits.now }
    ensures { OnOk result (AreBases bases.new bits.now) }
{
    if bit.line < 22 && base_at(bases, bit).is_none() {
        let base = base_in(words, bits, bit);
        bases.insert((bit.scope, bit.line, bit.exact), base)?;
    }
    Ok(())
}

// The number of the lowest bit of the bit's word, asked of its own bits.
fn base_in(words: &BTreeMap<(usize, u8, bool), Vec<Bit>>, bits: &[Bit], bit: Bit) -> Option<u32>
    requires words { AreWords words.now bits.now }
    requires line { bit.line < 22 }
    ensures { result ≡ base_of bits.now bit }
{
    let _bits = bits;
    base_of(word_at(words, bit), bit)
}

// What is kept of the number of the lowest bit of the bit's word.
fn base_at(bases: &BTreeMap<(usize, u8, bool), Option<u32>>, bit: Bit) -> Option<Option<u32>>
    ensures { result ≡ base_at bases.now bit }
{
    bases.get(&(bit.scope, bit.line, bit.exact)).copied()
}

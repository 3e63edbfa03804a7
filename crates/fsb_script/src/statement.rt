ghost use Rattle.std.specs.Prelude.{◌≡◌, ◌+◌, ◌≤◌, ◌^◌, ◌%◌, length, [], IfOk, IsTrue};
ghost use Rattle.fsb_access.specs.Access.{is_size, is_place, fits, number_of, is_lawful_access};
ghost use Rattle.fsb_script.specs.Parsing.{ReadsAs};
ghost use Rattle.fsb_script.specs.Bounds.{is_profile, is_lawful_window, is_lawful_hazard};
ghost use Rattle.fsb_script.specs.Statements.{keyword, size_at, aligned_at, load_of, is_added, literal_of, operand_of, store_of, idle_of, profile_of, window_of, bytes_from, bytes_of, memory_of, agent_of, count_of, delay_of, turn_of, transaction_of, block_of};

use crate::fault::Cause;
use crate::plan::Window;
use crate::word::{
    address, decimal_within, decimal_word, hex_digit, hex_of, hex_word, is_ended, next_word,
};
use arrayvec::ArrayVec;
use fsb_access::{ADDRESS_LIMIT, Access, LINE_BYTES, Operand, fits};
use fsb_hazard::HazardLine;

/// The last request or clock that a hazard may name.
const LAST: u64 = 199_999;

/// The most bytes that one line of memory settings has.
pub(crate) const BYTES: usize = 64;

/// What follows a first word, which has to be `name`.
#[tactic(auto, unfolding(crate::specs::Statements::keyword))]
pub(crate) fn keyword<'a>(name: &[u8], line: &'a [u8]) -> Result<&'a [u8], Cause>
    ensures { ReadsAs (λ x. x.now) result (keyword name.now line.now) }
{
    let (word, rest) = next_word(line)?;
    if word == name {
        Ok(rest)
    } else {
        Err(Cause::Word)
    }
}

#[tactic(auto, unfolding(crate::specs::Statements::size_at))]
fn size_at(line: &[u8]) -> Result<(u8, &[u8]), Cause>
    ensures value { ReadsAs (λ x. (x.0, x.1.now)) result (size_at line.now) }
    ensures size { IfOk result (λ x. IsTrue (is_size x.0)) }
{
    let (size, rest) = decimal_word(line)?;
    if size == 1 || size == 2 || size == 4 || size == 8 {
        Ok((size as u8, rest))
    } else {
        Err(Cause::Range)
    }
}

#[tactic(auto, unfolding(crate::specs::Statements::aligned_at))]
fn aligned_at(size: u8, line: &[u8]) -> Result<(u64, &[u8]), Cause>
    requires { IsTrue (is_size size) }
    ensures value { ReadsAs (λ x. (x.0, x.1.now)) result (aligned_at size line.now) }
    ensures place { IfOk result (λ x. IsTrue (is_place size x.0)) }
{
    let (addr, rest) = address(line)?;
    if addr % size as u64 == 0 {
        Ok((addr, rest))
    } else {
        Err(Cause::Align)
    }
}

/// The load behind `ld`.
#[tactic(auto, unfolding(crate::specs::Statements::load_of, crate::specs::TextWords::line_ended))]
pub(crate) fn load_of(line: &[u8]) -> Result<Access, Cause>
    ensures value { ReadsAs (λ x. x) result (load_of line.now) }
    ensures lawful { IfOk result (λ access. IsTrue (is_lawful_access access)) }
{
    let (size, rest) = size_at(line)?;
    let (addr, rest) = aligned_at(size, rest)?;
    if !is_ended(rest) {
        return Err(Cause::After);
    }
    Ok(Access::Load { size, addr })
}

fn is_added(word: &[u8]) -> bool
    ensures { result ≡ is_added word.now }
{
    word.len() >= 2 && word[0] == b'r' && word[1] == b'+'
}

#[tactic(auto, unfolding(crate::specs::Statements::literal_of))]
fn literal_of(size: u8, word: &[u8]) -> Result<u64, Cause>
    requires { IsTrue (is_size size) }
    ensures value { ReadsAs (λ n. n) result (literal_of size word.now) }
    ensures fits { IfOk result (λ n. IsTrue (fits size n)) }
{
    let number = hex_of(word)?;
    if fits(size, number) {
        Ok(number)
    } else {
        Err(Cause::Range)
    }
}

#[tactic(auto, unfolding(crate::specs::Statements::operand_of))]
fn operand_of(size: u8, word: &[u8]) -> Result<Operand, Cause>
    requires { IsTrue (is_size size) }
    ensures value { ReadsAs (λ x. x) result (operand_of size word.now) }
    ensures fits { IfOk result (λ x. IsTrue (fits size (number_of x))) }
{
    if is_added(word) {
        Ok(Operand::LastPlus(literal_of(size, &word[2..])?))
    } else {
        Ok(Operand::Literal(literal_of(size, word)?))
    }
}

/// The store behind `st`.
#[tactic(auto, unfolding(crate::specs::Statements::store_of, crate::specs::TextWords::line_ended))]
pub(crate) fn store_of(line: &[u8]) -> Result<Access, Cause>
    ensures value { ReadsAs (λ x. x) result (store_of line.now) }
    ensures lawful { IfOk result (λ access. IsTrue (is_lawful_access access)) }
{
    let (size, rest) = size_at(line)?;
    let (addr, rest) = aligned_at(size, rest)?;
    let (word, rest) = next_word(rest)?;
    let value = operand_of(size, word)?;
    if !is_ended(rest) {
        return Err(Cause::After);
    }
    Ok(Access::Store { size, addr, value })
}

/// The clocks behind `idle`.
#[tactic(auto, unfolding(crate::specs::Statements::idle_of, crate::specs::TextWords::line_ended))]
pub(crate) fn idle_of(line: &[u8]) -> Result<u32, Cause>
    ensures value { ReadsAs (λ x. x) result (idle_of line.now) }
    ensures least { IfOk result (λ x. 1 ≤ x) }
    ensures most { IfOk result (λ x. x ≤ 200000) }
{
    let (clocks, rest) = decimal_within(1, 200_000, line)?;
    if !is_ended(rest) {
        return Err(Cause::After);
    }
    Ok(clocks as u32)
}

/// The number behind `profile`.
#[tactic(auto, unfolding(crate::specs::Statements::profile_of, crate::specs::TextWords::line_ended))]
pub(crate) fn profile_of(line: &[u8]) -> Result<u8, Cause>
    ensures value { ReadsAs (λ x. x) result (profile_of line.now) }
    ensures lawful { IfOk result (λ x. IsTrue (is_profile x)) }
{
    let (profile, rest) = decimal_within(1, 2, line)?;
    if !is_ended(rest) {
        return Err(Cause::After);
    }
    Ok(profile as u8)
}

/// The window behind `bridge`.
#[tactic(auto, unfolding(crate::specs::Statements::window_of, crate::specs::TextWords::line_ended))]
pub(crate) fn window_of(line: &[u8]) -> Result<Window, Cause>
    ensures value { ReadsAs (λ x. x) result (window_of line.now) }
    ensures lawful { IfOk result (λ x. IsTrue (is_lawful_window x)) }
{
    let (base, rest) = address(line)?;
    if base % LINE_BYTES != 0 {
        return Err(Cause::Align);
    }
    let (size, rest) = hex_word(rest)?;
    if size > ADDRESS_LIMIT {
        return Err(Cause::Outside);
    }
    if size == 0 || size % LINE_BYTES != 0 {
        return Err(Cause::Align);
    }
    if base + size > ADDRESS_LIMIT {
        return Err(Cause::Outside);
    }
    if !is_ended(rest) {
        return Err(Cause::After);
    }
    Ok(Window { base, size })
}

fn byte_pairs(word: &[u8]) -> Result<ArrayVec<u8, BYTES>, Cause>
    requires most { length word.now ≤ 128 }
    requires even { length word.now % 2 ≡ 0 }
    ensures value { ReadsAs (λ x. x.items) result (bytes_from [] word.now) }
    ensures few { IfOk result (λ x. length x.items ≤ 64) }
{
    let mut bytes = ArrayVec::new();
    for i in 0..word.len() / 2 {
        let high = hex_digit(word[2 * i])?;
        let low = hex_digit(word[2 * i + 1])?;
        bytes.push(high * 16 + low);
    }
    Ok(bytes)
}

#[tactic(auto, unfolding(crate::specs::Statements::bytes_of))]
fn bytes_of(word: &[u8]) -> Result<ArrayVec<u8, BYTES>, Cause>
    ensures value { ReadsAs (λ x. x.items) result (bytes_of word.now) }
    ensures few { IfOk result (λ x. length x.items ≤ 64) }
{
    if 2 <= word.len() && word.len() <= 128 && word.len() % 2 == 0 {
        byte_pairs(word)
    } else {
        Err(Cause::Number)
    }
}

/// The address and the bytes behind `mem`.
#[tactic(auto, unfolding(crate::specs::Statements::memory_of, crate::specs::TextWords::line_ended))]
pub(crate) fn memory_of(line: &[u8]) -> Result<(u64, ArrayVec<u8, BYTES>), Cause>
    ensures value { ReadsAs (λ x. (x.0, x.1.items)) result (memory_of line.now) }
    ensures inside { IfOk result (λ x. x.0 + length x.1.items ≤ 2 ^ 36) }
{
    let (addr, rest) = address(line)?;
    let (word, rest) = next_word(rest)?;
    let bytes = bytes_of(word)?;
    if addr + bytes.len() as u64 > ADDRESS_LIMIT {
        return Err(Cause::Outside);
    }
    if !is_ended(rest) {
        return Err(Cause::After);
    }
    Ok((addr, bytes))
}

/// The number behind `agent`, which has to be `next`.
#[tactic(auto, unfolding(crate::specs::Statements::agent_of, crate::specs::TextWords::line_ended))]
pub(crate) fn agent_of(next: u64, line: &[u8]) -> Result<u64, Cause>
    ensures { ReadsAs (λ x. x) result (agent_of next line.now) }
{
    let (number, rest) = decimal_word(line)?;
    if number != next {
        return Err(Cause::Word);
    }
    if !is_ended(rest) {
        return Err(Cause::After);
    }
    Ok(number)
}

#[tactic(auto, unfolding(crate::specs::Statements::count_of, crate::specs::TextWords::line_ended))]
fn count_of(line: &[u8]) -> Result<u8, Cause>
    ensures value { ReadsAs (λ x. x) result (count_of line.now) }
    ensures some { IfOk result (λ x. 1 ≤ x) }
{
    let (count, rest) = decimal_within(1, 255, line)?;
    if !is_ended(rest) {
        return Err(Cause::After);
    }
    Ok(count as u8)
}

#[tactic(auto, unfolding(crate::specs::Statements::delay_of, crate::specs::TextWords::line_ended))]
fn delay_of(line: &[u8]) -> Result<u16, Cause>
    ensures { ReadsAs (λ x. x) result (delay_of line.now) }
{
    let (later, rest) = decimal_within(0, 65_535, line)?;
    if !is_ended(rest) {
        return Err(Cause::After);
    }
    Ok(later as u16)
}

#[tactic(auto, unfolding(crate::specs::Statements::turn_of, crate::specs::TextWords::line_ended))]
fn turn_of(k: u32, word: &[u8], line: &[u8]) -> Result<HazardLine, Cause>
    requires { k ≤ 199999 }
    ensures value { ReadsAs (λ x. x) result (turn_of k word.now line.now) }
    ensures lawful { IfOk result (λ x. IsTrue (is_lawful_hazard x)) }
{
    if word == b"stall".as_slice() {
        Ok(HazardLine::Stall(k, count_of(line)?))
    } else if word == b"trdy".as_slice() {
        Ok(HazardLine::Trdy(k, count_of(line)?))
    } else if word == b"resp".as_slice() {
        Ok(HazardLine::Resp(k, count_of(line)?))
    } else if word == b"data".as_slice() {
        Ok(HazardLine::Gap(k, count_of(line)?))
    } else if word == b"retry".as_slice() {
        if is_ended(line) {
            Ok(HazardLine::Retry(k))
        } else {
            Err(Cause::After)
        }
    } else if word == b"defer".as_slice() {
        Ok(HazardLine::Defer(k, delay_of(line)?))
    } else if word == b"aerr".as_slice() {
        if is_ended(line) {
            Ok(HazardLine::Aerr(k))
        } else {
            Err(Cause::After)
        }
    } else {
        Err(Cause::Word)
    }
}

/// The hazard behind `tx`.
#[tactic(auto, unfolding(crate::specs::Statements::transaction_of))]
pub(crate) fn transaction_of(line: &[u8]) -> Result<HazardLine, Cause>
    ensures value { ReadsAs (λ x. x) result (transaction_of line.now) }
    ensures lawful { IfOk result (λ x. IsTrue (is_lawful_hazard x)) }
{
    let (k, rest) = decimal_within(0, LAST, line)?;
    let (word, rest) = next_word(rest)?;
    turn_of(k as u32, word, rest)
}

/// The clocks behind `bnr`.
#[tactic(auto, unfolding(crate::specs::Statements::block_of, crate::specs::TextWords::line_ended))]
pub(crate) fn block_of(line: &[u8]) -> Result<HazardLine, Cause>
    ensures value { ReadsAs (λ x. x) result (block_of line.now) }
    ensures lawful { IfOk result (λ x. IsTrue (is_lawful_hazard x)) }
{
    let (from, rest) = decimal_within(0, LAST, line)?;
    let (to, rest) = decimal_within(0, LAST, rest)?;
    if to < from {
        return Err(Cause::Range);
    }
    if !is_ended(rest) {
        return Err(Cause::After);
    }
    Ok(HazardLine::Bnr(from as u32, to as u32))
}

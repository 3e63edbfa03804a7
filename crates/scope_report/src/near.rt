//! What looks like a line of the bus by its name, and is not named like one.

use crate::text::{put, put_line, put_number, put_path};
use scope_pick::{Variable, Written, line_named, without_escape};
use std::alloc::{AllocError, Global};
use std::collections::BTreeMap;

/// A variable that looks like a line, or a bit of it that does.
#[derive(Clone, Copy, Debug)]
pub(crate) struct Near {
    pub(crate) index: usize,
    pub(crate) line: u8,
    /// The bit, by its index in the range, where the variable has several.
    bit: Option<u32>,
    /// It is low where it is asserted, by its name.
    is_low: bool,
}

/// Other names that lines often have.
const OTHERS: [(&str, u8); 5] = [
    ("clk", 0),
    ("clock", 0),
    ("addr", 10),
    ("address", 10),
    ("data", 19),
];

/// Names of a vector of request lines, and whether such a one is low where it is asserted.
const REQUESTS: [(&str, bool); 5] = [
    ("breq", false),
    ("breq_n", true),
    ("breq_l", true),
    ("breq_b", true),
    ("breq#", true),
];

/// Of how many agents there are request lines.
const AGENTS: u32 = 4;

/// How many of the variables that look like one line are shown.
const SHOWN: usize = 4;

/// The variables that look like lines, in the order of the header.
pub(crate) fn near_lines(alloc: Global, variables: &[Variable]) -> Result<Vec<Near>, AllocError> {
    let mut near = Vec::new(alloc);
    for (index, variable) in variables.iter().enumerate() {
        add_near(&mut near, index, near_line(alloc, &variable.name)?)?;
        add_requests(&mut near, index, variable)?;
    }
    Ok(near)
}

/// Those of each scope, by its path.
pub(crate) fn near_by_scope<'a>(
    alloc: Global,
    variables: &'a [Variable],
    near: &[Near],
) -> Result<BTreeMap<&'a [u8], Vec<Near>>, AllocError> {
    let mut scopes = BTreeMap::new(alloc);
    for one in near {
        add_to_scope(alloc, &mut scopes, scope_of(variables, *one), *one)?;
    }
    Ok(scopes)
}

fn add_to_scope<'a>(
    alloc: Global,
    scopes: &mut BTreeMap<&'a [u8], Vec<Near>>,
    scope: &'a [u8],
    one: Near,
) -> Result<(), AllocError> {
    let mut near = match scopes.remove(scope) {
        Some(near) => near,
        None => Vec::new(alloc),
    };
    near.push(one)?;
    scopes.insert(scope, near)?;
    Ok(())
}

/// Those of the scope of this path.
pub(crate) fn near_in<'s>(scopes: &'s BTreeMap<&[u8], Vec<Near>>, scope: &[u8]) -> &'s [Near] {
    match scopes.get(scope) {
        Some(near) => near,
        None => &[],
    }
}

fn add_near(near: &mut Vec<Near>, index: usize, line: Option<u8>) -> Result<(), AllocError> {
    match line {
        None => {}
        Some(line) => near.push(Near {
            index,
            line,
            bit: None,
            // a name without `_n` is mostly that of a wire that is high when asserted
            is_low: line == 0,
        })?,
    }
    Ok(())
}

// The line that a name without its `_n` may stand for.
fn near_line(alloc: Global, name: &[u8]) -> Result<Option<u8>, AllocError> {
    if line_named(name).is_some() {
        return Ok(None);
    }
    match other_line(without_escape(name)) {
        Some(line) => Ok(Some(line)),
        None => longer_line(alloc, without_escape(name)),
    }
}

fn other_line(plain: &[u8]) -> Option<u8> {
    let place = OTHERS
        .iter()
        .position(|other| plain.eq_ignore_ascii_case(other.0.as_bytes()))?;
    Some(OTHERS[place].1)
}

fn longer_line(alloc: Global, plain: &[u8]) -> Result<Option<u8>, AllocError> {
    let mut longer = Vec::from_slice(alloc, plain)?;
    longer.extend_from_slice(b"_n")?;
    Ok(line_named(&longer))
}

// The bits of a variable that is named like the request lines together.
fn add_requests(near: &mut Vec<Near>, index: usize, variable: &Variable) -> Result<(), AllocError> {
    match low_requests(without_escape(&variable.name)) {
        None => Ok(()),
        Some(is_low) => add_bits(near, index, variable, is_low),
    }
}

fn low_requests(plain: &[u8]) -> Option<bool> {
    let place = REQUESTS
        .iter()
        .position(|request| plain.eq_ignore_ascii_case(request.0.as_bytes()))?;
    Some(REQUESTS[place].1)
}

fn add_bits(
    near: &mut Vec<Near>,
    index: usize,
    variable: &Variable,
    is_low: bool,
) -> Result<(), AllocError> {
    for bit in 0..AGENTS {
        if has_bit(variable, bit) {
            near.push(Near {
                index,
                line: bit as u8 + 1,
                bit: Some(bit),
                is_low,
            })?;
        }
    }
    Ok(())
}

fn has_bit(variable: &Variable, bit: u32) -> bool {
    match variable.range {
        Written::Absent => bit < variable.width,
        Written::Numbers(range) => {
            let (left, right) = (range.left, range.right);
            left.min(right) <= bit && bit <= left.max(right)
        }
        Written::Unreadable => false,
    }
}

/// Of each line those of the scope that has the most: four at most, and of variables with one code the first.
pub(crate) fn best_of(
    alloc: Global,
    variables: &[Variable],
    near: &[Near],
) -> Result<Vec<Near>, AllocError> {
    let counts = counts_of(alloc, variables, near)?;
    let mut best = Vec::new(alloc);
    for line in 0..22 {
        add_best(&mut best, variables, near, &counts, line)?;
    }
    Ok(best)
}

fn add_best(
    best: &mut Vec<Near>,
    variables: &[Variable],
    near: &[Near],
    counts: &[usize],
    line: u8,
) -> Result<(), AllocError> {
    let most = most_of(near, counts, line);
    for (one, count) in near.iter().zip(counts.iter()) {
        if one.line == line && *count == most && is_new(variables, best, *one) {
            best.push(*one)?;
        }
    }
    Ok(())
}

fn most_of(near: &[Near], counts: &[usize], line: u8) -> usize {
    let mut most = 0;
    for (one, count) in near.iter().zip(counts.iter()) {
        if one.line == line {
            most = most.max(*count);
        }
    }
    most
}

// Whether fewer than four of its line are shown, and none of this code.
fn is_new(variables: &[Variable], shown: &[Near], one: Near) -> bool {
    let mut count: usize = 0;
    for other in shown {
        if other.line == one.line {
            if code_of(variables, *other) == code_of(variables, one) {
                return false;
            }
            count = count.saturating_add(1);
        }
    }
    count < SHOWN
}

fn code_of<'a>(variables: &'a [Variable], near: Near) -> &'a [u8] {
    match variables.get(near.index) {
        None => &[],
        Some(variable) => &variable.code,
    }
}

// How many variables that look like lines stand beside each in its scope: those before and behind it, up to the next scope.
fn counts_of(
    alloc: Global,
    variables: &[Variable],
    near: &[Near],
) -> Result<Vec<usize>, AllocError> {
    let mut counts = Vec::new(alloc);
    let mut begin: usize = 0;
    for end in 1..near.len() + 1 {
        if is_last(variables, near, end) {
            fill(&mut counts, end, end.saturating_sub(begin))?;
            begin = end;
        }
    }
    Ok(counts)
}

// Whether the next one stands in another scope.
fn is_last(variables: &[Variable], near: &[Near], end: usize) -> bool {
    match (near.get(end.saturating_sub(1)), near.get(end)) {
        (Some(one), Some(next)) => scope_of(variables, *one) != scope_of(variables, *next),
        _ => true,
    }
}

fn scope_of<'a>(variables: &'a [Variable], near: Near) -> &'a [u8] {
    match variables.get(near.index) {
        None => &[],
        Some(variable) => &variable.scope,
    }
}

// Lengthens the list to `end` by this number.
fn fill(counts: &mut Vec<usize>, end: usize, number: usize) -> Result<(), AllocError> {
    for _ in counts.len()..end {
        counts.push(number)?;
    }
    Ok(())
}

/// Appends an option that may be the right one, in a line of its own.
pub(crate) fn put_hint(
    text: &mut Vec<u8>,
    near: Near,
    variable: &Variable,
) -> Result<(), AllocError> {
    put(text, "  perhaps: --line ")?;
    put_line(text, near.line)?;
    put(text, if near.is_low { "=" } else { "=!" })?;
    put_path(text, variable)?;
    put_bit(text, near.bit)?;
    put(text, "\n")
}

fn put_bit(text: &mut Vec<u8>, bit: Option<u32>) -> Result<(), AllocError> {
    match bit {
        None => Ok(()),
        Some(bit) => {
            put(text, "[")?;
            put_number(text, u64::from(bit))?;
            put(text, "]")
        }
    }
}

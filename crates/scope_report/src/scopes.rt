//! What a scope has of the bus, and what lacks.

use crate::near::{Near, best_of, near_by_scope, near_in, near_lines, put_hint};
use crate::text::{put, put_line, put_listed, put_number, put_path, put_scope, put_shape};
use scope_pick::{
    Named, Variable, ambiguous_lines, found_in, group_at, groups_of, is_line_needed, is_listed,
    line_named, named_lines, other_names, unfit_lines, unfound_lines, without_escape,
};
use scope_wiring::found_count;
use std::alloc::{AllocError, Global};
use std::collections::BTreeMap;

/// The lines by their numbers.
const LINES: [u8; 22] = [
    0, 1, 2, 3, 4, 5, 6, 7, 8, 9, 10, 11, 12, 13, 14, 15, 16, 17, 18, 19, 20, 21,
];

/// The variables of a header, and how they are named.
#[derive(Drop)]
pub(crate) struct Heading<'a> {
    pub(crate) alloc: Global,
    pub(crate) variables: &'a [Variable],
    pub(crate) names: Vec<Named>,
    /// The names by their scopes.
    groups: BTreeMap<usize, Vec<Named>>,
    /// Those that are named like lines and cannot be them, by their scopes.
    unfit: BTreeMap<usize, Vec<Named>>,
    near: Vec<Near>,
    /// Those that look like lines, by the paths of their scopes.
    near_scopes: BTreeMap<&'a [u8], Vec<Near>>,
}

impl<'a> Heading<'a> {
    /// How these variables are named.
    pub(crate) fn new(alloc: Global, variables: &'a [Variable]) -> Result<Self, AllocError> {
        let names = named_lines(alloc, variables)?;
        let unfit = unfit_lines(alloc, variables)?;
        let near = near_lines(alloc, variables)?;
        Ok(Heading {
            alloc,
            variables,
            groups: groups_of(alloc, &names)?,
            names,
            unfit: groups_of(alloc, &unfit)?,
            near_scopes: near_by_scope(alloc, variables, &near)?,
            near,
        })
    }

    /// The variables of a scope that are named like lines.
    pub(crate) fn named_in(&self, scope: usize) -> &[Named] {
        group_at(&self.groups, scope)
    }

    /// Appends how many needed lines a scope has.
    pub(crate) fn put_counts(&self, text: &mut Vec<u8>, scope: usize) -> Result<(), AllocError> {
        put_scope(text, self.variables, scope)?;
        put_share(
            text,
            found_count(self.named_in(scope), &[], scope),
            needed_count(),
        )?;
        put(text, " needed lines\n")
    }

    /// Appends the lines that a scope has.
    pub(crate) fn put_found(&self, text: &mut Vec<u8>, scope: usize) -> Result<(), AllocError> {
        for line in &LINES {
            self.put_found_line(text, *line, found_in(self.named_in(scope), scope, *line))?;
        }
        Ok(())
    }

    fn put_found_line(
        &self,
        text: &mut Vec<u8>,
        line: u8,
        found: Option<Named>,
    ) -> Result<(), AllocError> {
        match found {
            None => Ok(()),
            Some(name) => self.put_taken(text, line, name),
        }
    }

    fn put_taken(&self, text: &mut Vec<u8>, line: u8, name: Named) -> Result<(), AllocError> {
        put(text, "  ")?;
        put_line(text, line)?;
        put(text, " = ")?;
        self.put_named(text, name)?;
        put(text, "\n")
    }

    fn put_named(&self, text: &mut Vec<u8>, name: Named) -> Result<(), AllocError> {
        match self.variables.get(name.index) {
            None => Ok(()),
            Some(variable) => put_known(text, variable, name.is_split),
        }
    }

    /// Appends the lines that a scope has not and need not have.
    pub(crate) fn put_absent(&self, text: &mut Vec<u8>, scope: usize) -> Result<(), AllocError> {
        let lacking = self.lacking(&[], scope, false)?;
        put_listed(text, "  not there:", &lacking, "\n")
    }

    /// Appends what lacks of a scope, but for the settled lines: the needed lines that are not found, those that several
    /// variables may be, and the variables that look like them.
    pub(crate) fn put_gaps(
        &self,
        text: &mut Vec<u8>,
        settled: &[u8],
        scope: usize,
    ) -> Result<(), AllocError> {
        let lacking = self.lacking(settled, scope, true)?;
        put_listed(text, "  missing:", &lacking, "\n")?;
        self.put_ambiguous(text, settled, scope)?;
        self.put_unfit(text, settled, scope)?;
        self.put_near_of(text, scope, &lacking)
    }

    /// Appends the needed lines that are not settled, if some are, and the variables that look like a line that is not
    /// settled: of each line those of the scope with the most of them.
    pub(crate) fn put_all_near(
        &self,
        text: &mut Vec<u8>,
        settled: &[u8],
    ) -> Result<(), AllocError> {
        if !settled.is_empty() {
            put_listed(text, "  missing:", &unsettled(self.alloc, settled)?, "\n")?;
        }
        for near in &best_of(self.alloc, self.variables, &self.near)? {
            self.put_near_one(text, *near, !is_listed(settled, near.line))?;
        }
        Ok(())
    }

    // The lines that are not found in a scope and are not ambiguous: those that are needed, or the others.
    fn lacking(&self, settled: &[u8], scope: usize, needed: bool) -> Result<Vec<u8>, AllocError> {
        let unfound = unfound_lines(self.alloc, self.named_in(scope), settled, scope)?;
        let unclear = ambiguous_lines(self.alloc, self.named_in(scope), settled, scope)?;
        lacking_among(self.alloc, &unfound, &unclear, needed)
    }

    // The lines that several variables of a scope may be.
    fn put_ambiguous(
        &self,
        text: &mut Vec<u8>,
        settled: &[u8],
        scope: usize,
    ) -> Result<(), AllocError> {
        let unclear = ambiguous_lines(self.alloc, self.named_in(scope), settled, scope)?;
        for line in &unclear {
            self.put_rivals(text, scope, *line)?;
        }
        Ok(())
    }

    fn put_rivals(&self, text: &mut Vec<u8>, scope: usize, line: u8) -> Result<(), AllocError> {
        put(text, "  ambiguous: ")?;
        put_line(text, line)?;
        put(text, " may be")?;
        self.put_each_rival(text, scope, line)?;
        put(text, "\n")
    }

    fn put_each_rival(&self, text: &mut Vec<u8>, scope: usize, line: u8) -> Result<(), AllocError> {
        for name in self.named_in(scope) {
            self.put_rival(text, *name, is_of(*name, scope, line))?;
        }
        Ok(())
    }

    fn put_rival(&self, text: &mut Vec<u8>, name: Named, is_one: bool) -> Result<(), AllocError> {
        if is_one {
            put(text, " ")?;
            self.put_named(text, name)
        } else {
            Ok(())
        }
    }

    // The variables of a scope that are named like lines and cannot be them.
    fn put_unfit(
        &self,
        text: &mut Vec<u8>,
        settled: &[u8],
        scope: usize,
    ) -> Result<(), AllocError> {
        let mut last = None;
        for name in group_at(&self.unfit, scope) {
            // of a word in single bits the first one stands for all
            let is_told = name.is_split && last == Some(name.line);
            last = Some(name.line);
            self.put_unfit_one(text, *name, !is_listed(settled, name.line) && !is_told)?;
        }
        Ok(())
    }

    fn put_unfit_one(
        &self,
        text: &mut Vec<u8>,
        name: Named,
        is_one: bool,
    ) -> Result<(), AllocError> {
        if is_one {
            self.put_unfit_row(text, name)
        } else {
            Ok(())
        }
    }

    fn put_unfit_row(&self, text: &mut Vec<u8>, name: Named) -> Result<(), AllocError> {
        put(text, "  ")?;
        self.put_named(text, name)?;
        put(text, " is named like ")?;
        put_line(text, name.line)?;
        put(text, ", and cannot be it\n")
    }

    // The variables of a scope that look like these lines.
    fn put_near_of(
        &self,
        text: &mut Vec<u8>,
        scope: usize,
        lines: &[u8],
    ) -> Result<(), AllocError> {
        for line in lines {
            self.put_near(text, scope, *line)?;
        }
        Ok(())
    }

    fn put_near(&self, text: &mut Vec<u8>, scope: usize, line: u8) -> Result<(), AllocError> {
        for near in near_in(&self.near_scopes, self.scope_path(scope)) {
            self.put_near_one(text, *near, near.line == line)?;
        }
        Ok(())
    }

    fn put_near_one(&self, text: &mut Vec<u8>, near: Near, is_one: bool) -> Result<(), AllocError> {
        match self.variables.get(near.index) {
            Some(variable) if is_one => put_hint(text, near, variable),
            _ => Ok(()),
        }
    }

    fn scope_path(&self, index: usize) -> &[u8] {
        match self.variables.get(index) {
            None => &[],
            Some(variable) => &variable.scope,
        }
    }

    /// Appends the other variables of a scope that are named like the lines that were taken from it.
    pub(crate) fn put_others(
        &self,
        text: &mut Vec<u8>,
        settled: &[u8],
        scope: usize,
    ) -> Result<(), AllocError> {
        for line in &LINES {
            self.put_passed(
                text,
                found_in(self.named_in(scope), scope, *line),
                is_listed(settled, *line),
            )?;
        }
        Ok(())
    }

    // The variables of other wires that are named like the line of this one.
    fn put_passed(
        &self,
        text: &mut Vec<u8>,
        taken: Option<Named>,
        is_settled: bool,
    ) -> Result<(), AllocError> {
        match taken {
            Some(taken) if !is_settled => self.put_rest(text, taken),
            _ => Ok(()),
        }
    }

    fn put_rest(&self, text: &mut Vec<u8>, taken: Named) -> Result<(), AllocError> {
        let others = other_names(self.alloc, self.named_in(taken.scope), taken)?;
        for other in &others {
            self.put_other(text, taken, *other)?;
        }
        Ok(())
    }

    fn put_other(&self, text: &mut Vec<u8>, taken: Named, other: Named) -> Result<(), AllocError> {
        if other.wire == taken.wire {
            Ok(())
        } else {
            self.put_other_row(text, taken, other)
        }
    }

    fn put_other_row(
        &self,
        text: &mut Vec<u8>,
        taken: Named,
        other: Named,
    ) -> Result<(), AllocError> {
        put(text, "  ")?;
        put_line(text, taken.line)?;
        put(text, " is ")?;
        self.put_named(text, taken)?;
        put(text, ", and not ")?;
        self.put_named(text, other)?;
        put(text, "\n")
    }
}

fn put_share(text: &mut Vec<u8>, found: usize, needed: usize) -> Result<(), AllocError> {
    if found == needed {
        put(text, ": all ")?;
    } else {
        put(text, ": ")?;
        put_number(text, found as u64)?;
        put(text, " of ")?;
    }
    put_number(text, needed as u64)
}

fn put_known(text: &mut Vec<u8>, variable: &Variable, is_split: bool) -> Result<(), AllocError> {
    put_shape(text, variable)?;
    put(text, others(is_split))
}

fn others(is_split: bool) -> &'static str {
    if is_split { " and its other bits" } else { "" }
}

fn is_of(name: Named, scope: usize, line: u8) -> bool {
    name.scope == scope && name.line == line
}

fn lacking_among(
    alloc: Global,
    unfound: &[u8],
    unclear: &[u8],
    needed: bool,
) -> Result<Vec<u8>, AllocError> {
    unfound
        .iter()
        .copied()
        .filter(|line| is_needed(*line) == needed && !is_listed(unclear, *line))
        .collect(alloc)
}

pub(crate) fn is_needed(line: u8) -> bool {
    line < 22 && is_line_needed(line)
}

// The needed lines that are not settled.
fn unsettled(alloc: Global, settled: &[u8]) -> Result<Vec<u8>, AllocError> {
    LINES
        .iter()
        .copied()
        .filter(|line| is_needed(*line) && !is_listed(settled, *line))
        .collect(alloc)
}

fn needed_count() -> usize {
    LINES.iter().filter(|line| is_needed(**line)).count()
}

//! What a header declares, as it is told.
ghost use Rattle.std.specs.Prelude.{◌≡◌, map, IfOk};
ghost use Rattle.vcd_header.specs.Told.{words_told, section_told, sections_told, declarations_told};
ghost use Rattle.scope_way.specs.Variables.{shown_by, shown_from};

use scope_pick::Variable;
use scope_way::variable_of;
use std::alloc::{AllocError, Global};
use vcd_header::{Declared, Section, copy_of};

/// The variables that are declared.
pub(crate) fn variables_of(
    alloc: Global,
    declared: &[Declared],
) -> Result<Vec<Variable>, AllocError>
    ensures { IfOk result (λ v.
        map shown_by v.items ≡ map shown_from (declarations_told declared.now)) }
{
    let mut variables = Vec::new(alloc);
    let mut rest = declared;
    while let Some((one, more)) = rest.split_first() {
        let variable = variable_of(
            alloc,
            &one.path,
            &one.kind,
            one.width,
            &one.code,
            &one.reference,
            &one.after,
        )?;
        variables.push(variable)?;
        rest = more;
    }
    Ok(variables)
}

/// The same sections.
pub(crate) fn sections_of(alloc: Global, sections: &[Section]) -> Result<Vec<Section>, AllocError>
    ensures { IfOk result (λ v. sections_told v.items ≡ sections_told sections.now) }
{
    let mut copies = Vec::new(alloc);
    let mut rest = sections;
    while let Some((section, more)) = rest.split_first() {
        let copy = section_of(alloc, section)?;
        copies.push(copy)?;
        rest = more;
    }
    Ok(copies)
}

/// The same section.
fn section_of(alloc: Global, section: &Section) -> Result<Section, AllocError>
    ensures { IfOk result (λ s. section_told s ≡ section_told section.now) }
{
    let keyword = copy_of(alloc, &section.keyword)?;
    let words = words_of(alloc, &section.words)?;
    Ok(Section {
        place: section.place,
        keyword,
        words,
    })
}

/// The same words.
fn words_of(alloc: Global, words: &[Vec<u8>]) -> Result<Vec<Vec<u8>>, AllocError>
    ensures { IfOk result (λ copies. words_told copies.items ≡ words_told words.now) }
{
    let mut copies = Vec::new(alloc);
    let mut rest = words;
    while let Some((word, more)) = rest.split_first() {
        let copy = copy_of(alloc, word)?;
        copies.push(copy)?;
        rest = more;
    }
    Ok(copies)
}

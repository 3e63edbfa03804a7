ghost use Rattle.std.specs.Prelude.{◌≡◌, ◌≤◌, ℕ, true, false, is_some, None, Some, List, drop, length, IfOk, OnOk, option_map, if◌then◌else◌};
ghost use Rattle.vcd_grammar.specs.Words.{header_word, Declares};
ghost use Rattle.vcd_way.specs.Declarations.{Declaration, declaration_of, declaration_with, word_of_section};
ghost use Rattle.vcd_way.specs.Ways.{ValueRules};
ghost use Rattle.vcd_way.specs.Steps.{AtHeader, InSection, first_state, if_short, moves_to, breaks, header_step, section_at, section_step, section_end, section_kept, path_after, is_declaring, step};
ghost use Rattle.vcd_header.specs.Told.{state_told, section_told, words_told, declaration_told, is_over};
ghost use Rattle.vcd_header.specs.Gathering.{gathering, FitsRules};

use crate::copies::{copies_of, copy_of};
use crate::declared::{Declared, Section};
use crate::number::number_up_to;
use crate::rules::HeaderRules;
use crate::words::{is_code_word, is_dollar, is_end, is_long};
use std::alloc::{AllocError, Global};
use std::mem;
use vcd_grammar::{VcdCause, VcdFault};

/// Where the next token stands.
#[derive(Clone, Copy, Debug, PartialEq, Eq)]
pub(crate) enum Stage {
    /// Before the first `$`.
    Preface,
    /// Between the sections of the header.
    Between,
    /// In one of them.
    Inside,
    /// After the header.
    Over,
}

/// What the tokens so far have said.
#[derive(Drop)]
pub(crate) struct Gathered {
    pub(crate) alloc: Global,
    pub(crate) rules: HeaderRules,
    pub(crate) fault: Option<VcdFault>,
    pub(crate) stage: Stage,
    /// The section that stands open, where one does.
    pub(crate) section: Section,
    /// The scopes that are open, the outermost first.
    pub(crate) path: Vec<Vec<u8>>,
    pub(crate) declared: Vec<Declared>,
    /// The sections that declare nothing.
    pub(crate) remarks: Vec<Section>,
}

impl Gathered {
    /// Before the first token.
    pub(crate) fn new(alloc: Global, rules: HeaderRules) -> Self
        ensures rules { result.rules ≡ rules }
        ensures fault { result.fault ≡ None }
        ensures state { (m : ValueRules) → FitsRules m rules →
            state_told result ≡ first_state (gathering m) }
    {
        Gathered {
            alloc,
            rules,
            fault: None,
            stage: first_stage(rules.skips_preface),
            section: Section::new(alloc),
            path: Vec::new(alloc),
            declared: Vec::new(alloc),
            remarks: Vec::new(alloc),
        }
    }

    fn fail(&mut self, place: u64, cause: VcdCause)
        ensures state { state_told self.new ≡ (breaks (state_told self.old) place cause).state }
        ensures rules { self.new.rules ≡ self.old.rules }
    {
        self.fault = Some(VcdFault { place, cause });
    }

    /// A token at a place of the header, where there was no fault before it.
    pub(crate) fn take(&mut self, place: u64, word: &[u8]) -> Result<(), AllocError>
        requires fault { self.old.fault ≡ None }
        requires open { is_over self.old.stage ≡ false }
        ensures state { (m : ValueRules) → FitsRules m self.old.rules →
            OnOk result (state_told self.new
            ≡ (step (gathering m) (state_told self.old) (record { place = place; word = word.now })).state) }
        ensures rules { self.new.rules ≡ self.old.rules }
        ensures apart { OnOk result
            (is_some self.new.fault ≡ true → is_over self.new.stage ≡ false) }
    {
        self.take_there(place, word)
    }

    /// The same, by the place where the token stands.
    fn take_there(&mut self, place: u64, word: &[u8]) -> Result<(), AllocError>
        requires fault { self.old.fault ≡ None }
        requires open { is_over self.old.stage ≡ false }
        ensures state { (m : ValueRules) → FitsRules m self.old.rules →
            OnOk result (state_told self.new
            ≡ (step (gathering m) (state_told self.old) (record { place = place; word = word.now })).state) }
        ensures rules { self.new.rules ≡ self.old.rules }
    {
        match self.stage {
            Stage::Preface => {
                if is_dollar(word) {
                    return self.between(place, word);
                }
                Ok(())
            }
            Stage::Between => self.between(place, word),
            Stage::Inside => self.inside(place, word),
            Stage::Over => Ok(()),
        }
    }

    /// A token between the sections, or the first with a `$`.
    #[tactic(auto, unfolding(vcd_grammar::specs::Words::header_word))]
    fn between(&mut self, place: u64, word: &[u8]) -> Result<(), AllocError>
        ensures state { OnOk result (state_told self.new
            ≡ (if_short (state_told self.old) (record { place = place; word = word.now })
            (header_step (state_told self.old) (record { place = place; word = word.now })
            (header_word word.now))).state) }
        ensures rules { self.new.rules ≡ self.old.rules }
    {
        if is_long(word) {
            self.fail(place, VcdCause::Token);
            return Ok(());
        }
        if b"$var".as_slice() == word {
            return self.open(place, word);
        }
        if b"$enddefinitions".as_slice() == word {
            return self.open(place, word);
        }
        if is_end(word) {
            self.stage = Stage::Between;
            return Ok(());
        }
        if is_dollar(word) {
            return self.open(place, word);
        }
        self.fail(place, VcdCause::Header);
        Ok(())
    }

    /// The first word of a section.
    fn open(&mut self, place: u64, word: &[u8]) -> Result<(), AllocError>
        ensures state { OnOk result (state_told self.new
            ≡ (moves_to (state_told self.old)
            (InSection (section_at (record { place = place; word = word.now })))).state) }
        ensures rules { self.new.rules ≡ self.old.rules }
    {
        let keyword = copy_of(self.alloc, word)?;
        self.section = Section {
            place,
            keyword,
            words: Vec::new(self.alloc),
        };
        self.stage = Stage::Inside;
        Ok(())
    }

    /// A token in a section.
    fn inside(&mut self, place: u64, word: &[u8]) -> Result<(), AllocError>
        requires inside { self.old.stage ≡ Stage.Inside }
        ensures state { (m : ValueRules) → FitsRules m self.old.rules →
            OnOk result (state_told self.new
            ≡ (section_step (gathering m) (state_told self.old) (section_told self.old.section)
            (record { place = place; word = word.now })).state) }
        ensures rules { self.new.rules ≡ self.old.rules }
    {
        if is_long(word) && self.is_declaring() {
            self.fail(place, VcdCause::Token);
            return Ok(());
        }
        if is_end(word) {
            return self.end_section();
        }
        self.section.add(self.alloc, word)
    }

    /// Whether the section that stands open declares a variable.
    fn is_declaring(&self) -> bool
        ensures { result ≡ is_declaring (header_word self.now.section.keyword.items) }
    {
        b"$var".as_slice() == self.section.keyword.as_slice()
    }

    /// The `$end` of a section.
    fn end_section(&mut self) -> Result<(), AllocError>
        ensures state { (m : ValueRules) → FitsRules m self.old.rules →
            OnOk result (state_told self.new
            ≡ (section_end (gathering m) (state_told self.old) (section_told self.old.section)
            (header_word self.old.section.keyword.items)).state) }
        ensures rules { self.new.rules ≡ self.old.rules }
    {
        if self.is_declaring() {
            return self.declare();
        }
        if b"$enddefinitions".as_slice() == self.section.keyword.as_slice() {
            self.stage = Stage::Over;
            return Ok(());
        }
        self.keep_section()
    }

    /// The `$end` of a declaration.
    fn declare(&mut self) -> Result<(), AllocError>
        ensures state { (m : ValueRules) → FitsRules m self.old.rules →
            OnOk result (state_told self.new
            ≡ (section_end (gathering m) (state_told self.old) (section_told self.old.section)
            Declares).state) }
        ensures rules { self.new.rules ≡ self.old.rules }
    {
        let declared = self.declared()?;
        self.stage = Stage::Between;
        match declared {
            Some(declared) => self.declared.push(declared)?,
            None => self.fail(self.section.place, VcdCause::Header),
        }
        Ok(())
    }

    /// The declaration that the section is, where it is one.
    fn declared(&self) -> Result<Option<Declared>, AllocError>
        ensures { IfOk result (λ d. option_map declaration_told d
            ≡ declaration_of self.now.rules.widest (words_told self.now.path.items)
            (section_told self.now.section)) }
    {
        match number_up_to(self.rules.widest, self.section.word(1)) {
            None => Ok(None),
            Some(width) => self.with_width(width),
        }
    }

    /// The declaration of this width that the section is, where it is one.
    fn with_width(&self, width: u64) -> Result<Option<Declared>, AllocError>
        ensures { IfOk result (λ d. option_map declaration_told d
            ≡ declaration_with (words_told self.now.path.items) (section_told self.now.section)
            (Some width)) }
    {
        if self.section.words.len() < 4 {
            return Ok(None);
        }
        if !is_code_word(self.section.word(2)) {
            return Ok(None);
        }
        let declared = self.declared_with(width)?;
        Ok(Some(declared))
    }

    /// The declaration of this width that the section is.
    fn declared_with(&self, width: u64) -> Result<Declared, AllocError>
        requires { 4 ≤ length self.now.section.words.items }
        ensures { IfOk result (λ d. declaration_told d ≡ record {
          place = self.now.section.place;
          kind = word_of_section (section_told self.now.section) 0;
          width = width;
          code = word_of_section (section_told self.now.section) 2;
          reference = word_of_section (section_told self.now.section) 3;
          after = drop 4 (words_told self.now.section.words.items);
          path = words_told self.now.path.items;
        }) }
    {
        let kind = copy_of(self.alloc, self.section.word(0))?;
        let code = copy_of(self.alloc, self.section.word(2))?;
        let reference = copy_of(self.alloc, self.section.word(3))?;
        let after = copies_of(self.alloc, &self.section.words.as_slice()[4..])?;
        let path = copies_of(self.alloc, self.path.as_slice())?;
        Ok(Declared {
            place: self.section.place,
            kind,
            width,
            code,
            reference,
            after,
            path,
        })
    }

    /// The `$end` of a section that declares nothing.
    fn keep_section(&mut self) -> Result<(), AllocError>
        ensures state { OnOk result (state_told self.new
            ≡ (moves_to (section_kept (state_told self.old) (section_told self.old.section)) AtHeader).state) }
        ensures rules { self.new.rules ≡ self.old.rules }
    {
        self.move_path()?;
        let fresh = Section::new(self.alloc);
        let section = mem::replace(&mut self.section, fresh);
        self.remarks.push(section)?;
        self.stage = Stage::Between;
        Ok(())
    }

    /// The scopes that are open after the section.
    fn move_path(&mut self) -> Result<(), AllocError>
        ensures path { OnOk result (words_told self.new.path.items
            ≡ path_after (words_told self.old.path.items) (section_told self.old.section)) }
        ensures rest { self.new ≡ record self.old { path = self.new.path } }
    {
        if b"$scope".as_slice() == self.section.keyword.as_slice() {
            let name = copy_of(self.alloc, self.section.word(1))?;
            self.path.push(name)?;
            return Ok(());
        }
        if b"$upscope".as_slice() == self.section.keyword.as_slice() {
            let _innermost = self.path.pop();
        }
        Ok(())
    }

    /// Whether the header is over.
    pub(crate) fn is_over(&self) -> bool
        ensures { result ≡ is_over self.now.stage }
    {
        match self.stage {
            Stage::Over => true,
            Stage::Preface | Stage::Between | Stage::Inside => false,
        }
    }
}

/// Where the first token stands.
fn first_stage(skips_preface: bool) -> Stage
    ensures { result ≡ (if skips_preface then Stage.Preface else Stage.Between) }
{
    if skips_preface {
        Stage::Preface
    } else {
        Stage::Between
    }
}

//! A session is read line by line.
ghost use Rattle.std.specs.Prelude.{◌≡◌, ◌<◌, ◌≤◌, ◌+◌, ◌^◌, ◌++◌, [], ◌∷◌, None, Some, map, length, OnOk, IfOk, IfErr, IsOkUnless};
ghost use Rattle.gl_base.specs.Words.{span, words_at};
ghost use Rattle.gl_script.specs.Columns.{columns};
ghost use Rattle.gl_script.specs.Meaning.{line_in, said_in, current_in};
ghost use Rattle.gl_script.specs.Reading.{Follows, before_in};
ghost use Rattle.gl_script.specs.Said.{said_of};
ghost use Rattle.gl_script.specs.Sentence.{nothing, is_out_of_order, actor_count, names_current, is_used, actor_fault, header_fault, in_section_fault, section_fault, counted_fault, line_fault, behind, behind_counted, behind_head, sections_in, version_of};

use crate::faults::{byte_fault, more_fault, size_fault, spot, text_at};
use crate::forms::meets;
use crate::heads::{
    actors_among, is_actor, is_after, is_comment, is_one_named, kind_of, version_of,
};
use crate::limits::ACTORS_MAX;
use crate::refusal::{RefusalKind, Spot};
use crate::rows::statement_said;
use crate::said::Said;
use crate::section::{Section, SectionKind, Statement};
use crate::table::{Form, keyword_in};
use crate::version::Version;
use gl_base::{Errno, Found, next_word};
use std::alloc::Global;

/// Why a line is not taken in.
#[derive(Clone, Copy)]
pub enum Stop {
    /// Its first fault.
    Fault(Spot),
    /// Memory is wanted.
    NoMemory,
}

/// What was read of a session so far.
#[derive(Drop)]
pub struct Reading<'a> {
    /// What the header said, once it was read.
    pub(crate) version: Option<Version>,
    pub(crate) complete: Vec<Section<'a>>,
    pub(crate) current: Option<Section<'a>>,
}

impl<'a> Reading<'a> {
    /// Nothing was read.
    pub fn new(alloc: Global) -> Reading<'a>
        ensures { before_in result ≡ nothing }
    {
        Reading {
            version: None,
            complete: Vec::new(alloc),
            current: None,
        }
    }

    fn head_fault(&self, kind: SectionKind, first: &Found<'_>) -> Option<Spot>
        requires word { first.now.at + length first.now.word.now < 2 ^ 32 }
        requires rest { first.now.rest_at + length first.now.rest.now + 1 < 2 ^ 32 }
        ensures { result ≡ section_fault (Some kind) (before_in self.now) (span first.now.at first.now.word.now) (words_at first.now.rest_at first.now.rest.now) }
    {
        if self.is_out_of_order(kind) {
            return Some(spot(first.at, RefusalKind::Section));
        }
        match kind {
            SectionKind::Setup | SectionKind::After => more_fault(first.rest_at, first.rest),
            SectionKind::Actor => {
                if self.actor_count() >= ACTORS_MAX {
                    return Some(spot(first.at, RefusalKind::Limit));
                }
                self.actor_fault(first.at + first.word.len(), first.rest_at, first.rest)
            }
        }
    }

    fn is_out_of_order(&self, kind: SectionKind) -> bool
        ensures { result ≡ is_out_of_order kind (current_in self.now.current) }
    {
        match &self.current {
            None => false,
            Some(section) => match kind {
                SectionKind::Setup => true,
                SectionKind::Actor | SectionKind::After => is_after(section.kind),
            },
        }
    }

    fn actor_fault(&self, end: usize, at: usize, line: &[u8]) -> Option<Spot>
        requires end { end < 2 ^ 32 }
        requires long { at + length line.now + 1 < 2 ^ 32 }
        ensures { result ≡ actor_fault (before_in self.now) end (words_at at line.now) }
    {
        let Some(name) = next_word(at, line) else {
            return Some(spot(end, RefusalKind::Words));
        };
        if !meets(Form::FileName, name.word) {
            return Some(spot(name.at, RefusalKind::Word));
        }
        if self.is_used(name.word) {
            return Some(spot(name.at, RefusalKind::Name));
        }
        more_fault(name.rest_at, name.rest)
    }

    fn is_used(&self, name: &[u8]) -> bool
        ensures { result ≡ is_used name.now (before_in self.now) }
    {
        is_one_named(&self.complete, name) || self.names_current(name)
    }

    fn names_current(&self, name: &[u8]) -> bool
        ensures { result ≡ names_current name.now (current_in self.now.current) }
    {
        match &self.current {
            Some(section) => section.name == name,
            None => false,
        }
    }

    fn actor_count(&self) -> usize
        ensures { result ≡ actor_count (before_in self.now) }
    {
        let complete = actors_among(&self.complete);
        match &self.current {
            Some(section) => {
                if is_actor(section.kind) {
                    return complete + 1;
                }
                complete
            }
            None => complete,
        }
    }
}

impl<'a> Reading<'a> {
    /// Takes a line in, unless it has a fault.
    pub fn read(&mut self, alloc: Global, at: usize, line: &'a [u8]) -> Result<(), Stop>
        requires { length line.now + 2 < 2 ^ 32 }
        ensures read { Follows (line_fault (before_in self.old) line.now) (behind (before_in self.old) (span at line.now)) (before_in self.new) result }
        ensures few { OnOk result (length (sections_in (before_in self.new)) ≤ length (sections_in (before_in self.old)) + 1) }
    {
        if let Some(fault) = byte_fault(1, line) {
            return Err(Stop::Fault(fault));
        }
        if let Some(fault) = size_fault(1, line) {
            return Err(Stop::Fault(fault));
        }
        match next_word(1, line) {
            Some(first) => {
                if is_comment(first.word) {
                    return Ok(());
                }
                self.count(alloc, at, line, &first)
            }
            None => Ok(()),
        }
    }

    /// Takes a line in that counts.
    fn count(
        &mut self,
        alloc: Global,
        at: usize,
        line: &'a [u8],
        first: &Found<'a>,
    ) -> Result<(), Stop>
        requires word { first.now.at + length first.now.word.now < 2 ^ 32 }
        requires rest { first.now.rest_at + length first.now.rest.now + 1 < 2 ^ 32 }
        requires line { columns line.now ≡ span first.now.at first.now.word.now ∷ words_at first.now.rest_at first.now.rest.now }
        ensures read { Follows (counted_fault (before_in self.old) (columns line.now)) (behind_counted (before_in self.old) (span at line.now) (columns line.now)) (before_in self.new) result }
        ensures few { OnOk result (length (sections_in (before_in self.new)) ≤ length (sections_in (before_in self.old)) + 1) }
    {
        let Some(version) = self.version else {
            return self.head(first);
        };
        match kind_of(first.word) {
            Some(kind) => self.begin(alloc, kind, first),
            None => self.add(version, at, line, first),
        }
    }

    /// Takes the header in.
    fn head(&mut self, first: &Found<'a>) -> Result<(), Stop>
        requires word { first.now.at + length first.now.word.now < 2 ^ 32 }
        requires rest { first.now.rest_at + length first.now.rest.now + 1 < 2 ^ 32 }
        ensures read { Follows (header_fault (version_of (span first.now.at first.now.word.now ∷ words_at first.now.rest_at first.now.rest.now)) (span first.now.at first.now.word.now)) (record { version = version_of (span first.now.at first.now.word.now ∷ words_at first.now.rest_at first.now.rest.now); complete = (before_in self.old).complete; current = (before_in self.old).current }) (before_in self.new) result }
    {
        match version_of(first) {
            Some(version) => {
                self.version = Some(version);
                Ok(())
            }
            None => Err(Stop::Fault(spot(first.at, RefusalKind::Header))),
        }
    }

    /// Takes the head of a section in.
    fn begin(&mut self, alloc: Global, kind: SectionKind, first: &Found<'a>) -> Result<(), Stop>
        requires word { first.now.at + length first.now.word.now < 2 ^ 32 }
        requires rest { first.now.rest_at + length first.now.rest.now + 1 < 2 ^ 32 }
        ensures read { Follows (section_fault (Some kind) (before_in self.old) (span first.now.at first.now.word.now) (words_at first.now.rest_at first.now.rest.now)) (behind_head (Some kind) (before_in self.old) (span first.now.at first.now.word.now) (words_at first.now.rest_at first.now.rest.now)) (before_in self.new) result }
    {
        if let Some(fault) = self.head_fault(kind, first) {
            return Err(Stop::Fault(fault));
        }
        match self.open(alloc, kind, text_at(0, first.rest_at, first.rest)) {
            Ok(()) => Ok(()),
            Err(_) => Err(Stop::NoMemory),
        }
    }

    /// Begins a section.
    fn open(&mut self, alloc: Global, kind: SectionKind, name: &'a [u8]) -> Result<(), Errno>
        ensures ok { OnOk result (before_in self.new ≡ record { version = self.old.version; complete = sections_in (before_in self.old); current = Some (record { kind = kind; name = name.now; statements = [] }) }) }
    {
        if let Some(section) = self.current.take() {
            self.complete.push(section)?;
        }
        self.current = Some(Section {
            kind,
            name,
            statements: Vec::new(alloc),
        });
        Ok(())
    }

    /// Adds the statement of a line to the section.
    fn add(
        &mut self,
        version: Version,
        at: usize,
        line: &'a [u8],
        first: &Found<'a>,
    ) -> Result<(), Stop>
        requires word { first.now.at + length first.now.word.now < 2 ^ 32 }
        requires rest { first.now.rest_at + length first.now.rest.now + 1 < 2 ^ 32 }
        requires line { columns line.now ≡ span first.now.at first.now.word.now ∷ words_at first.now.rest_at first.now.rest.now }
        ensures read { Follows (in_section_fault (Some version) (before_in self.old).current (span first.now.at first.now.word.now) (words_at first.now.rest_at first.now.rest.now)) (behind_head None (before_in self.old) (span at line.now) (words_at first.now.rest_at first.now.rest.now)) (before_in self.new) result }
    {
        match &mut self.current {
            Some(section) => {
                let keyword = keyword_in(version, first.word);
                match statement_said(version, keyword, first) {
                    Ok(said) => push_statement(&mut section.statements, at, line, &said),
                    Err(fault) => Err(Stop::Fault(fault)),
                }
            }
            None => Err(Stop::Fault(spot(first.at, RefusalKind::Section))),
        }
    }
}

/// Adds the statement of a line, which says this, to those of a section.
fn push_statement<'a>(
    statements: &mut Vec<Statement<'a>>,
    at: usize,
    line: &'a [u8],
    said: &Said,
) -> Result<(), Stop>
    requires { said_of (columns line.now) ≡ Some said.now }
    ensures added { OnOk result (map line_in statements.new.items ≡ map line_in statements.old.items ++ span at line.now ∷ []) }
    ensures memory_alone { IfErr result (λ stop. stop ≡ Stop.NoMemory) }
{
    match statements.push(Statement::of(at, line, *said)) {
        Ok(()) => Ok(()),
        Err(_) => Err(Stop::NoMemory),
    }
}

impl<'a> Reading<'a> {
    /// All sections.
    pub fn finish(self) -> Result<Vec<Section<'a>>, Errno>
        ensures ok { IfOk result (λ sections. map said_in sections.items ≡ sections_in (before_in self.entry)) }
        ensures memory_alone { IsOkUnless result Errno.NoMemory }
    {
        let mut sections = self.complete;
        if let Some(section) = self.current {
            sections.push(section)?;
        }
        Ok(sections)
    }
}

//! A session that was read.
ghost use Rattle.std.specs.Prelude.{◌≡◌, ◌<◌, ◌^◌, length, map};
ghost use Rattle.gl_script.specs.Cost.{session_cost};
ghost use Rattle.gl_script.specs.Meaning.{said_in};

use crate::cost::{cost_within_limit, has_aggregate};
use crate::heads::{head_of, refusal, whole_refusal};
use crate::limits::SESSION_MAX;
use crate::reading::{Reading, Stop};
use crate::refusal::{Refusal, RefusalKind};
use crate::section::{Head, Section, Statement};
use gl_base::split_first;
use std::alloc::Global;

/// The sections of a session, and their cost.
#[derive(Drop)]
pub struct Script<'a> {
    sections: Vec<Section<'a>>,
    cost: u64,
    ghost few: { length sections.items < 2 ^ 32 },
    ghost whole: { cost ≡ session_cost (map said_in sections.items) },
}

impl<'a> Script<'a> {
    ghost use Rattle.std.specs.Prelude.{◌≢◌, ◌⊎◌, ◌+◌, ◌≤◌, None, Some, option_map, slice_get, IfSome, IfOk, IfErr, MatchOption};
    ghost use Rattle.gl_script.specs.Columns.{columns};
    ghost use Rattle.gl_script.specs.Cost.{has_aggregate};
    ghost use Rattle.gl_script.specs.Meaning.{line_in, head_in};
    ghost use Rattle.gl_script.specs.Said.{said_of};
    ghost use Rattle.gl_script.specs.Script.{sections_of};
    ghost use Rattle.gl_script.specs.Section.{head_at, statement_at, statements_of};
    ghost use Rattle.gl_script.specs.Sentence.{Sentence, first_fault};

    /// The session that bytes say. Words and names are stretches of these bytes. Where they are no session, the first
    /// fault is named; want of memory is named as such, and says nothing of the bytes.
    pub fn parse(alloc: Global, bytes: &'a [u8]) -> Result<Script<'a>, Refusal>
        ensures ok { IfOk result (λ script. Sentence bytes.now (sections_of script)) }
        ensures refused { IfErr result (λ refusal. refusal.kind ≢ RefusalKind.NoMemory → first_fault bytes.now ≡ Some refusal) }
        ensures no_memory { IfErr result (λ refusal. (refusal ≡ record { line = 0; column = 0; kind = RefusalKind.NoMemory }) ⊎ (first_fault bytes.now ≡ Some refusal)) }
    {
        if bytes.len() > SESSION_MAX {
            return Err(whole_refusal(RefusalKind::TooLong));
        }
        let mut reading = Reading::new(alloc);
        let mut number = 1;
        let mut at = 0;
        let mut rest = Some(bytes);
        while let Some(text) = rest {
            let (line, after) = split_first(text, b'\n');
            match reading.read(alloc, at, line) {
                Ok(()) => {}
                Err(Stop::Fault(fault)) => return Err(refusal(number, fault.column, fault.kind)),
                Err(Stop::NoMemory) => return Err(whole_refusal(RefusalKind::NoMemory)),
            }
            number += 1;
            at += line.len() + 1;
            rest = after;
        }
        if reading.version.is_none() {
            return Err(refusal(1, 1, RefusalKind::Header));
        }
        let sections = match reading.finish() {
            Ok(sections) => sections,
            Err(_) => return Err(whole_refusal(RefusalKind::NoMemory)),
        };
        match cost_within_limit(&sections) {
            Some(cost) => Ok(Script { sections, cost }),
            None => Err(whole_refusal(RefusalKind::Cost)),
        }
    }

    /// How many sections there are.
    pub fn sections(&self) -> u32
        ensures { result ≡ length (sections_of self.now) }
    {
        self.sections.len() as u32
    }

    /// The head of the section of a number, counted from 0; None exactly past the last section.
    pub fn head(&self, section: u32) -> Option<Head<'a>>
        ensures { option_map head_in result ≡ head_at section (sections_of self.now) }
    {
        let section = self.sections.get(section as usize)?;
        Some(head_of(section.kind, section.name))
    }

    /// A statement of a section, both counted from 0; None exactly past the last section and its last statement. It says what its
    /// words say.
    pub fn statement(&self, section: u32, i: u32) -> Option<Statement<'a>>
        ensures line { option_map line_in result ≡ statement_at section i (sections_of self.now) }
        ensures read { IfSome result (λ s. said_of (columns s.line.now) ≡ Some s.said) }
    {
        let section = self.sections.get(section as usize)?;
        section.statements.get(i as usize).copied()
    }

    /// The statements of the section of a number, counted from 0; None exactly past the last section.
    pub fn statements(&self, section: u32) -> Option<&[Statement<'_>]>
        ensures { MatchOption result (slice_get (sections_of self.now) section ≡ None) (λ statements. (section < length (sections_of self.now)) × (map line_in statements.now ≡ statements_of section (sections_of self.now))) }
    {
        match self.sections.get(section as usize) {
            Some(section) => Some(&section.statements),
            None => None,
        }
    }

    /// Whether one of its sections has an `aggregate`.
    pub fn has_aggregate(&self) -> bool
        ensures { result ≡ has_aggregate (sections_of self.now) }
    {
        has_aggregate(&self.sections)
    }

    /// What the session costs: how many entries of a history it may make at most.
    pub fn cost(&self) -> u64
        ensures { result ≡ session_cost (sections_of self.now) }
    {
        self.cost
    }
}

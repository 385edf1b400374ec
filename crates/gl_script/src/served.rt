//! The lines of a session that is answered line by line.
ghost use Rattle.std.specs.Prelude.{◌≡◌, ◌<◌, ◌+◌, ◌^◌, ◌∷◌, length, IfOk};
ghost use Rattle.gl_base.specs.Words.{span, words_at};
ghost use Rattle.gl_script.specs.Columns.{columns};
ghost use Rattle.gl_script.specs.Served.{IsSaid, headed_kind, kind_in, kinds, line_kind, open_kind, opened, opening_kind, stage_after, words_kind};
ghost use Rattle.gl_script.specs.Sentence.{kind_of, version_of};

use crate::faults::{byte_fault, more_fault, size_fault, spot};
use crate::heads::{is_comment, kind_of, version_of};
use crate::refusal::{RefusalKind, Spot};
use crate::rows::statement_said;
use crate::said::Said;
use crate::section::SectionKind;
use crate::table::keyword_in;
use crate::version::Version;
use gl_base::{Found, next_word};

/// How far such a session has come.
#[derive(Clone, Copy, PartialEq, Eq)]
pub enum Stage {
    /// The header is still to come: `session 1`, `session 2` or `session 3`.
    Opening,
    /// `setup` is still to come, in a session of this version.
    Headed(Version),
    /// Statements come, in a session of this version.
    Open(Version),
}

/// What a line is.
#[derive(Clone, Copy)]
pub enum LineKind {
    /// It is passed over.
    Passed,
    /// The header, which says a version.
    Header(Version),
    /// `setup`.
    Setup,
    /// A statement, which says this.
    Statement(Said),
}

impl LineKind {
    /// The stage after a line of this kind.
    pub fn stage_after(self, stage: Stage) -> Stage
        ensures { result ≡ stage_after stage (kind_in self) }
    {
        match &self {
            LineKind::Header(version) => Stage::Headed(*version),
            LineKind::Setup => opened(stage),
            LineKind::Passed | LineKind::Statement(_) => stage,
        }
    }
}

/// The stage after `setup`.
fn opened(stage: Stage) -> Stage
    ensures { result ≡ opened stage }
{
    match stage {
        Stage::Opening => Stage::Opening,
        Stage::Headed(version) | Stage::Open(version) => Stage::Open(version),
    }
}

/// What a line is at a stage, or its first fault. Of a line that is a statement it gives what its words say (`Statement::of` takes it).
pub fn line_kind(stage: Stage, line: &[u8]) -> Result<LineKind, Spot>
    requires { length line.now + 2 < 2 ^ 32 }
    ensures kind { kinds result ≡ line_kind stage line.now }
    ensures said { IfOk result (λ kind. IsSaid (columns line.now) kind) }
{
    if let Some(fault) = byte_fault(1, line) {
        return Err(fault);
    }
    if let Some(fault) = size_fault(1, line) {
        return Err(fault);
    }
    match next_word(1, line) {
        Some(first) => counted_kind(stage, &first),
        None => Ok(LineKind::Passed),
    }
}

/// What a line with words is.
fn counted_kind(stage: Stage, first: &Found<'_>) -> Result<LineKind, Spot>
    requires word { first.now.at + length first.now.word.now < 2 ^ 32 }
    requires rest { first.now.rest_at + length first.now.rest.now + 1 < 2 ^ 32 }
    ensures kind { kinds result ≡ words_kind stage (span first.now.at first.now.word.now ∷ words_at first.now.rest_at first.now.rest.now) }
    ensures said { IfOk result (λ kind. IsSaid (span first.now.at first.now.word.now ∷ words_at first.now.rest_at first.now.rest.now) kind) }
{
    if is_comment(first.word) {
        return Ok(LineKind::Passed);
    }
    match stage {
        Stage::Opening => opening_kind(first),
        Stage::Headed(_) => setup_kind(first),
        Stage::Open(version) => open_kind(version, first),
    }
}

/// What the first line that counts is.
fn opening_kind(first: &Found<'_>) -> Result<LineKind, Spot>
    requires word { first.now.at + length first.now.word.now < 2 ^ 32 }
    requires rest { first.now.rest_at + length first.now.rest.now + 1 < 2 ^ 32 }
    ensures kind { kinds result ≡ opening_kind (version_of (span first.now.at first.now.word.now ∷ words_at first.now.rest_at first.now.rest.now)) (span first.now.at first.now.word.now) }
    ensures said { IfOk result (λ kind. IsSaid (span first.now.at first.now.word.now ∷ words_at first.now.rest_at first.now.rest.now) kind) }
{
    match version_of(first) {
        Some(version) => Ok(LineKind::Header(version)),
        None => Err(spot(first.at, RefusalKind::Header)),
    }
}

/// What a line before the statements is.
fn setup_kind(first: &Found<'_>) -> Result<LineKind, Spot>
    requires word { first.now.at + length first.now.word.now < 2 ^ 32 }
    requires rest { first.now.rest_at + length first.now.rest.now + 1 < 2 ^ 32 }
    ensures kind { kinds result ≡ headed_kind (kind_of first.now.word.now) (span first.now.at first.now.word.now) (words_at first.now.rest_at first.now.rest.now) }
    ensures said { IfOk result (λ kind. IsSaid (span first.now.at first.now.word.now ∷ words_at first.now.rest_at first.now.rest.now) kind) }
{
    match kind_of(first.word) {
        Some(SectionKind::Setup) => match more_fault(first.rest_at, first.rest) {
            Some(fault) => Err(fault),
            None => Ok(LineKind::Setup),
        },
        Some(SectionKind::Actor | SectionKind::After) | None => {
            Err(spot(first.at, RefusalKind::Section))
        }
    }
}

/// What a line among the statements is.
fn open_kind(version: Version, first: &Found<'_>) -> Result<LineKind, Spot>
    requires word { first.now.at + length first.now.word.now < 2 ^ 32 }
    requires rest { first.now.rest_at + length first.now.rest.now + 1 < 2 ^ 32 }
    ensures kind { kinds result ≡ open_kind version (kind_of first.now.word.now) (span first.now.at first.now.word.now) (words_at first.now.rest_at first.now.rest.now) }
    ensures said { IfOk result (λ kind. IsSaid (span first.now.at first.now.word.now ∷ words_at first.now.rest_at first.now.rest.now) kind) }
{
    match kind_of(first.word) {
        Some(_) => Err(spot(first.at, RefusalKind::Section)),
        None => {
            match statement_said(version, keyword_in(version, first.word), first) {
                Ok(said) => Ok(LineKind::Statement(said)),
                Err(fault) => Err(fault),
            }
        }
    }
}

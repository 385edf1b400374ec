//! The lines that begin a session and its sections.
ghost use Rattle.std.specs.Prelude.{◌≡◌, ◌<◌, ◌≤◌, ◌+◌, ◌^◌, ◌∷◌, map, length, count_by};
ghost use Rattle.std.specs.List.{list_any};
ghost use Rattle.gl_base.specs.Words.{span, words_at};
ghost use Rattle.gl_script.specs.Meaning.{said_in, head_in};
ghost use Rattle.gl_script.specs.Section.{titled};
ghost use Rattle.gl_script.specs.Sentence.{is_comment, kind_of, is_actor, is_after, is_named, version_of, version_said};

use crate::forms::is_text;
use crate::refusal::{Refusal, RefusalKind};
use crate::section::{Head, Section, SectionKind};
use crate::version::Version;
use gl_base::{Found, next_word};

/// Whether one of the sections has a name.
pub fn is_one_named(sections: &[Section<'_>], name: &[u8]) -> bool
    ensures { result ≡ list_any (is_named name.now) (map said_in sections.now) }
{
    for section in sections {
        if section.name == name {
            return true;
        }
    }
    false
}

/// How many of the sections are actors.
pub fn actors_among(sections: &[Section<'_>]) -> usize
    ensures count { result ≡ count_by (λ section. is_actor section.kind) (map said_in sections.now) }
    ensures few { result ≤ length sections.now }
{
    let mut count = 0;
    for section in sections {
        if is_actor(section.kind) {
            count += 1;
        }
    }
    count
}

/// Whether a section is an actor.
pub fn is_actor(kind: SectionKind) -> bool
    ensures { result ≡ is_actor kind }
{
    match kind {
        SectionKind::Actor => true,
        SectionKind::Setup | SectionKind::After => false,
    }
}

/// Whether a section is the last one.
pub fn is_after(kind: SectionKind) -> bool
    ensures { result ≡ is_after kind }
{
    match kind {
        SectionKind::After => true,
        SectionKind::Setup | SectionKind::Actor => false,
    }
}

/// Whether a line that begins with a word is passed over.
pub fn is_comment(word: &[u8]) -> bool
    ensures { result ≡ is_comment word.now }
{
    match word {
        [first, ..] => *first == b'#',
        [] => false,
    }
}

/// The kind of section that a word begins, if it begins one.
pub fn kind_of(word: &[u8]) -> Option<SectionKind>
    ensures { result ≡ kind_of word.now }
{
    if is_text(word, b"setup") {
        return Some(SectionKind::Setup);
    }
    if is_text(word, b"actor") {
        return Some(SectionKind::Actor);
    }
    if is_text(word, b"after") {
        return Some(SectionKind::After);
    }
    None
}

/// The version that a line says, if it is `session 1`, `session 2` or `session 3`.
pub fn version_of(first: &Found<'_>) -> Option<Version>
    requires { first.now.rest_at + length first.now.rest.now + 1 < 2 ^ 64 }
    ensures { result ≡ version_of (span first.now.at first.now.word.now ∷ words_at first.now.rest_at first.now.rest.now) }
{
    let Some(version) = next_word(first.rest_at, first.rest) else {
        return None;
    };
    if next_word(version.rest_at, version.rest).is_none() && is_text(first.word, b"session") {
        return version_said(version.word);
    }
    None
}

/// The version that the second word of a header says, if it says one.
fn version_said(word: &[u8]) -> Option<Version>
    ensures { result ≡ version_said word.now }
{
    if is_text(word, b"1") {
        return Some(Version::One);
    }
    if is_text(word, b"2") {
        return Some(Version::Two);
    }
    if is_text(word, b"3") {
        return Some(Version::Three);
    }
    None
}

/// The head of a section; the name is an actor's.
pub fn head_of<'a>(kind: SectionKind, name: &'a [u8]) -> Head<'a>
    ensures { head_in result ≡ titled kind name.now }
{
    match kind {
        SectionKind::Setup => Head::Setup,
        SectionKind::Actor => Head::Actor(name),
        SectionKind::After => Head::After,
    }
}

/// A fault of a line.
pub fn refusal(line: u32, column: u32, kind: RefusalKind) -> Refusal
    ensures { result ≡ record { line = line; column = column; kind = kind } }
{
    Refusal { line, column, kind }
}

/// A fault of the whole text, or want of memory.
pub fn whole_refusal(kind: RefusalKind) -> Refusal
    ensures { result ≡ record { line = 0; column = 0; kind = kind } }
{
    refusal(0, 0, kind)
}

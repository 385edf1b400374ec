//! Sections and their statements, as stretches of the source.
ghost use Rattle.std.specs.Prelude.{◌≡◌, ◌<◌, ◌≤◌, Some, length, MatchOption};
ghost use Rattle.std.specs.Coded.{Coded-set, coded_option};
ghost use Rattle.gl_script.specs.Columns.{columns};
ghost use Rattle.gl_script.specs.Said.{said_of};

use crate::said::Said;
use gl_base::nth_word;

/// The kind of a section.
#[derive(Clone, Copy, PartialEq, Eq)]
pub enum SectionKind {
    /// `setup`, which comes first.
    Setup,
    /// `actor NAME`.
    Actor,
    /// `after`, which comes last.
    After,
}

/// The head of a section.
#[derive(Clone, Copy)]
pub enum Head<'a> {
    /// `setup`.
    Setup,
    /// `actor NAME`, with the name as it stands in the source.
    Actor(&'a [u8]),
    /// `after`.
    After,
}

/// A statement: the line of the source that it stands in, and what its words say, which were read once.
#[derive(Clone, Copy)]
pub struct Statement<'a> {
    pub(crate) at: usize,
    pub(crate) line: &'a [u8],
    pub(crate) said: Said,
    pub ghost read: { said_of (columns line.now) ≡ Some said } by { Coded-set (coded_option said-code) (said_of (columns line.now)) (Some said) },
}

/// A section: its kind, an actor's name, and its statements.
#[derive(Drop)]
pub struct Section<'a> {
    pub(crate) kind: SectionKind,
    pub(crate) name: &'a [u8],
    pub(crate) statements: Vec<Statement<'a>>,
}

impl<'a> Statement<'a> {
    ghost use Rattle.gl_base.specs.Words.{span, text_at};
    ghost use Rattle.gl_script.specs.Formed.{AreFormed};
    ghost use Rattle.gl_script.specs.Meaning.{line_in};
    ghost use Rattle.gl_script.specs.Said.{Spells};

    /// The statement of a line, which begins at a place in the source, and what its words say. (`line_kind` reads it.)
    pub fn of(at: usize, line: &'a [u8], said: Said) -> Statement<'a>
        requires { said_of (columns line.now) ≡ Some said }
        ensures { line_in result ≡ span at line.now }
    {
        Statement { at, line, said }
    }

    /// Where its line begins in the source, in bytes counted from 0.
    pub fn at(&self) -> usize
        ensures { result ≡ self.now.at }
    {
        self.at
    }

    /// Its line, as it stands in the source.
    pub fn line(&self) -> &'a [u8]
        ensures { result.now ≡ self.now.line.now }
    {
        self.line
    }

    /// What its words say. Those that stand for themselves are there, and of their forms.
    pub fn said(&self) -> Said
        ensures read { said_of (columns self.now.line.now) ≡ Some result }
        ensures spelled { Spells (columns self.now.line.now) result }
        ensures formed { AreFormed result (columns self.now.line.now) }
    {
        self.said
    }

    /// Its word of the number `i`, counted from 0, as it stands in the source; None exactly past the last word.
    pub fn word(&self, i: u32) -> Option<&'a [u8]>
        ensures { MatchOption result (length (columns self.now.line.now) ≤ i) (λ word. (i < length (columns self.now.line.now)) × (word.now ≡ text_at i (columns self.now.line.now))) }
    {
        nth_word(i, 1, self.line)
    }
}

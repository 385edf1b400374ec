//! Why a text is no session.
ghost use Rattle.std.specs.Prelude.{◌≡◌};

/// What is at fault in a text that is no session. The kinds are this project's choice.
#[derive(Clone, Copy, PartialEq, Eq)]
pub enum RefusalKind {
    /// The text has more than 1,048,576 bytes.
    TooLong,
    /// A byte isn't printable.
    Byte,
    /// The first line that counts is none of `session 1`, `session 2` and `session 3`.
    Header,
    /// A section stands out of order, or a statement before the first section.
    Section,
    /// A line begins with a word that is neither a section's nor a statement's of the session's version.
    Statement,
    /// A word is missing, or is one too many.
    Words,
    /// A word isn't of its form.
    Word,
    /// An actor has the name of another.
    Name,
    /// A word is too long, or one of the 129th on; an actor is the 17th; a statement has more than 1024 bytes.
    Limit,
    /// The session costs more than 300,000 entries.
    Cost,
    /// Memory is wanted. This says nothing of the text.
    NoMemory,
}

impl RefusalKind {
    ghost use Rattle.gl_script.specs.Refusal.{kind_word};

    /// The word that stands for the kind in what a refused session prints.
    pub fn word(self) -> &'static str
        ensures { result.now ≡ kind_word self }
    {
        match self {
            RefusalKind::TooLong => "too-long",
            RefusalKind::Byte => "byte",
            RefusalKind::Header => "header",
            RefusalKind::Section => "section",
            RefusalKind::Statement => "statement",
            RefusalKind::Words => "words",
            RefusalKind::Word => "word",
            RefusalKind::Name => "name",
            RefusalKind::Limit => "limit",
            RefusalKind::Cost => "cost",
            RefusalKind::NoMemory => "memory",
        }
    }
}

/// A fault of a line: its column and what is at fault.
#[derive(Clone, Copy, PartialEq, Eq)]
pub struct Spot {
    /// The column, in bytes counted from 1.
    pub column: u32,
    /// What is at fault.
    pub kind: RefusalKind,
}

/// The first fault of a text. Line and column are 0 where the whole text is at fault, and where memory is wanted.
#[derive(Clone, Copy, PartialEq, Eq)]
pub struct Refusal {
    /// The line, counted from 1.
    pub line: u32,
    /// The column, in bytes counted from 1.
    pub column: u32,
    /// What is at fault.
    pub kind: RefusalKind,
}

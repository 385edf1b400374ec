//! What makes the definitions of a session trustworthy.
ghost use Rattle.std.specs.Prelude.{◌≡◌, ◌≤◌, ℕ, false, List};
ghost use Rattle.gl_script.specs.Blame.{FaultsAreOfTheText};
ghost use Rattle.gl_script.specs.Cost.{has_aggregate};
ghost use Rattle.gl_script.specs.Formed.{StatementsAreFormed};
ghost use Rattle.gl_script.specs.Gen.{IsSession, load_text};
ghost use Rattle.gl_script.specs.Said.{SaidIsSpelled, StatementsAreSaid, VersionsAreSaid};
ghost use Rattle.gl_script.specs.Section.{SaidSection};
ghost use Rattle.gl_script.specs.Sentence.{Sentence};
ghost use Rattle.gl_script.specs.ServedLines.{AcceptedLinesHaveNoFault, AcceptedTextsAreSessions, RefusedLinesHaveTheirFault};
ghost use Rattle.gl_script.specs.Spelled.{Spelled};
ghost use Rattle.gl_script.specs.Table.{StatementsHaveTheirWords};

use crate::limits::{
    ACTORS_MAX, JOINED_MAX, PIECES_MAX, SESSION_MAX, TURNS_MAX, WORD_MAX, WORDS_MAX,
};

/// Bytes say one list of sections at most.
pub fn sentence_is_single()
    ensures { (bytes : List ℕ) (some others : List SaidSection) → Sentence bytes some → Sentence bytes others → some ≡ others }
{}

/// The lines of a sentence that count are its header, and for each section its head and its statements.
pub fn sentences_are_spelled()
    ensures { (bytes : List ℕ) (sections : List SaidSection) → Sentence bytes sections → Spelled bytes sections }
{}

/// Bytes that are spelled as sections are a sentence with these sections.
pub fn spelled_are_sentences()
    ensures { (bytes : List ℕ) (sections : List SaidSection) → Spelled bytes sections → Sentence bytes sections }
{}

/// The first fault of bytes is never want of memory.
pub fn faults_are_of_the_text()
    ensures { FaultsAreOfTheText }
{}

/// Each load from 1 to 5000 is a session, and what it costs is within the limit.
pub fn loads_are_sessions()
    ensures { (n : ℕ) → 1 ≤ n → n ≤ TURNS_MAX → IsSession (load_text n) }
{}

/// No load has an `aggregate`.
pub fn loads_have_no_aggregate()
    ensures { (n : ℕ) (sections : List SaidSection) → n ≤ TURNS_MAX → Sentence (load_text n) sections → has_aggregate sections ≡ false }
{}

/// Each statement is the one that its word begins: the table of statements has a row for each.
pub fn statements_have_their_words()
    ensures { StatementsHaveTheirWords }
{}

/// Words say something exactly where they have no fault as a statement, in a session of any version; and what they say is what they
/// spell: no word is read as a default. The words of a statement that stand for themselves are there, and of their forms.
pub fn statements_are_said()
    ensures faultless { StatementsAreSaid }
    ensures versions { VersionsAreSaid }
    ensures spelled { SaidIsSpelled }
    ensures formed { StatementsAreFormed }
{}

/// Lines that are accepted one after the other (`line_kind`) are together a session with its statements in `setup`, unless it is too
/// long or costs too much. A line that is refused would be refused there too, by the same fault, unless it is refused as a section.
pub fn served_lines_are_sessions()
    ensures accepted { AcceptedLinesHaveNoFault }
    ensures refused { RefusedLinesHaveTheirFault }
    ensures whole { AcceptedTextsAreSessions }
{}

/// The limits are these numbers.
pub fn limits_by_value()
    ensures session { SESSION_MAX ≡ 1048576 }
    ensures word { WORD_MAX ≡ 1300 }
    ensures words { WORDS_MAX ≡ 128 }
    ensures pieces { PIECES_MAX ≡ 1024 }
    ensures actors { ACTORS_MAX ≡ 16 }
    ensures turns { TURNS_MAX ≡ 5000 }
    ensures joined { JOINED_MAX ≡ 4 }
{}

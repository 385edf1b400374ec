//! The laws of the texts. Each is a function with nothing to do: its contract is the law, and a caller gets it by the call.

ghost use Rattle.gl_core.specs.Kept.{Kept};
ghost use Rattle.gl_trace.specs.EntryText.{LegalEntriesHaveTexts};
ghost use Rattle.gl_trace.specs.HistoryRead.{HistoriesAreReadAlone, HistoriesAreReadBack};
ghost use Rattle.gl_trace.specs.Printable.{EntriesArePrintable};
ghost use Rattle.gl_trace.specs.Unique.{OneEntryALine};

use gl_model::Image;

/// Each entry of a legal history has a text, and so has each entry that comes, whatever happens.
pub fn legal_entries_have_texts<K: Image>()
    ensures { LegalEntriesHaveTexts K.Image.stands_for }
{}

/// Two entries never have one text: a line that is the text of both tells one index, actor, call and reply.
pub fn one_entry_a_line()
    ensures { OneEntryALine Kept }
{}

/// The text of an entry stands in one line: it has no control byte.
pub fn entries_are_printable()
    ensures { EntriesArePrintable Kept }
{}

/// A history is read from its text, whatever whole lines stand in front of it; and what is read as a history is its text.
pub fn histories_are_read_back()
    ensures back { HistoriesAreReadBack }
    ensures alone { HistoriesAreReadAlone }
{}

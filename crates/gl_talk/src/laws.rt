//! What statements cost, whatever they are answered, which files they name, that they print whole lines, and that words are read
//! as they are. Each law stands as the contract of a function that does nothing.
ghost use Rattle.gl_talk.specs.Costs.{StatementsKeepWithinCost, TalksKeepWithinCost, TalksMakeAtMost};
ghost use Rattle.gl_talk.specs.Slots.{SlotsAreOwn};
ghost use Rattle.gl_talk.specs.Files.{EndClosesAll, EndMakesAtMost, NoneIsOpenBefore, NoneIsOpenBeforeSetup, StatementsFindTheirFiles, StatementsLeaveEntries, TalksFindTheirFiles};
ghost use Rattle.gl_talk.specs.Numbers.{FilesCloseByNumber, SetupClosesByNumber};
ghost use Rattle.gl_talk.specs.InParts.{StatementsComeInParts, TalksAreStatementsAndTheEnd};
ghost use Rattle.gl_talk.specs.Printed.{StatementsPrintLines, TalksPrintLines};
ghost use Rattle.gl_talk.specs.SaidActions.{StatementsAskWhatTheySay};
ghost use Rattle.gl_talk.specs.Readings.{HeldToolsAreRead, LabelsAreRead, NamesAreRead, NoBytesAreRead, PathsAreRead, PiecesAreRead, PlainLabelsAreRead, WordsAreRead};

/// A statement makes at most as many entries of a history as it costs. The closing of a file is
/// counted where the file is opened.
pub fn statements_keep_within_cost()
    ensures { StatementsKeepWithinCost }
{}

/// A whole talk makes at most as many entries of a history as its statements cost together, with the closing of all that is
/// open at its end. A file is counted once, where it is opened.
pub fn talks_keep_within_cost()
    ensures { TalksKeepWithinCost }
{}

/// Whatever a talk is answered, but that no closing is refused, each of its operations on a file is one on a file that is open
/// then, in the slot that it names; and what it opens goes into a slot that is free. Behind its statements those slots are open
/// that its names have, each once, and after its end none: so whoever keeps the open files by their slots finds the file of each
/// operation.
pub fn talks_find_their_files()
    ensures before { NoneIsOpenBefore }
    ensures before_setup { NoneIsOpenBeforeSetup }
    ensures statements { StatementsFindTheirFiles }
    ensures end { EndClosesAll }
    ensures whole { TalksFindTheirFiles }
{}

/// Statements in a row make at most as many entries of a history as they cost together, and one for each file that was open
/// before, where each closing is counted as it is made; and they leave so many of that number as files are open after them. The
/// end makes one at most for each of these.
pub fn statements_leave_entries()
    ensures statements { StatementsLeaveEntries }
    ensures end { EndMakesAtMost }
{}

/// The talk of an actor makes at most as many entries of a history as its statements cost together, where each closing is
/// counted as it is made and none is refused: no more files are closed than were opened (`talks_find_their_files`).
pub fn talks_make_at_most()
    ensures { TalksMakeAtMost }
{}

/// Behind a statement no file is open but in a slot that was open before it, or in one of the statement's own two. So the
/// order of the slots is that in which files were opened, statement by statement.
pub fn slots_are_own()
    ensures { SlotsAreOwn }
{}

/// Whatever a talk is answered, but that no closing is refused, its end closes the files that are open in the order of their
/// numbers: whatever number each was given where it was opened, above those of the files that were open then.
pub fn files_close_by_number()
    ensures { FilesCloseByNumber }
{}

/// The same of the talk of `setup`, which goes on with the statements of another section.
pub fn setup_closes_by_number()
    ensures { SetupClosesByNumber }
{}

/// Statements in a row are those of a first list and then those of a second one, so a talk may wait between the two; and what
/// comes after them comes after the names that they give. A whole talk is its statements, and then the end.
pub fn talks_are_statements_and_the_end()
    ensures parts { StatementsComeInParts }
    ensures end { TalksAreStatementsAndTheEnd }
{}

/// Each text that a statement prints is whole lines, whatever it is answered: its last byte is 0x0A. So is each that a whole talk
/// prints.
pub fn talks_print_lines()
    ensures statements { StatementsPrintLines }
    ensures whole { TalksPrintLines }
{}

/// A statement that is no tool's does by its words, in its section, what it does by what was read of them once: it asks the same, prints
/// the same of the result, and gives the same names.
pub fn statements_ask_what_they_say()
    ensures { StatementsAskWhatTheySay }
{}

/// A word that is of its form is what the definitions read of it, and a piece of a command is read as its bytes: no word of a
/// session is read as a default. Of the other words `statements_ask_what_they_say` says so.
pub fn words_are_read_as_they_are()
    ensures labels { LabelsAreRead }
    ensures plain_labels { PlainLabelsAreRead }
    ensures names { NamesAreRead }
    ensures paths { PathsAreRead }
    ensures words { WordsAreRead }
    ensures held_tools { HeldToolsAreRead }
    ensures pieces { PiecesAreRead }
    ensures no_bytes { NoBytesAreRead }
{}

//! The limits of a session's text. All of them are this project's choice.

/// How many bytes a session has at most.
pub const SESSION_MAX: usize = 1_048_576;

/// How many actors a session has at most.
pub const ACTORS_MAX: usize = 16;

/// How many bytes a word has at most.
pub const WORD_MAX: usize = 1300;

/// How many words a line has at most.
pub const WORDS_MAX: usize = 128;

/// How many bytes the pieces of a statement have at most.
pub const PIECES_MAX: u64 = 1024;

/// The greatest number of turns of a load that is still a session.
pub const TURNS_MAX: u32 = 5000;

/// How many requests the lines of one chip are joined of at most.
pub const JOINED_MAX: u32 = 4;

//! The limits of a session that is served.

/// How many bytes a line has at most. Of a longer one this many and one more are kept. This project's choice.
pub const LINE_MAX: usize = 8192;

/// How many pairs of slots there are: so many statements of a session have slots of their own.
pub const PAIRS: u32 = 2_147_483_647;

/// How many bytes of frames wait at most before the next line is answered: where more wait they are written first. This project's choice.
pub const WAITING_MAX: usize = 65_536;

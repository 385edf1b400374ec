//! The limits of the library.

/// How many places there are. A chip stands at a place, and a place is used once in a machine's life.
/// This project's choice.
pub const PLACES: u8 = 64;

/// How many lines a chip has at most. This project's choice.
pub const LINES_MAX: u32 = 512;

/// How many lines a request has at most (`linux/gpio.h`, `GPIO_V2_LINES_MAX`).
pub const LINES_PER_REQUEST: u32 = 64;

/// How many files are open or claimed at once at most: chip files and line requests together. This
/// project's choice.
pub const FILES_MAX: u32 = 256;

/// How many entries of the history a session may make at most. This project's choice.
pub const COST_MAX: u64 = 300_000;

/// How many digits a number has at most: those of 2^64 - 1.
pub const DIGITS_MAX: usize = 20;

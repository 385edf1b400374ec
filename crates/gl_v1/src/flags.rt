//! The flags of both uAPIs, and words of them (`linux/gpio.h`).

ghost use Rattle.std.specs.Prelude.{◌≡◌, ◌<◌, ◌≤◌, ◌^◌, bit_or, length, take};
ghost use Rattle.gl_base.specs.Bits.{has_bit};
ghost use Rattle.gl_base.specs.Rows.{Each};
ghost use Rattle.gl_v1.specs.Flags.{event_word, joined, newer, newer_word, older, older_word};

use gl_base::flag::{
    ACTIVE_LOW, BIAS_DISABLED, BIAS_PULL_DOWN, BIAS_PULL_UP, EDGE_FALLING, EDGE_RISING, INPUT,
    OPEN_DRAIN, OPEN_SOURCE, OUTPUT, USED,
};

/// The bit of v2 that stands for every bit of the first uAPI that is no flag there. It is none of v2, which refuses it.
pub const UNKNOWN: u32 = 63;

/// A flag, by its bit in a word of the first uAPI and by its bit in one of v2.
#[derive(Clone, Copy, PartialEq, Eq)]
pub struct FlagPair {
    /// Its bit in the first uAPI.
    pub old: u32,
    /// Its bit in v2.
    pub new: u32,
}

/// The flags that are asked for of the lines of a handle (`GPIOHANDLE_REQUEST_..`).
pub const HANDLE_TABLE: [FlagPair; 8] = [
    FlagPair { old: 0, new: INPUT },
    FlagPair {
        old: 1,
        new: OUTPUT,
    },
    FlagPair {
        old: 2,
        new: ACTIVE_LOW,
    },
    FlagPair {
        old: 3,
        new: OPEN_DRAIN,
    },
    FlagPair {
        old: 4,
        new: OPEN_SOURCE,
    },
    FlagPair {
        old: 5,
        new: BIAS_PULL_UP,
    },
    FlagPair {
        old: 6,
        new: BIAS_PULL_DOWN,
    },
    FlagPair {
        old: 7,
        new: BIAS_DISABLED,
    },
];

/// The edges that are events (`GPIOEVENT_REQUEST_..`).
pub const EVENT_TABLE: [FlagPair; 2] = [
    FlagPair {
        old: 0,
        new: EDGE_RISING,
    },
    FlagPair {
        old: 1,
        new: EDGE_FALLING,
    },
];

/// The flags that the information on a line shows (`GPIOLINE_FLAG_..`): in use, an output, and then those of a handle.
pub const INFO_TABLE: [FlagPair; 8] = [
    FlagPair { old: 0, new: USED },
    FlagPair {
        old: 1,
        new: OUTPUT,
    },
    FlagPair {
        old: 2,
        new: ACTIVE_LOW,
    },
    FlagPair {
        old: 3,
        new: OPEN_DRAIN,
    },
    FlagPair {
        old: 4,
        new: OPEN_SOURCE,
    },
    FlagPair {
        old: 5,
        new: BIAS_PULL_UP,
    },
    FlagPair {
        old: 6,
        new: BIAS_PULL_DOWN,
    },
    FlagPair {
        old: 7,
        new: BIAS_DISABLED,
    },
];

/// A word with the bit `there` too, where `word` has the bit `here`.
fn joined(word: u64, here: u32, there: u32, flags: u64) -> u64
    requires { (here < 64) × (there < 64) }
    ensures { result ≡ joined word here there flags }
{
    if gl_base::has_bit(word, here) {
        flags | 1 << there
    } else {
        flags
    }
}

/// The flags of v2 for the bits of a word that a table has.
fn newer(table: &[FlagPair], word: u64) -> u64
    requires { Each (λ pair. (pair.old < 64) × (pair.new < 64)) table.now }
    ensures { result ≡ newer table.now word 0 }
{
    let mut flags = 0;
    for i in 0..table.len() {
        flags = joined(word, table[i].old, table[i].new, flags);
    }
    flags
}

/// A word of 32 bits with the bit `there` too, where `word` has the bit `here`.
fn joined_old(word: u64, here: u32, there: u32, flags: u32) -> u32
    requires { (here < 64) × (there < 32) }
    ensures { result ≡ joined word here there flags }
{
    if gl_base::has_bit(word, here) {
        flags | 1 << there
    } else {
        flags
    }
}

/// A word of flags of v2 as one of the first uAPI, by a table.
pub(crate) fn older_word(table: &[FlagPair], word: u64) -> u32
    requires { Each (λ pair. (pair.old < 32) × (pair.new < 64)) table.now }
    ensures { result ≡ older_word table.now word }
{
    let mut flags = 0;
    for i in 0..table.len() {
        flags = joined_old(word, table[i].new, table[i].old, flags);
    }
    flags
}

/// A word of flags of the first uAPI as one of v2, by a table whose rows are the lowest bits in order.
pub(crate) fn newer_word(table: &[FlagPair], word: u32) -> u64
    requires bits { Each (λ pair. (pair.old < 64) × (pair.new < 64)) table.now }
    requires rows { length table.now < 32 }
    ensures { result ≡ newer_word table.now word }
{
    let flags = newer(table, u64::from(word));
    if word < 1 << table.len() {
        flags
    } else {
        flags | 1 << UNKNOWN
    }
}

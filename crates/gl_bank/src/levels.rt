//! The levels of one line.
ghost use Rattle.std.specs.Prelude.{◌≡◌};
ghost use Rattle.gl_bank.specs.Level.{flipped, lets_go, level, change_between, biased, held_with, directed, configured};

use gl_base::{Settings, flag, has_bit};

/// What drives a line, and how it is configured.
#[derive(Clone, Copy, PartialEq, Eq)]
pub struct Levels {
    /// A request or a hog holds the line.
    pub held: bool,
    /// The line's last direction was output. It outlives a release.
    pub output: bool,
    /// What an output drives: the physical level.
    pub drive: bool,
    /// What pulls the line: the level that it shows when nothing drives it.
    pub pull: bool,
    /// The flags of whoever holds the line (`linux/gpio.h`, `GPIO_V2_LINE_FLAG_*`).
    pub flags: u64,
    /// The debounce period in microseconds; 0 means that the line isn't debounced.
    pub debounce_us: u32,
}

/// A change of a line's physical level.
#[derive(Clone, Copy, PartialEq, Eq)]
pub struct Change {
    /// The level rose; else it fell.
    pub rose: bool,
}

/// A physical level as a logical value, or the other way round: inverted where the flags have
/// `ACTIVE_LOW`.
pub fn flip(flags: u64, value: bool) -> bool
    ensures { result ≡ flipped flags value }
{
    if has_bit(flags, flag::ACTIVE_LOW) {
        !value
    } else {
        value
    }
}

/// Whether an output lets its line go.
fn lets_go(line: &Levels) -> bool
    ensures { result ≡ lets_go line.now }
{
    if line.drive {
        has_bit(line.flags, flag::OPEN_DRAIN)
    } else {
        has_bit(line.flags, flag::OPEN_SOURCE)
    }
}

/// The physical level of a line.
pub(crate) fn level_of(line: &Levels) -> bool
    ensures { result ≡ level line.now }
{
    if line.held && line.output && !lets_go(line) {
        line.drive
    } else {
        line.pull
    }
}

/// What a change from one level to another is.
pub(crate) fn change_between(before: bool, after: bool) -> Option<Change>
    ensures { result ≡ change_between before after }
{
    match (before, after) {
        (false, true) => Some(Change { rose: true }),
        (true, false) => Some(Change { rose: false }),
        (false, false) | (true, true) => None,
    }
}

/// The pull that the flags for a bias set, or else the pull as it was.
fn biased(flags: u64, pull: bool) -> bool
    ensures { result ≡ biased flags pull }
{
    if has_bit(flags, flag::BIAS_PULL_UP) {
        true
    } else if has_bit(flags, flag::BIAS_PULL_DOWN) {
        false
    } else {
        pull
    }
}

/// Holds a line with these settings.
fn hold(line: &mut Levels, settings: &Settings)
    ensures { line.new ≡ held_with settings.now line.old }
{
    line.held = true;
    line.flags = settings.flags;
    line.debounce_us = settings.debounce_us;
    line.pull = biased(settings.flags, line.pull);
}

/// Gives a line the direction that its settings ask for.
fn direct(line: &mut Levels, settings: &Settings)
    ensures { line.new ≡ directed settings.now line.old }
{
    if has_bit(settings.flags, flag::OUTPUT) {
        line.output = true;
        line.drive = flip(settings.flags, settings.value);
    } else if has_bit(settings.flags, flag::INPUT) {
        line.output = false;
    } else if line.output {
        line.drive = line.pull;
    }
}

/// Configures a line.
pub(crate) fn configure(line: &mut Levels, settings: &Settings)
    ensures { line.new ≡ configured settings.now line.old }
{
    hold(line, settings);
    direct(line, settings);
}

//! The levels of the lines of one chip, by offset.
ghost use Rattle.std.specs.Prelude.{◌≡◌, ◌-◌, ◌<◌, ◌≤◌, ◌++◌, length, take, replicate, IfOk, IsOkUnless};
ghost use Rattle.gl_base.specs.declared.limits.TheConstants.{LINES_MAX};
ghost use Rattle.gl_base.specs.Positions.{change_at};
ghost use Rattle.gl_bank.specs.Level.{first_levels, levels_at, level, logical, pulled, driven, change_between, configured, released};

use crate::levels::{Change, Levels, change_between, configure, flip, level_of};
use gl_base::{Errno, LINES_MAX, Settings};
use std::alloc::Global;
use std::marker::Model;

/// The levels of a chip's lines, by offset. Contracts see the list of them. There is room for as many lines as a
/// chip has at most.
#[derive(Drop)]
pub struct Bank {
    lines: Vec<Levels>,
}

impl Model for Bank {
    ghost use Rattle.std.specs.Prelude.{◌≤◌, List, vec_capacity};
    ghost use Rattle.gl_base.specs.declared.limits.TheConstants.{LINES_MAX};
    ghost use Rattle.gl_bank.specs.declared.levels.Levels.{Levels};

    ghost Value = { List Levels };

    ghost view = { λ b. b.lines.items };

    ghost invariant = { λ b. LINES_MAX ≤ vec_capacity b.lines };
}

impl Bank {
    /// A bank of so many lines: inputs that nobody holds, pulled down. It takes the memory of `LINES_MAX` lines, and
    /// writes to that of its own alone.
    pub fn new(alloc: Global, lines: u32) -> Result<Bank, Errno>
        requires { lines ≤ LINES_MAX }
        ensures ok { IfOk result (λ bank. bank ≡ replicate lines first_levels) }
        ensures memory_alone { IsOkUnless result Errno.NoMemory }
    {
        let rows = Vec::with_capacity(alloc, LINES_MAX as usize)?;
        let mut bank = Bank { lines: rows };
        bank.fit(lines);
        Ok(bank)
    }

    /// Keeps the first lines, so many; where there are fewer, new ones come behind them. It takes no memory.
    pub fn fit(&mut self, lines: u32)
        requires { lines ≤ LINES_MAX }
        ensures { self.new ≡ take lines self.old ++ replicate (lines - length self.old) first_levels }
    {
        let first = Levels {
            held: false,
            output: false,
            drive: false,
            pull: false,
            flags: 0,
            debounce_us: 0,
        };
        match self.lines.resize(lines as usize, first) {
            Ok(()) => {}
            Err(_) => {}
        }
    }

    /// How a line stands.
    pub fn line(&self, offset: u32) -> Levels
        requires { offset < length self.now }
        ensures { result ≡ levels_at self.now offset }
    {
        self.lines[offset as usize]
    }

    /// The physical level of a line: what it drives where it is a held output that doesn't let go, else its
    /// pull.
    pub fn level(&self, offset: u32) -> bool
        requires { offset < length self.now }
        ensures { result ≡ level (levels_at self.now offset) }
    {
        level_of(&self.lines[offset as usize])
    }

    /// The logical value of a line: its level, inverted where it is active low.
    pub fn logical(&self, offset: u32) -> bool
        requires { offset < length self.now }
        ensures { result ≡ logical (levels_at self.now offset) }
    {
        let line = &self.lines[offset as usize];
        flip(line.flags, level_of(line))
    }

    /// What pulls a line.
    pub fn pull(&self, offset: u32) -> bool
        requires { offset < length self.now }
        ensures { result ≡ (levels_at self.now offset).pull }
    {
        self.lines[offset as usize].pull
    }

    /// Whether a line's last direction was output.
    pub fn is_output(&self, offset: u32) -> bool
        requires { offset < length self.now }
        ensures { result ≡ (levels_at self.now offset).output }
    {
        self.lines[offset as usize].output
    }

    /// Sets what pulls a line, and tells the change of its physical level: None exactly where that stays.
    pub fn set_pull(&mut self, offset: u32, up: bool) -> Option<Change>
        requires { offset < length self.old }
        ensures change { result ≡ change_between (level (levels_at self.old offset)) (level (pulled up (levels_at self.old offset))) }
        ensures bank { self.new ≡ change_at first_levels offset (pulled up) self.old }
    {
        set_pull(&mut self.lines[offset as usize], up)
    }

    /// Sets what a line drives, which shows where it is an output. An offset past the lines changes nothing.
    pub fn drive(&mut self, offset: u32, physical: bool)
        ensures { self.new ≡ change_at first_levels offset (driven physical) self.old }
    {
        drive(&mut self.lines, offset as usize, physical);
    }

    /// Holds a line and configures it as its request or hog asks. An offset past the lines changes nothing.
    pub fn apply(&mut self, offset: u32, settings: Settings)
        ensures { self.new ≡ change_at first_levels offset (configured settings) self.old }
    {
        apply(&mut self.lines, offset as usize, &settings);
    }

    /// Nobody holds the line any more. Its direction and its pull stay. An offset past the lines changes
    /// nothing.
    pub fn release(&mut self, offset: u32)
        ensures { self.new ≡ change_at first_levels offset released self.old }
    {
        release(&mut self.lines, offset as usize);
    }
}

/// Sets what pulls a line.
fn set_pull(line: &mut Levels, up: bool) -> Option<Change>
    ensures change { result ≡ change_between (level line.old) (level (pulled up line.old)) }
    ensures line { line.new ≡ pulled up line.old }
{
    let before = level_of(line);
    line.pull = up;
    change_between(before, level_of(line))
}

/// Sets what the line at an offset drives.
fn drive(lines: &mut [Levels], offset: usize, physical: bool)
    ensures { lines.new ≡ change_at first_levels offset (driven physical) lines.old }
{
    if offset < lines.len() {
        lines[offset].drive = physical;
    }
}

/// Configures the line at an offset.
fn apply(lines: &mut [Levels], offset: usize, settings: &Settings)
    ensures { lines.new ≡ change_at first_levels offset (configured settings.now) lines.old }
{
    if offset < lines.len() {
        configure(&mut lines[offset], settings);
    }
}

/// Releases the line at an offset.
fn release(lines: &mut [Levels], offset: usize)
    ensures { lines.new ≡ change_at first_levels offset released lines.old }
{
    if offset < lines.len() {
        let line = &mut lines[offset];
        line.held = false;
        line.flags = 0;
        line.debounce_us = 0;
    }
}

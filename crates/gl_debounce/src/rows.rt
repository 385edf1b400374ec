//! The timers of the lines, as far as lines have a row.

ghost use Rattle.std.specs.Prelude.{◌≡◌, ◌<◌, ◌≤◌, [], IfOk, IfSome, IsOkUnless, None, true, Some, length, slice_get, slice_index_or, slice_set, vec_capacity};
ghost use Rattle.gl_base.specs.declared.limits.TheConstants.{LINES_MAX, PLACES};
ghost use Rattle.gl_debounce.specs.Earliest.{earliest};
ghost use Rattle.gl_debounce.specs.Fire.{fires};
ghost use Rattle.gl_debounce.specs.Order.{AreRows};
ghost use Rattle.gl_debounce.specs.Timer.{HardLinesAreStill, all_lines, is_still_if_hard, timers_of};

use crate::deadlines::Deadlines;
use crate::timer::{Fired, TABLE_SIZE, Timer, TimerLevels, fired_at};
use gl_base::{Errno, push_within};
use std::alloc::Global;
use std::marker::Model;

/// A row for each of the first lines, by place and then by offset: the line's timer, if it has one. Contracts
/// see the list of them. There is room for the rows of all lines, and a row is made where it is wanted. A
/// deadline is kept once, in the heap.
#[derive(Drop)]
pub(crate) struct Rows {
    levels: Vec<Option<TimerLevels>>,
    deadlines: Deadlines,
}

impl Model for Rows {
    ghost use Rattle.std.specs.Prelude.{List, Option, vec_capacity};
    ghost use Rattle.gl_debounce.specs.Order.{AreRows};
    ghost use Rattle.gl_debounce.specs.Timer.{timers_of};
    ghost use Rattle.gl_debounce.specs.declared.timer.Timer.{Timer};

    ghost Value = { List (Option Timer) };

    ghost view = { λ r. timers_of r.levels.items r.deadlines };

    ghost invariant = { λ r. AreRows r.levels.items r.deadlines (vec_capacity r.levels) };
}

impl Rows {
    /// No row, and room for those of all lines. `NoMemory` is its one refusal; no other call takes memory.
    pub(crate) fn new(alloc: Global) -> Result<Rows, Errno>
        ensures ok { IfOk result (λ rows. rows ≡ []) }
        ensures memory_alone { IsOkUnless result Errno.NoMemory }
    {
        let levels = Vec::with_capacity(alloc, TABLE_SIZE as usize)?;
        let deadlines = Deadlines::new(alloc)?;
        Ok(Rows { levels, deadlines })
    }

    /// There are no more rows than lines. The call does nothing.
    pub(crate) fn are_within(&self)
        ensures { length self.now ≤ TABLE_SIZE }
    {
        let _count = self.levels.len();
    }

    /// A hard line has no deadline. The call does nothing.
    pub(crate) fn are_still(&self)
        ensures { HardLinesAreStill self.now }
    {
        let _count = self.levels.len();
    }

    /// Each of the first lines, so many, has a row from now on. The new ones have no timer.
    pub(crate) fn make(&mut self, count: u32)
        requires { count ≤ TABLE_SIZE }
        ensures same { all_lines self.new ≡ all_lines self.old }
        ensures enough { count ≤ length self.new }
    {
        make_rows(&mut self.levels, &mut self.deadlines, count);
    }

    /// The timer of a line, if it has one.
    pub(crate) fn timer(&self, line: u32) -> Option<Timer>
        ensures timer { result ≡ slice_index_or self.now line None }
        ensures within { IfSome result (λ timer. line < length self.now) }
    {
        match levels_at(&self.levels, line) {
            None => None,
            Some(levels) => Some(Timer {
                raw: levels.raw,
                settled: levels.settled,
                hard: levels.hard,
                deadline: self.deadlines.at(line),
            }),
        }
    }

    /// The line has this timer from now on.
    pub(crate) fn put(&mut self, line: u32, timer: Timer)
        requires line { line < length self.old }
        requires still { is_still_if_hard (Some timer) ≡ true }
        ensures { self.new ≡ slice_set self.old line (Some timer) }
    {
        let levels = TimerLevels {
            raw: timer.raw,
            settled: timer.settled,
            hard: timer.hard,
        };
        put(
            &mut self.levels,
            &mut self.deadlines,
            line,
            levels,
            timer.deadline,
        );
    }

    /// The earliest deadline, or None where no line has one.
    pub(crate) fn earliest(&self) -> Option<u64>
        ensures { result ≡ earliest self.now }
    {
        match self.deadlines.first() {
            None => None,
            Some(due) => Some(due.deadline),
        }
    }

    /// The first line whose deadline has come, by deadline, place and offset. None where no deadline has come.
    pub(crate) fn first_due(&self, now: u64) -> Option<Fired>
        ensures first { result ≡ slice_get (fires now self.now) 0 }
        ensures place { IfSome result (λ fired. fired.place < PLACES) }
        ensures offset { IfSome result (λ fired. fired.offset < LINES_MAX) }
    {
        match self.deadlines.first() {
            None => None,
            Some(due) => fired_at(now, due.line, self.timer(due.line)),
        }
    }
}

/// Makes rows until there are so many.
fn make_rows(levels: &mut Vec<Option<TimerLevels>>, deadlines: &mut Deadlines, count: u32)
    requires count { count ≤ TABLE_SIZE }
    requires rows { AreRows levels.old.items deadlines.old (vec_capacity levels.old) }
    ensures same { all_lines (timers_of levels.new.items deadlines.new) ≡ all_lines (timers_of levels.old.items deadlines.old) }
    ensures enough { count ≤ length levels.new.items }
    ensures rows { AreRows levels.new.items deadlines.new (vec_capacity levels.new) }
{
    while levels.len() < count as usize {
        push_within(levels, None);
        deadlines.add_row();
    }
}

/// The line has these levels and this deadline from now on.
fn put(
    levels: &mut Vec<Option<TimerLevels>>,
    deadlines: &mut Deadlines,
    line: u32,
    changed: TimerLevels,
    deadline: Option<u64>,
)
    requires line { line < length levels.old.items }
    requires rows { AreRows levels.old.items deadlines.old (vec_capacity levels.old) }
    ensures levels { levels.new.items ≡ slice_set levels.old.items line (Some changed) }
    ensures deadlines { deadlines.new ≡ slice_set deadlines.old line deadline }
    ensures capacity { vec_capacity levels.new ≡ vec_capacity levels.old }
{
    levels[line as usize] = Some(changed);
    match deadline {
        None => deadlines.clear(line),
        Some(deadline) => deadlines.set(line, deadline),
    }
}

/// The levels of a line, if it is debounced.
fn levels_at(levels: &[Option<TimerLevels>], line: u32) -> Option<TimerLevels>
    ensures levels { result ≡ slice_index_or levels.now line None }
    ensures within { IfSome result (λ levels_there. line < length levels.now) }
{
    if (line as usize) < levels.len() {
        levels[line as usize]
    } else {
        None
    }
}

//! The timers of all lines.

ghost use Rattle.std.specs.Prelude.{◌≡◌, ◌*◌, ◌<◌, false, IfOk, IsOkUnless, length, slice_get};
ghost use Rattle.std.specs.Option.{option_map};
ghost use Rattle.gl_debounce.specs.Earliest.{earliest};
ghost use Rattle.gl_debounce.specs.Fire.{after_first, fires};
ghost use Rattle.gl_debounce.specs.Timer.{HardLinesAreStill, hard_at, let_go, line_number, no_timers, settled_at_raw, still, timer_at, with_new_timer, with_raw, with_timer, without_deadline};

use crate::rows::Rows;
use crate::timer::{Fired, TABLE_SIZE, Timer};
use gl_base::{Errno, LINES_MAX, PLACES};
use std::alloc::Global;
use std::marker::Model;

/// The timers of the lines of each place. Contracts see the list of them, by place and then by offset; a
/// line that isn't debounced has none. The lines up to the last that was ever debounced have a row.
#[derive(Drop)]
pub struct Timers {
    rows: Rows,
}

impl Model for Timers {
    ghost use Rattle.std.specs.Prelude.{List, Option};
    ghost use Rattle.gl_debounce.specs.Timer.{all_lines};
    ghost use Rattle.gl_debounce.specs.declared.timer.Timer.{Timer};

    ghost Value = { List (Option Timer) };

    ghost view = { λ t. all_lines t.rows };
}

impl Timers {
    /// A table in which no line has a timer. It takes the memory of all rows. `NoMemory` is its one refusal.
    pub fn new(alloc: Global) -> Result<Timers, Errno>
        ensures ok { IfOk result (λ timers. timers ≡ no_timers) }
        ensures memory_alone { IsOkUnless result Errno.NoMemory }
    {
        let rows = Rows::new(alloc)?;
        Ok(Timers { rows })
    }

    /// The line is debounced from now on, by its driver where it is hard, and has settled at this level.
    pub fn start(&mut self, place: u8, offset: u32, level: bool, hard: bool)
        requires place { place < PLACES }
        requires offset { offset < LINES_MAX }
        ensures { self.new ≡ with_new_timer (still level hard) place offset self.old }
    {
        let line = number_of(place, offset);
        self.rows.make(line + 1);
        self.rows.put(line, Timer::still(level, hard));
    }

    /// The line is let go of: no deadline of it runs, and it isn't hard any more. Its levels stay.
    pub fn let_go(&mut self, place: u8, offset: u32)
        requires place { place < PLACES }
        requires offset { offset < LINES_MAX }
        ensures { self.new ≡ with_timer let_go place offset self.old }
    {
        let line = number_of(place, offset);
        match self.rows.timer(line) {
            None => {}
            Some(timer) => self.rows.put(line, timer.let_go()),
        }
    }

    /// Takes the line's deadline away. Its levels stay, and so does whether it is hard.
    pub fn clear(&mut self, place: u8, offset: u32)
        requires place { place < PLACES }
        requires offset { offset < LINES_MAX }
        ensures { self.new ≡ with_timer without_deadline place offset self.old }
    {
        let line = number_of(place, offset);
        match self.rows.timer(line) {
            None => {}
            Some(timer) => self.rows.put(line, timer.without_deadline()),
        }
    }

    /// An edge has come to the line, which has this level now and is to settle at the deadline, in
    /// nanoseconds of the monotonic clock. A line that isn't debounced stays as it is; a hard one doesn't wait.
    pub fn raw(&mut self, place: u8, offset: u32, level: bool, deadline: u64)
        requires place { place < PLACES }
        requires offset { offset < LINES_MAX }
        requires soft { hard_at self.old place offset ≡ false }
        ensures { self.new ≡ with_timer (with_raw level deadline) place offset self.old }
    {
        let line = number_of(place, offset);
        match self.rows.timer(line) {
            None => {}
            Some(timer) => self.rows.put(line, timer.with_raw(level, deadline)),
        }
    }

    /// How many lines there are, with a timer or without: `LINES_MAX` for each place.
    pub fn len(&self) -> usize
        ensures len { result ≡ length self.now }
        ensures whole { result ≡ PLACES * LINES_MAX }
    {
        self.rows.are_within();
        TABLE_SIZE as usize
    }

    /// The level that the line settled at last, or None where it isn't debounced.
    pub fn settled(&self, place: u8, offset: u32) -> Option<bool>
        requires place { place < PLACES }
        requires offset { offset < LINES_MAX }
        ensures { result ≡ option_map (λ timer. timer.settled) (timer_at self.now place offset) }
    {
        match self.rows.timer(number_of(place, offset)) {
            Some(timer) => Some(timer.settled),
            None => None,
        }
    }

    /// Whether the driver debounces the line. A line that isn't debounced isn't hard.
    pub fn is_hard(&self, place: u8, offset: u32) -> bool
        requires place { place < PLACES }
        requires offset { offset < LINES_MAX }
        ensures { result ≡ hard_at self.now place offset }
    {
        match self.rows.timer(number_of(place, offset)) {
            Some(timer) => timer.hard,
            None => false,
        }
    }

    /// A hard line has no deadline. The call does nothing.
    pub fn hard_lines_are_still(&self)
        ensures { HardLinesAreStill self.now }
    {
        self.rows.are_still();
    }

    /// The earliest deadline of all lines, in nanoseconds, or None where no line has one.
    pub fn earliest(&self) -> Option<u64>
        ensures { result ≡ earliest self.now }
    {
        self.rows.earliest()
    }

    /// The first line whose deadline has come, by deadline, place and offset: its level has settled now.
    /// None where no deadline has come.
    pub fn fire(&mut self, now: u64) -> Option<Fired>
        ensures lines { length self.old ≡ PLACES * LINES_MAX }
        ensures first { result ≡ slice_get (fires now self.old) 0 }
        ensures timers { self.new ≡ after_first result self.old }
    {
        self.rows.are_within();
        match self.rows.first_due(now) {
            None => None,
            Some(fired) => {
                self.settle(fired.place, fired.offset);
                Some(fired)
            }
        }
    }

    /// The line has settled at the level that it has, and no deadline of it runs any more.
    fn settle(&mut self, place: u8, offset: u32)
        requires place { place < PLACES }
        requires offset { offset < LINES_MAX }
        ensures { self.new ≡ with_timer settled_at_raw place offset self.old }
    {
        let line = number_of(place, offset);
        match self.rows.timer(line) {
            None => {}
            Some(timer) => self.rows.put(line, timer.settled_at_raw()),
        }
    }
}

/// Where a line stands in the table.
fn number_of(place: u8, offset: u32) -> u32
    requires place { place < PLACES }
    requires offset { offset < LINES_MAX }
    ensures number { result ≡ line_number place offset }
    ensures within { result < PLACES * LINES_MAX }
{
    u32::from(place) * LINES_MAX + offset
}

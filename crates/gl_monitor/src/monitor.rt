//! gpiomon and gpionotify.
ghost use Rattle.std.specs.Prelude.{◌≡◌, ◌+◌, ◌<◌, ◌^◌, ◌≤◌, [], ◌∷◌, true, false, not, is_some, None, drop, IfOk, IsSome, OnOk, OnErr, IsOkUnless, MatchOption, option_copied};
ghost use Rattle.gl_args.specs.Options.{options_in, tool_in};
ghost use Rattle.gl_client.specs.Program.{Goes, given, goes_on, done, then_by, MatchNext};
ghost use Rattle.gl_lines.specs.declared.found_line.FoundLine.{FoundLine};
ghost use Rattle.gl_lines.specs.Finding.{Finding, left};
ghost use Rattle.gl_monitor.specs.Monitor.{IsMonitorTool, monitor_program, begins, watching_in, watched_by, watched_slot, has_ended, left_rest, monitor_left, room_of, less_by, is_complete, leaves, fails, closes, closed, stops, steps_held, started, first_watching, has_lines, watches, watched, goes_behind, shows, was_read, ready, polled, steps};

use crate::item::{ITEMS_MAX, item_size, items_in};
use crate::item_text::items_text;
use gl_args::{Opts, Tool, ToolName};
use gl_base::command::GET_LINEINFO_WATCH;
use gl_base::{ByteList, Do, Errno, Got, has_bit};
use gl_client::Next;
use gl_lines::{Finder, failed_line, info_sent};
use std::alloc::Global;

/// Where a monitor stands.
#[derive(Clone, Copy)]
pub enum MonitorStage {
    /// Before its beginning.
    Begin,
    /// It finds its lines, and gpiomon requests them.
    Finding,
    /// gpionotify watches one of its lines.
    Watching,
    /// Before a turn of a step.
    Stepping,
    /// It polls its file.
    Polling,
    /// It reads items.
    Reading,
    /// Items were printed.
    Shown,
    /// A refusal was printed.
    Failed,
    /// Its file is being closed after a refusal.
    Leaving,
    /// It was stopped.
    Stopped,
    /// Its file is being closed.
    Closing,
    /// The closing was refused, and that was printed.
    NotClosed,
    /// Its start or its step is done, and it watches its lines.
    Resting,
    /// It has ended.
    Ended,
}

/// gpiomon or gpionotify, as a client of the device: its program is that of its tool.
#[derive(Drop)]
pub struct Monitor {
    /// What finds its lines.
    pub finder: Finder,
    /// Which line is watched next.
    pub next: usize,
    /// How many items are missing to its number.
    pub missing: Option<u32>,
    /// How many turns are left of a step.
    pub turns: u32,
    /// Where it stands.
    pub stage: MonitorStage,
}

impl Monitor {
    /// A monitor that is to be started: a gpiomon or a gpionotify. It uses the slots `base` and `base + 1` alone.
    pub fn new(alloc: Global, tool: Tool, base: u32) -> Monitor
        requires monitor { IsMonitorTool (tool_in tool) }
        requires slots { base + 1 < 2 ^ 32 }
        ensures { monitor_left result ≡ goes_on (monitor_program (tool_in tool) base) }
    {
        match tool {
            Tool::Watch(opts) => Monitor::starting(alloc, ToolName::Watch, opts, base, base + 1),
            Tool::Notify(opts) => Monitor::starting(alloc, ToolName::Notify, opts, base, base + 1),
            Tool::Detect(_) | Tool::Info(_) | Tool::Get(_) | Tool::Set(_) => unreachable!(),
        }
    }

    fn starting(alloc: Global, tool: ToolName, opts: Opts, base: u32, made: u32) -> Monitor
        ensures { monitor_left result ≡ goes_on (begins tool base made (options_in opts)) }
    {
        Monitor {
            finder: Finder::new(alloc, tool, base, made, opts),
            next: 0,
            missing: None,
            turns: 0,
            stage: MonitorStage::Begin,
        }
    }

    /// What it does next. `got` is the result of the operation that it asked for last, if it asked for one. End means
    /// that the start, the step or the stop is done: then what is left is said by what it watches, and it has ended
    /// exactly where it watches nothing. Behind a Call or a Print it hasn't ended.
    /// When out of memory, what is left is what was left, and it watches what it watched: it may be called again with the
    /// same result.
    pub fn next(&mut self, alloc: Global, got: Option<&Got>) -> Result<Next, Errno>
        ensures goes { IfOk result (λ next. Goes (given (monitor_left self.old) (option_copied got.entry)) next (monitor_left self.new)) }
        ensures rests { IfOk result (λ next. MatchNext next (Unit {0}) (monitor_left self.new ≡ goes_on (done (watched_by self.new)))) }
        ensures ended { IfOk result (λ next. MatchNext next (has_ended self.new.stage ≡ false) (has_ended self.new.stage ≡ not (is_some (watched_by self.new)))) }
        ensures kept { OnErr result ((monitor_left self.new ≡ monitor_left self.old) × (watched_by self.new ≡ watched_by self.old)) }
        ensures memory_alone { IsOkUnless result Errno.NoMemory }
    {
        let mut step = Next::End;
        self.put_next(alloc, got, &mut step)?;
        Ok(step)
    }

    /// Puts into `step` what it does next, as `next` answers it. When out of memory `step` means nothing.
    pub fn put_next(
        &mut self,
        alloc: Global,
        got: Option<&Got>,
        step: &mut Next,
    ) -> Result<(), Errno>
        ensures goes { OnOk result (Goes (given (monitor_left self.old) (option_copied got.entry)) step.new (monitor_left self.new)) }
        ensures rests { OnOk result (MatchNext step.new (Unit {0}) (monitor_left self.new ≡ goes_on (done (watched_by self.new)))) }
        ensures ended { OnOk result (MatchNext step.new (has_ended self.new.stage ≡ false) (has_ended self.new.stage ≡ not (is_some (watched_by self.new)))) }
        ensures kept { OnErr result ((monitor_left self.new ≡ monitor_left self.old) × (watched_by self.new ≡ watched_by self.old)) }
        ensures memory_alone { IsOkUnless result Errno.NoMemory }
    {
        let none = Got::Done;
        let told = match got {
            Some(got) => got,
            None => &none,
        };
        let stage = self.stage;
        match &stage {
            MonitorStage::Begin => {
                self.finder.put_first(alloc, step)?;
                self.go_on(step);
                Ok(())
            }
            MonitorStage::Finding => {
                self.finder.put_next(alloc, got, step)?;
                self.go_on(step);
                Ok(())
            }
            MonitorStage::Watching => self.watched(alloc, told.refusal(), step),
            MonitorStage::Stepping => self.turn(alloc, step),
            MonitorStage::Polling => self.polled(alloc, told.refusal(), told.ready(), step),
            MonitorStage::Reading => self.was_read(alloc, told.refusal(), told.bytes(), step),
            MonitorStage::Shown => {
                self.go_behind(step);
                Ok(())
            }
            MonitorStage::Failed => {
                self.leave(step);
                Ok(())
            }
            MonitorStage::Leaving => {
                self.end(step);
                Ok(())
            }
            MonitorStage::Stopped => {
                self.close(step);
                Ok(())
            }
            MonitorStage::Closing => self.closed(alloc, told.refusal(), step),
            MonitorStage::NotClosed => {
                self.end(step);
                Ok(())
            }
            MonitorStage::Resting | MonitorStage::Ended => {
                *step = Next::End;
                Ok(())
            }
        }
    }

    /// Begins a step of so many turns, where it watches its lines. A monitor that watches nothing has ended then.
    pub fn step(&mut self, turns: u32)
        ensures { monitor_left self.new ≡ goes_on (steps_held (watched_by self.old) turns) }
    {
        self.turns = turns;
        self.leave_rest(MonitorStage::Stepping);
    }

    /// Stops it where it watches its lines: `next` closes its file after this. A monitor that watches nothing has
    /// ended then.
    pub fn stop(&mut self)
        ensures { monitor_left self.new ≡ goes_on (stops (watched_by self.old)) }
    {
        self.leave_rest(MonitorStage::Stopped);
    }

    /// Whether the tool has ended, so that its name is free: so it is from the End on at which it watches nothing. Then
    /// nothing is left of its program.
    pub fn ended(&self) -> bool
        ensures told { result ≡ has_ended self.now.stage }
        ensures nothing_left { result ≡ true → monitor_left self.now ≡ goes_on (done None) }
    {
        match &self.stage {
            MonitorStage::Ended => true,
            MonitorStage::Begin
            | MonitorStage::Finding
            | MonitorStage::Watching
            | MonitorStage::Stepping
            | MonitorStage::Polling
            | MonitorStage::Reading
            | MonitorStage::Shown
            | MonitorStage::Failed
            | MonitorStage::Leaving
            | MonitorStage::Stopped
            | MonitorStage::Closing
            | MonitorStage::NotClosed
            | MonitorStage::Resting => false,
        }
    }

    /// The slot of the file that it watches at its rest, if it watches one: of gpiomon its request, of gpionotify its
    /// chip file.
    pub fn watched_slot(&self) -> Option<u32>
        ensures { result ≡ watched_slot (watched_by self.now) }
    {
        match &self.stage {
            MonitorStage::Resting => Some(self.slot()),
            MonitorStage::Begin
            | MonitorStage::Finding
            | MonitorStage::Watching
            | MonitorStage::Stepping
            | MonitorStage::Polling
            | MonitorStage::Reading
            | MonitorStage::Shown
            | MonitorStage::Failed
            | MonitorStage::Leaving
            | MonitorStage::Stopped
            | MonitorStage::Closing
            | MonitorStage::NotClosed
            | MonitorStage::Ended => None,
        }
    }

    /// Goes from its rest to a stage; a monitor that doesn't rest has ended then.
    fn leave_rest(&mut self, stage: MonitorStage)
        ensures stage { self.new.stage ≡ left_rest self.old.stage stage }
        ensures finder { self.new.finder ≡ self.old.finder }
        ensures missing { self.new.missing ≡ self.old.missing }
        ensures turns { self.new.turns ≡ self.old.turns }
    {
        let before = self.stage;
        match &before {
            MonitorStage::Resting => self.stage = stage,
            MonitorStage::Begin
            | MonitorStage::Finding
            | MonitorStage::Watching
            | MonitorStage::Stepping
            | MonitorStage::Polling
            | MonitorStage::Reading
            | MonitorStage::Shown
            | MonitorStage::Failed
            | MonitorStage::Leaving
            | MonitorStage::Stopped
            | MonitorStage::Closing
            | MonitorStage::NotClosed
            | MonitorStage::Ended => self.stage = MonitorStage::Ended,
        }
    }

    /// Goes on after a step of what finds its lines.
    fn go_on(&mut self, step: &mut Next)
        ensures goes { (p : Finding) → Goes p step.old (left self.old.finder) → Goes (then_by p (started self.old.finder.tool self.old.finder.base self.old.finder.made (options_in self.old.finder.opts))) step.new (monitor_left self.new) }
        ensures rests { MatchNext step.new (Unit {0}) (monitor_left self.new ≡ goes_on (done (watched_by self.new))) }
        ensures ended { MatchNext step.new (has_ended self.new.stage ≡ false) (has_ended self.new.stage ≡ not (is_some (watched_by self.new))) }
    {
        match &*step {
            Next::Call(_) => self.stage = MonitorStage::Finding,
            Next::Print(_) => self.stage = MonitorStage::Finding,
            Next::End => {
                if self.finder.has_found() {
                    return self.watch_found(step);
                }
                self.end(step);
            }
        }
    }

    /// Its lines are found: gpionotify watches them, and gpiomon has them.
    #[tactic(auto, using(gl_client::proofs::Programs::choices))]
    fn watch_found(&mut self, step: &mut Next)
        ensures goes { Goes (has_lines (first_watching self.old.finder)) step.new (monitor_left self.new) }
        ensures rests { MatchNext step.new (Unit {0}) (monitor_left self.new ≡ goes_on (done (watched_by self.new))) }
        ensures ended { MatchNext step.new (has_ended self.new.stage ≡ false) (has_ended self.new.stage ≡ not (is_some (watched_by self.new))) }
    {
        self.missing = self.finder.opts.count;
        self.next = 0;
        if self.finder.tool.requests_lines() {
            return self.rest(step);
        }
        self.watch(step)
    }

    /// Watches the next line, or rests.
    #[tactic(auto, using(crate::proofs::Turns::lines))]
    fn watch(&mut self, step: &mut Next)
        ensures goes { Goes (watches (watching_in self.old) (drop self.old.next self.old.finder.found.items)) step.new (monitor_left self.new) }
        ensures rests { MatchNext step.new (Unit {0}) (monitor_left self.new ≡ goes_on (done (watched_by self.new))) }
        ensures ended { MatchNext step.new (has_ended self.new.stage ≡ false) (has_ended self.new.stage ≡ not (is_some (watched_by self.new))) }
    {
        match self.line_offset() {
            Some(offset) => {
                self.next += 1;
                self.stage = MonitorStage::Watching;
                *step = Next::Call(Do::Ioctl {
                    slot: self.slot(),
                    cmd: GET_LINEINFO_WATCH,
                    len: 256,
                    bytes: info_sent(offset),
                    made: 0,
                });
            }
            None => self.rest(step),
        }
    }

    /// The offset of the line that is watched next.
    #[tactic(auto, using(crate::proofs::Turns::lines))]
    fn line_offset(&self) -> Option<u32>
        ensures line { MatchOption result (drop self.now.next self.now.finder.found.items ≡ [])
            (λ offset. (line : FoundLine) × (line.offset ≡ offset) × (drop self.now.next self.now.finder.found.items ≡ line ∷ drop (self.now.next + 1) self.now.finder.found.items)) }
        ensures small { IsSome result → self.now.next < 2 ^ 63 }
    {
        match self.finder.found.get(self.next) {
            Some(line) => Some(line.offset),
            None => None,
        }
    }

    fn watched(
        &mut self,
        alloc: Global,
        refusal: Option<Errno>,
        step: &mut Next,
    ) -> Result<(), Errno>
        ensures goes { OnOk result (Goes (watched (watching_in self.old) (watches (watching_in self.old) (drop self.old.next self.old.finder.found.items)) refusal) step.new (monitor_left self.new)) }
        ensures rests { OnOk result (MatchNext step.new (Unit {0}) (monitor_left self.new ≡ goes_on (done (watched_by self.new)))) }
        ensures ended { OnOk result (MatchNext step.new (has_ended self.new.stage ≡ false) (has_ended self.new.stage ≡ not (is_some (watched_by self.new)))) }
        ensures kept { OnErr result (self.new ≡ self.old) }
        ensures memory_alone { IsOkUnless result Errno.NoMemory }
    {
        match refusal {
            Some(errno) => self.fail(alloc, errno, step),
            None => {
                self.watch(step);
                Ok(())
            }
        }
    }

    /// One turn more of a step; or none, and all its polls were empty.
    #[tactic(auto, using(crate::proofs::Turns::one_turn))]
    fn turn(&mut self, alloc: Global, step: &mut Next) -> Result<(), Errno>
        ensures goes { OnOk result (Goes (steps (watching_in self.old) self.old.turns) step.new (monitor_left self.new)) }
        ensures goes_on { OnOk result (MatchNext step.new (has_ended self.new.stage ≡ false) ⊥) }
        ensures kept { OnErr result (self.new ≡ self.old) }
        ensures memory_alone { IsOkUnless result Errno.NoMemory }
    {
        if self.turns == 0 {
            let mut text = ByteList::new(alloc);
            text.push_all(b"idle\n")?;
            self.stage = MonitorStage::Resting;
            *step = Next::Print(text);
            return Ok(());
        }
        self.turns -= 1;
        self.stage = MonitorStage::Polling;
        *step = Next::Call(Do::Poll { slot: self.slot() });
        Ok(())
    }

    fn polled(
        &mut self,
        alloc: Global,
        refusal: Option<Errno>,
        bits: u8,
        step: &mut Next,
    ) -> Result<(), Errno>
        ensures goes { OnOk result (Goes (polled (watching_in self.old) (steps (watching_in self.old) self.old.turns) refusal bits) step.new (monitor_left self.new)) }
        ensures goes_on { OnOk result (MatchNext step.new (has_ended self.new.stage ≡ false) ⊥) }
        ensures kept { OnErr result (self.new ≡ self.old) }
        ensures memory_alone { IsOkUnless result Errno.NoMemory }
    {
        match refusal {
            Some(errno) => self.fail(alloc, errno, step),
            None => self.ready(alloc, bits, step),
        }
    }

    /// What is ready: nothing, the chip is gone, or items wait.
    fn ready(&mut self, alloc: Global, bits: u8, step: &mut Next) -> Result<(), Errno>
        ensures goes { OnOk result (Goes (ready (watching_in self.old) (steps (watching_in self.old) self.old.turns) bits) step.new (monitor_left self.new)) }
        ensures goes_on { OnOk result (MatchNext step.new (has_ended self.new.stage ≡ false) ⊥) }
        ensures kept { OnErr result (self.new ≡ self.old) }
        ensures memory_alone { IsOkUnless result Errno.NoMemory }
    {
        if bits == 0 {
            return self.turn(alloc, step);
        }
        if has_bit(u64::from(bits), 2) {
            return self.fail(alloc, Errno::NoDev, step);
        }
        self.stage = MonitorStage::Reading;
        *step = Next::Call(Do::ReadFile {
            slot: self.slot(),
            len: item_size(self.finder.tool) * room_of(self.missing),
        });
        Ok(())
    }

    fn was_read(
        &mut self,
        alloc: Global,
        refusal: Option<Errno>,
        bytes: &[u8],
        step: &mut Next,
    ) -> Result<(), Errno>
        ensures goes { OnOk result (Goes (was_read (watching_in self.old) refusal bytes.now) step.new (monitor_left self.new)) }
        ensures rests { OnOk result (MatchNext step.new (Unit {0}) (monitor_left self.new ≡ goes_on (done (watched_by self.new)))) }
        ensures ended { OnOk result (MatchNext step.new (has_ended self.new.stage ≡ false) (has_ended self.new.stage ≡ not (is_some (watched_by self.new)))) }
        ensures kept { OnErr result (self.new ≡ self.old) }
        ensures memory_alone { IsOkUnless result Errno.NoMemory }
    {
        match refusal {
            Some(errno) => self.fail(alloc, errno, step),
            None => {
                let (tool, edges) = (self.finder.tool, self.finder.opts.edges);
                let items = items_in(alloc, tool, edges, bytes)?;
                let (opts, found) = (&self.finder.opts, &self.finder.found);
                let text = items_text(alloc, tool, opts, found, &items)?;
                self.missing = less_by(items.len(), self.missing);
                self.show(text, step);
                Ok(())
            }
        }
    }

    /// Prints a text where there is one.
    fn show(&mut self, text: ByteList, step: &mut Next)
        ensures goes { Goes (shows text (goes_behind (watching_in self.old))) step.new (monitor_left self.new) }
        ensures rests { MatchNext step.new (Unit {0}) (monitor_left self.new ≡ goes_on (done (watched_by self.new))) }
        ensures ended { MatchNext step.new (has_ended self.new.stage ≡ false) (has_ended self.new.stage ≡ not (is_some (watched_by self.new))) }
    {
        if text.as_slice().is_empty() {
            return self.go_behind(step);
        }
        self.stage = MonitorStage::Shown;
        *step = Next::Print(text);
    }

    /// Ends where all items were read; else the step is done.
    #[tactic(auto, using(gl_client::proofs::Programs::choices))]
    fn go_behind(&mut self, step: &mut Next)
        ensures goes { Goes (goes_behind (watching_in self.old)) step.new (monitor_left self.new) }
        ensures rests { MatchNext step.new (Unit {0}) (monitor_left self.new ≡ goes_on (done (watched_by self.new))) }
        ensures ended { MatchNext step.new (has_ended self.new.stage ≡ false) (has_ended self.new.stage ≡ not (is_some (watched_by self.new))) }
    {
        if is_complete(self.missing) {
            return self.close(step);
        }
        self.rest(step)
    }

    /// Rests: its start or its step is done.
    fn rest(&mut self, step: &mut Next)
        ensures end { step.new ≡ Next.End }
        ensures stage { self.new.stage ≡ MonitorStage.Resting }
        ensures watches { watching_in self.new ≡ watching_in self.old }
    {
        self.stage = MonitorStage::Resting;
        *step = Next::End;
    }

    /// Ends.
    fn end(&mut self, step: &mut Next)
        ensures end { step.new ≡ Next.End }
        ensures stage { self.new.stage ≡ MonitorStage.Ended }
    {
        self.stage = MonitorStage::Ended;
        *step = Next::End;
    }

    /// Prints a refusal.
    fn fail(&mut self, alloc: Global, errno: Errno, step: &mut Next) -> Result<(), Errno>
        ensures goes { OnOk result (Goes (fails (watching_in self.old) errno) step.new (monitor_left self.new)) }
        ensures goes_on { OnOk result (MatchNext step.new (has_ended self.new.stage ≡ false) ⊥) }
        ensures kept { OnErr result (self.new ≡ self.old) }
        ensures memory_alone { IsOkUnless result Errno.NoMemory }
    {
        let text = failed_line(alloc, self.finder.tool, errno)?;
        self.stage = MonitorStage::Failed;
        *step = Next::Print(text);
        Ok(())
    }

    /// Closes its file after a refusal.
    fn leave(&mut self, step: &mut Next)
        ensures goes { Goes (leaves (watching_in self.old).slot) step.new (monitor_left self.new) }
        ensures goes_on { MatchNext step.new (has_ended self.new.stage ≡ false) ⊥ }
    {
        self.stage = MonitorStage::Leaving;
        *step = Next::Call(Do::Close { slot: self.slot() });
    }

    /// Closes its file.
    fn close(&mut self, step: &mut Next)
        ensures goes { Goes (closes (watching_in self.old)) step.new (monitor_left self.new) }
        ensures goes_on { MatchNext step.new (has_ended self.new.stage ≡ false) ⊥ }
    {
        self.stage = MonitorStage::Closing;
        *step = Next::Call(Do::Close { slot: self.slot() });
    }

    fn closed(
        &mut self,
        alloc: Global,
        refusal: Option<Errno>,
        step: &mut Next,
    ) -> Result<(), Errno>
        ensures goes { OnOk result (Goes (closed (watching_in self.old) refusal) step.new (monitor_left self.new)) }
        ensures ended { OnOk result (MatchNext step.new (has_ended self.new.stage ≡ false) (self.new.stage ≡ MonitorStage.Ended)) }
        ensures kept { OnErr result (self.new ≡ self.old) }
        ensures memory_alone { IsOkUnless result Errno.NoMemory }
    {
        match refusal {
            Some(errno) => {
                let text = failed_line(alloc, self.finder.tool, errno)?;
                self.stage = MonitorStage::NotClosed;
                *step = Next::Print(text);
                Ok(())
            }
            None => {
                self.end(step);
                Ok(())
            }
        }
    }

    /// The slot of the file that it watches: of gpiomon its request, of gpionotify its chip.
    fn slot(&self) -> u32
        ensures { result ≡ (watching_in self.now).slot }
    {
        if self.finder.tool.requests_lines() {
            return self.finder.made;
        }
        self.finder.base
    }
}

/// How many items the next read asks for.
fn room_of(missing: Option<u32>) -> u32
    ensures room { result ≡ room_of missing }
    ensures small { result ≤ 16 }
{
    match missing {
        Some(missing) => missing.min(ITEMS_MAX),
        None => ITEMS_MAX,
    }
}

/// How many items are missing after so many.
fn less_by(count: usize, missing: Option<u32>) -> Option<u32>
    ensures { result ≡ less_by count missing }
{
    match missing {
        Some(missing) => Some((missing as usize).saturating_sub(count) as u32),
        None => None,
    }
}

/// Whether none is missing.
fn is_complete(missing: Option<u32>) -> bool
    ensures { result ≡ is_complete missing }
{
    match missing {
        Some(missing) => missing == 0,
        None => false,
    }
}

//! The statements that start a tool, let it make a step, and stop it.
ghost use Rattle.std.specs.Prelude.{vec_len, vec_capacity, ◌≡◌, ◌+◌, ◌*◌, ◌<◌, ◌≤◌, true, None, IfOk, OnOk, OnErr, IsOkUnless, IsSome, option_copied};
ghost use Rattle.gl_base.specs.Words.{text_at};
ghost use Rattle.gl_args.specs.Options.{tool_in};
ghost use Rattle.gl_client.specs.Program.{Goes, MatchNext, given, goes_on, done, then_left};
ghost use Rattle.gl_args.specs.Tools.{tool_said};
ghost use Rattle.gl_script.specs.Table.{keyword_of};
ghost use Rattle.gl_monitor.specs.Monitor.{watched_by};
ghost use Rattle.gl_values.specs.Client.{client_left, held_by};
ghost use Rattle.gl_talk.specs.Open.{has_tool, held_of_name, watched_of_name};
ghost use Rattle.gl_talk.specs.Talk.{StaysBegun, StaysLeft, keeps_monitor, keeps_set, left, names_in, slot_in, some_left, some_watched, starts, starts_said, starts_tool, steps, stops, words_in};
ghost use Rattle.gl_talk.specs.ToolWords.{can_be_started, kind_of, word_texts};
ghost use Rattle.gl_talk.specs.declared.tools.StatementKind.TheVariants.{Starting, Stepping, Stopping};
ghost use Rattle.gl_talk.specs.Words.{behind_two};

use crate::held::{MonitorRow, SetRow, has_monitor, has_set, row_name, take_monitor, take_set};
use crate::talk::{Stage, Talk};
use crate::tools::{started_tool_of, tool_name, turns_of, usage_text};
use crate::words::{started_word, under_way};
use gl_args::{ArgFault, Tool};
use gl_base::{Errno, Got, Name};
use gl_client::Next;
use gl_monitor::Monitor;
use gl_values::Client;
use std::alloc::Global;
use std::mem;

impl Talk {
    /// The first step of a `start`.
    pub(crate) fn start_held(&mut self, alloc: Global, step: &mut Next) -> Result<(), Errno>
        requires line { IsSome self.old.line }
        requires begun { self.old.begun ≤ 2147483647 }
        requires kind { kind_of (keyword_of (text_at 0 (words_in self.old))) ≡ Starting }
        ensures goes { OnOk result (Goes (starts (has_tool (text_at 1 (words_in self.old)) (names_in self.old)) (names_in self.old) (slot_in self.old) (words_in self.old)) step.new (left self.new)) }
        ensures rests { OnOk result (MatchNext step.new (Unit {0}) (left self.new ≡ goes_on (done (names_in self.new)))) }
        ensures counted { OnOk result (self.new.begun ≡ self.old.begun) }
        ensures kept { OnErr result (StaysBegun self.old self.new) }
        ensures memory_alone { IsOkUnless result Errno.NoMemory }
    {
        if self.has_tool() {
            return self.refuse(alloc, Errno::Exist, step);
        }
        self.start_free(alloc, step)
    }

    /// Whether a tool has the statement's name.
    fn has_tool(&self) -> bool
        requires line { IsSome self.now.line }
        requires kind { kind_of (keyword_of (text_at 0 (words_in self.now))) ≡ Starting }
        ensures { result ≡ has_tool (text_at 1 (words_in self.now)) (names_in self.now) }
    {
        let name = tool_name(under_way(&self.line));
        has_set(&self.sets, name.as_bytes()) || has_monitor(&self.monitors, name.as_bytes())
    }

    /// The first step of a `start` whose name is free.
    fn start_free(&mut self, alloc: Global, step: &mut Next) -> Result<(), Errno>
        requires line { IsSome self.old.line }
        requires begun { self.old.begun ≤ 2147483647 }
        requires kind { kind_of (keyword_of (text_at 0 (words_in self.old))) ≡ Starting }
        ensures goes { OnOk result (Goes (starts_said (tool_said (word_texts (behind_two (words_in self.old)))) (names_in self.old) (slot_in self.old) (words_in self.old)) step.new (left self.new)) }
        ensures rests { OnOk result (MatchNext step.new (Unit {0}) (left self.new ≡ goes_on (done (names_in self.new)))) }
        ensures counted { OnOk result (self.new.begun ≡ self.old.begun) }
        ensures kept { OnErr result (StaysBegun self.old self.new) }
        ensures memory_alone { IsOkUnless result Errno.NoMemory }
    {
        match started_tool_of(alloc, under_way(&self.line)) {
            Ok(tool) => {
                self.start_said(alloc, tool, step)?;
                Ok(())
            }
            Err(ArgFault::Usage) => {
                let text = usage_text(alloc, started_word(under_way(&self.line)))?;
                self.show(text, step);
                Ok(())
            }
            Err(ArgFault::NoMemory) => Err(Errno::NoMemory),
        }
    }

    /// The first step of a tool that is started.
    fn start_said(&mut self, alloc: Global, tool: Tool, step: &mut Next) -> Result<(), Errno>
        requires line { IsSome self.old.line }
        requires tool { can_be_started (tool_in tool) ≡ true }
        requires begun { self.old.begun ≤ 2147483647 }
        requires kind { kind_of (keyword_of (text_at 0 (words_in self.old))) ≡ Starting }
        ensures goes { OnOk result (Goes (starts_tool (tool_in tool) (names_in self.old) (slot_in self.old) (text_at 1 (words_in self.old))) step.new (left self.new)) }
        ensures rests { OnOk result (MatchNext step.new (Unit {0}) (left self.new ≡ goes_on (done (names_in self.new)))) }
        ensures counted { OnOk result (self.new.begun ≡ self.old.begun) }
        ensures kept { OnErr result (StaysBegun self.old self.new) }
        ensures memory_alone { IsOkUnless result Errno.NoMemory }
    {
        let base = 2 * self.begun;
        let name = tool_name(under_way(&self.line));
        match tool {
            Tool::Set(opts) => {
                self.client = Client::held(alloc, Tool::Set(opts), base);
                self.hold(alloc, &name, None, step)
            }
            Tool::Watch(opts) => {
                self.monitor = Some(Monitor::new(alloc, Tool::Watch(opts), base));
                self.watch(alloc, &name, None, step)
            }
            Tool::Notify(opts) => {
                self.monitor = Some(Monitor::new(alloc, Tool::Notify(opts), base));
                self.watch(alloc, &name, None, step)
            }
            Tool::Detect(_) | Tool::Info(_) | Tool::Get(_) => unreachable!(),
        }
    }

    /// The first step of a `step`: a monitor makes its turns, and a gpioset has none.
    pub(crate) fn step_held(&mut self, alloc: Global, step: &mut Next) -> Result<(), Errno>
        requires line { IsSome self.old.line }
        requires kind { kind_of (keyword_of (text_at 0 (words_in self.old))) ≡ Stepping }
        ensures goes { OnOk result (Goes (steps (watched_of_name (text_at 1 (words_in self.old)) (names_in self.old).monitors) (held_of_name (text_at 1 (words_in self.old)) (names_in self.old).sets) (names_in self.old) (words_in self.old)) step.new (left self.new)) }
        ensures rests { OnOk result (MatchNext step.new (Unit {0}) (left self.new ≡ goes_on (done (names_in self.new)))) }
        ensures counted { OnOk result (self.new.begun ≡ self.old.begun) }
        ensures kept { left self.old ≡ goes_on (steps (watched_of_name (text_at 1 (words_in self.old)) (names_in self.old).monitors) (held_of_name (text_at 1 (words_in self.old)) (names_in self.old).sets) (names_in self.old) (words_in self.old)) → OnErr result ((left self.new ≡ left self.old) × (self.new.begun ≡ self.old.begun)) }
        ensures memory_alone { IsOkUnless result Errno.NoMemory }
    {
        let name = tool_name(under_way(&self.line));
        match take_monitor(&mut self.monitors, name.as_bytes()) {
            Some(monitor) => {
                let mut monitor = monitor;
                monitor.step(turns_of(under_way(&self.line)));
                self.monitor = Some(monitor);
                self.stage = Stage::Watching(name);
                self.watch(alloc, &name, None, step)?;
                Ok(())
            }
            None => {
                if has_set(&self.sets, name.as_bytes()) {
                    self.refuse(alloc, Errno::Inval, step)?;
                    return Ok(());
                }
                self.refuse(alloc, Errno::BadF, step)?;
                Ok(())
            }
        }
    }

    /// The first step of a `stop`.
    pub(crate) fn stop_held(&mut self, alloc: Global, step: &mut Next) -> Result<(), Errno>
        requires line { IsSome self.old.line }
        requires kind { kind_of (keyword_of (text_at 0 (words_in self.old))) ≡ Stopping }
        ensures goes { OnOk result (Goes (stops (watched_of_name (text_at 1 (words_in self.old)) (names_in self.old).monitors) (held_of_name (text_at 1 (words_in self.old)) (names_in self.old).sets) (names_in self.old) (words_in self.old)) step.new (left self.new)) }
        ensures rests { OnOk result (MatchNext step.new (Unit {0}) (left self.new ≡ goes_on (done (names_in self.new)))) }
        ensures counted { OnOk result (self.new.begun ≡ self.old.begun) }
        ensures kept { left self.old ≡ goes_on (stops (watched_of_name (text_at 1 (words_in self.old)) (names_in self.old).monitors) (held_of_name (text_at 1 (words_in self.old)) (names_in self.old).sets) (names_in self.old) (words_in self.old)) → OnErr result ((left self.new ≡ left self.old) × (self.new.begun ≡ self.old.begun)) }
        ensures memory_alone { IsOkUnless result Errno.NoMemory }
    {
        let name = tool_name(under_way(&self.line));
        match take_monitor(&mut self.monitors, name.as_bytes()) {
            Some(monitor) => {
                let mut monitor = monitor;
                monitor.stop();
                self.monitor = Some(monitor);
                self.stage = Stage::Watching(name);
                self.watch(alloc, &name, None, step)?;
                Ok(())
            }
            None => {
                self.stop_set(alloc, &name, step)?;
                Ok(())
            }
        }
    }

    /// The first step of a `stop` of a name that no monitor has.
    fn stop_set(&mut self, alloc: Global, name: &Name, step: &mut Next) -> Result<(), Errno>
        requires { name.now ≡ text_at 1 (words_in self.old) }
        ensures goes { OnOk result (Goes (stops None (held_of_name (text_at 1 (words_in self.old)) (names_in self.old).sets) (names_in self.old) (words_in self.old)) step.new (left self.new)) }
        ensures rests { OnOk result (MatchNext step.new (Unit {0}) (left self.new ≡ goes_on (done (names_in self.new)))) }
        ensures counted { OnOk result (self.new.begun ≡ self.old.begun) }
        ensures kept { left self.old ≡ goes_on (stops None (held_of_name (text_at 1 (words_in self.old)) (names_in self.old).sets) (names_in self.old) (words_in self.old)) → OnErr result ((left self.new ≡ left self.old) × (self.new.begun ≡ self.old.begun)) }
        ensures memory_alone { IsOkUnless result Errno.NoMemory }
    {
        match take_set(&mut self.sets, name.as_bytes()) {
            Some(client) => {
                let mut client = client;
                client.stop();
                self.client = client;
                self.stage = Stage::Holding(*name);
                self.hold(alloc, name, None, step)?;
                Ok(())
            }
            None => {
                self.refuse(alloc, Errno::BadF, step)?;
                Ok(())
            }
        }
    }

    /// The next step of a gpioset that is started or stopped.
    pub(crate) fn hold(
        &mut self,
        alloc: Global,
        name: &Name,
        got: Option<&Got>,
        step: &mut Next,
    ) -> Result<(), Errno>
        ensures goes { OnOk result (Goes (given (then_left (client_left self.old.client) (keeps_set name.now (names_in self.old))) (option_copied got.entry)) step.new (left self.new)) }
        ensures rests { OnOk result (MatchNext step.new (Unit {0}) (left self.new ≡ goes_on (done (names_in self.new)))) }
        ensures counted { OnOk result (self.new.begun ≡ self.old.begun) }
        ensures kept { OnErr result (StaysLeft self.old self.new) }
        ensures memory_alone { IsOkUnless result Errno.NoMemory }
    {
        self.sets.reserve(1)?;
        self.client.put_next(alloc, got, step)?;
        match &*step {
            Next::Call(_) => {
                self.stage = Stage::Holding(*name);
                Ok(())
            }
            Next::Print(_) => {
                self.stage = Stage::Holding(*name);
                Ok(())
            }
            Next::End => {
                self.keep_set(name, step);
                Ok(())
            }
        }
    }

    /// The gpioset has its name from now on, where it holds its request.
    fn keep_set(&mut self, name: &Name, step: &mut Next)
        requires room { vec_len self.old.sets + 1 ≤ vec_capacity self.old.sets }
        ensures goes { Goes (keeps_set name.now (names_in self.old) (held_by self.old.client)) step.new (left self.new) }
        ensures rests { MatchNext step.new (Unit {0}) (left self.new ≡ goes_on (done (names_in self.new))) }
        ensures counted { self.new.begun ≡ self.old.begun }
    {
        let client = mem::replace(&mut self.client, Client::Nothing);
        match client.held_slot() {
            Some(_) => {
                let row = SetRow {
                    name: row_name(name),
                    client,
                };
                match self.sets.push(row) {
                    Ok(()) => self.end(step),
                    Err(_) => unreachable!(),
                }
            }
            None => self.end(step),
        }
    }

    /// The next step of a monitor that is started or stopped, or makes a step.
    pub(crate) fn watch(
        &mut self,
        alloc: Global,
        name: &Name,
        got: Option<&Got>,
        step: &mut Next,
    ) -> Result<(), Errno>
        ensures goes { OnOk result (Goes (given (then_left (some_left self.old.monitor) (keeps_monitor name.now (names_in self.old))) (option_copied got.entry)) step.new (left self.new)) }
        ensures rests { OnOk result (MatchNext step.new (Unit {0}) (left self.new ≡ goes_on (done (names_in self.new)))) }
        ensures counted { OnOk result (self.new.begun ≡ self.old.begun) }
        ensures kept { OnErr result (StaysLeft self.old self.new) }
        ensures memory_alone { IsOkUnless result Errno.NoMemory }
    {
        self.monitors.reserve(1)?;
        match self.monitor.take() {
            Some(monitor) => {
                let mut monitor = monitor;
                let told = monitor.put_next(alloc, got, step);
                self.monitor = Some(monitor);
                match told {
                    Ok(()) => match &*step {
                        Next::Call(_) => {
                            self.stage = Stage::Watching(*name);
                            Ok(())
                        }
                        Next::Print(_) => {
                            self.stage = Stage::Watching(*name);
                            Ok(())
                        }
                        Next::End => {
                            self.keep_monitor(name, step);
                            Ok(())
                        }
                    },
                    Err(errno) => Err(errno),
                }
            }
            None => {
                self.end(step);
                Ok(())
            }
        }
    }

    /// The monitor has its name from now on, where it watches its lines.
    fn keep_monitor(&mut self, name: &Name, step: &mut Next)
        requires room { vec_len self.old.monitors + 1 ≤ vec_capacity self.old.monitors }
        ensures goes { Goes (keeps_monitor name.now (names_in self.old) (some_watched self.old.monitor)) step.new (left self.new) }
        ensures rests { MatchNext step.new (Unit {0}) (left self.new ≡ goes_on (done (names_in self.new))) }
        ensures counted { self.new.begun ≡ self.old.begun }
    {
        match self.monitor.take() {
            Some(monitor) => self.keep_watching(name, monitor, step),
            None => self.end(step),
        }
    }

    fn keep_watching(&mut self, name: &Name, monitor: Monitor, step: &mut Next)
        requires room { vec_len self.old.monitors + 1 ≤ vec_capacity self.old.monitors }
        ensures goes { Goes (keeps_monitor name.now (names_in self.old) (watched_by monitor)) step.new (left self.new) }
        ensures rests { MatchNext step.new (Unit {0}) (left self.new ≡ goes_on (done (names_in self.new))) }
        ensures counted { self.new.begun ≡ self.old.begun }
    {
        match monitor.watched_slot() {
            Some(_) => {
                let row = MonitorRow {
                    name: row_name(name),
                    monitor,
                };
                match self.monitors.push(row) {
                    Ok(()) => self.end(step),
                    Err(_) => unreachable!(),
                }
            }
            None => self.end(step),
        }
    }
}

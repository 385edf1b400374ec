//! The steps of a talk.
ghost use Rattle.std.specs.Prelude.{◌≡◌, ◌+◌, ◌*◌, ◌<◌, ◌≤◌, ◌++◌, ◌∷◌, [], true, false, IfOk, OnOk, OnErr, IsOkUnless, IsSome, option_copied};
ghost use Rattle.gl_base.specs.Operation.{refusal, bytes_of};
ghost use Rattle.gl_base.specs.Words.{text_at};
ghost use Rattle.gl_client.specs.Program.{Goes, MatchNext, given, goes_on, waits, done, ask, then_left};
ghost use Rattle.gl_args.specs.Tools.{tool_said};
ghost use Rattle.gl_script.specs.Table.{keyword_of};
ghost use Rattle.gl_values.specs.Client.{client_left};
ghost use Rattle.gl_talk.specs.Open.{with_file};
ghost use Rattle.gl_talk.specs.Replies.{fd_text};
ghost use Rattle.gl_talk.specs.SaidTalk.{file_said, replied_said, told_said};
ghost use Rattle.gl_talk.specs.Talk.{StaysBegun, StaysLeft, closes_all, does, does_by, left, names_in, quits, refused, runs, shows, slot_in, words_in};
ghost use Rattle.gl_talk.specs.ToolWords.{kind_of, word_texts};
ghost use Rattle.gl_talk.specs.UnderWay.{is_there};

use crate::actions::{SaidAction, SaidFormat, action_here};
use crate::closing::slots_in_order;
use crate::files::{TalkFile, TalkFileKind, remove_file};
use crate::old::{old_edges_text, old_structure_line};
use crate::replies::{
    edges_text, fd_text, infos_text, level_text, line_of, number_of, ready_text, structure_text,
    value_line,
};
use crate::talk::{Stage, Talk};
use crate::tools::{StatementKind, kind_of, tool_of, usage_text};
use crate::words::{file_name, first_word, under_way};
use gl_args::ArgFault;
use gl_base::{ByteList, Do, Errno, Got, Name};
use gl_client::Next;
use gl_values::Client;
use std::alloc::Global;

impl Talk {
    /// The statement is done.
    pub(crate) fn end(&mut self, step: &mut Next)
        ensures goes { Goes (done (names_in self.old)) step.new (left self.new) }
        ensures rests { MatchNext step.new (Unit {0}) (left self.new ≡ goes_on (done (names_in self.new))) }
        ensures counted { self.new.begun ≡ self.old.begun }
    {
        self.stage = Stage::Idle;
        *step = Next::End;
    }

    /// Prints a text, and then the statement is done.
    pub(crate) fn show(&mut self, text: ByteList, step: &mut Next)
        ensures goes { Goes (shows text (names_in self.old)) step.new (left self.new) }
        ensures rests { MatchNext step.new (Unit {0}) (left self.new ≡ goes_on (done (names_in self.new))) }
        ensures counted { self.new.begun ≡ self.old.begun }
    {
        self.stage = Stage::Idle;
        *step = Next::Print(text);
    }

    /// Prints a refusal, and then the statement is done.
    pub(crate) fn refuse(
        &mut self,
        alloc: Global,
        errno: Errno,
        step: &mut Next,
    ) -> Result<(), Errno>
        ensures goes { OnOk result (Goes (refused errno (names_in self.old)) step.new (left self.new)) }
        ensures rests { OnOk result (MatchNext step.new (Unit {0}) (left self.new ≡ goes_on (done (names_in self.new)))) }
        ensures counted { OnOk result (self.new.begun ≡ self.old.begun) }
        ensures kept { OnErr result (self.new ≡ self.old) }
        ensures memory_alone { IsOkUnless result Errno.NoMemory }
    {
        let text = line_of(alloc, errno.name().as_bytes())?;
        self.show(text, step);
        Ok(())
    }

    /// The first step of the statement that was begun.
    #[tactic(auto, using(crate::proofs::Staying::begun_stays))]
    pub(crate) fn start(&mut self, alloc: Global, step: &mut Next) -> Result<(), Errno>
        requires line { IsSome self.old.line }
        requires begun { self.old.begun ≤ 2147483647 }
        requires stage { self.old.stage ≡ Stage.Begun }
        ensures goes { OnOk result (Goes (does (names_in self.old) (slot_in self.old) (words_in self.old)) step.new (left self.new)) }
        ensures rests { OnOk result (MatchNext step.new (Unit {0}) (left self.new ≡ goes_on (done (names_in self.new)))) }
        ensures counted { OnOk result (self.new.begun ≡ self.old.begun) }
        ensures kept { OnErr result ((left self.new ≡ left self.old) × (self.new.begun ≡ self.old.begun)) }
        ensures memory_alone { IsOkUnless result Errno.NoMemory }
    {
        match kind_of(under_way(&self.line)) {
            StatementKind::Plain => {
                self.start_plain(alloc, step)?;
                Ok(())
            }
            StatementKind::ToolAlone => {
                self.start_tool(alloc, step)?;
                Ok(())
            }
            StatementKind::Starting => {
                self.start_held(alloc, step)?;
                Ok(())
            }
            StatementKind::Stepping => {
                self.step_held(alloc, step)?;
                Ok(())
            }
            StatementKind::Stopping => {
                self.stop_held(alloc, step)?;
                Ok(())
            }
        }
    }

    /// The first step of a statement that is no tool's: it is refused, or asks for one operation.
    fn start_plain(&mut self, alloc: Global, step: &mut Next) -> Result<(), Errno>
        requires line { IsSome self.old.line }
        requires begun { self.old.begun ≤ 2147483647 }
        requires kind { kind_of (keyword_of (text_at 0 (words_in self.old))) ≡ StatementKind.Plain }
        ensures goes { OnOk result (Goes (does_by StatementKind.Plain (names_in self.old) (slot_in self.old) (words_in self.old)) step.new (left self.new)) }
        ensures rests { OnOk result (MatchNext step.new (Unit {0}) (left self.new ≡ goes_on (done (names_in self.new)))) }
        ensures counted { OnOk result (self.new.begun ≡ self.old.begun) }
        ensures kept { OnErr result (self.new ≡ self.old) }
        ensures memory_alone { IsOkUnless result Errno.NoMemory }
    {
        let slot = 2 * self.begun;
        let action = action_here(self.in_setup, &self.files, slot, under_way(&self.line));
        match &action {
            SaidAction::Nothing => unreachable!(),
            SaidAction::Refuse(errno) => {
                self.refuse(alloc, *errno, step)?;
                Ok(())
            }
            SaidAction::Ask(what, reply) => {
                self.stage = Stage::Waiting(*reply);
                *step = Next::Call(*what);
                Ok(())
            }
        }
    }

    /// The first step of a tool.
    fn start_tool(&mut self, alloc: Global, step: &mut Next) -> Result<(), Errno>
        requires line { IsSome self.old.line }
        requires begun { self.old.begun ≤ 2147483647 }
        ensures goes { OnOk result (Goes (runs (tool_said (word_texts (words_in self.old))) (names_in self.old) (slot_in self.old) (words_in self.old)) step.new (left self.new)) }
        ensures rests { OnOk result (MatchNext step.new (Unit {0}) (left self.new ≡ goes_on (done (names_in self.new)))) }
        ensures counted { OnOk result (self.new.begun ≡ self.old.begun) }
        ensures kept { OnErr result (StaysBegun self.old self.new) }
        ensures memory_alone { IsOkUnless result Errno.NoMemory }
    {
        match tool_of(alloc, under_way(&self.line)) {
            Ok(tool) => {
                self.client = Client::new(alloc, tool, 2 * self.begun);
                self.run(alloc, None, step)
            }
            Err(ArgFault::Usage) => {
                let text = usage_text(alloc, first_word(under_way(&self.line)))?;
                self.show(text, step);
                Ok(())
            }
            Err(ArgFault::NoMemory) => Err(Errno::NoMemory),
        }
    }

    /// The next step of the tool that runs.
    pub(crate) fn run(
        &mut self,
        alloc: Global,
        got: Option<&Got>,
        step: &mut Next,
    ) -> Result<(), Errno>
        ensures goes { OnOk result (Goes (given (then_left (client_left self.old.client) (λ _. done (names_in self.old))) (option_copied got.entry)) step.new (left self.new)) }
        ensures rests { OnOk result (MatchNext step.new (Unit {0}) (left self.new ≡ goes_on (done (names_in self.new)))) }
        ensures counted { OnOk result (self.new.begun ≡ self.old.begun) }
        ensures kept { OnErr result (StaysLeft self.old self.new) }
        ensures memory_alone { IsOkUnless result Errno.NoMemory }
    {
        self.client.put_next(alloc, got, step)?;
        match &*step {
            Next::Call(_) => {
                self.stage = Stage::Running;
                Ok(())
            }
            Next::Print(_) => {
                self.stage = Stage::Running;
                Ok(())
            }
            Next::End => {
                self.end(step);
                Ok(())
            }
        }
    }

    /// Tells the result of the statement's operation.
    pub(crate) fn reply(
        &mut self,
        alloc: Global,
        reply: &SaidFormat,
        got: Option<&Got>,
        step: &mut Next,
    ) -> Result<(), Errno>
        requires line { is_there (Stage.Waiting reply.now) self.old.line ≡ true }
        requires begun { self.old.begun ≤ 2147483647 }
        ensures goes { OnOk result (Goes (given (waits (λ got. replied_said reply.now (names_in self.old) (slot_in self.old) (words_in self.old) got)) (option_copied got.entry)) step.new (left self.new)) }
        ensures rests { OnOk result (MatchNext step.new (Unit {0}) (left self.new ≡ goes_on (done (names_in self.new)))) }
        ensures counted { OnOk result (self.new.begun ≡ self.old.begun) }
        ensures kept { OnErr result (StaysLeft self.old self.new) }
        ensures memory_alone { IsOkUnless result Errno.NoMemory }
    {
        let none = Got::Done;
        let got = match got {
            Some(got) => got,
            None => &none,
        };
        match got.refusal() {
            Some(errno) => self.refuse(alloc, errno, step),
            None => self.tell(alloc, reply, got, step),
        }
    }

    /// Tells a result that is no refusal.
    fn tell(
        &mut self,
        alloc: Global,
        reply: &SaidFormat,
        got: &Got,
        step: &mut Next,
    ) -> Result<(), Errno>
        requires line { is_there (Stage.Waiting reply.now) self.old.line ≡ true }
        requires begun { self.old.begun ≤ 2147483647 }
        ensures goes { OnOk result (Goes (told_said reply.now (names_in self.old) (slot_in self.old) (words_in self.old) got.now) step.new (left self.new)) }
        ensures rests { OnOk result (MatchNext step.new (Unit {0}) (left self.new ≡ goes_on (done (names_in self.new)))) }
        ensures counted { OnOk result (self.new.begun ≡ self.old.begun) }
        ensures kept { OnErr result (StaysLeft self.old self.new) }
        ensures memory_alone { IsOkUnless result Errno.NoMemory }
    {
        let text = match reply {
            SaidFormat::Silent => {
                self.end(step);
                return Ok(());
            }
            SaidFormat::Opened(name) => return self.opened(name, step),
            SaidFormat::Closed => {
                remove_file(&mut self.files, file_name(under_way(&self.line)));
                self.end(step);
                return Ok(());
            }
            SaidFormat::Made(name) => {
                return self.made(alloc, name, TalkFileKind::Request, got.bytes(), step);
            }
            SaidFormat::OldMade(kind, name) => {
                return self.made(alloc, name, *kind, got.bytes(), step);
            }
            SaidFormat::OldBytes { kind, command } => old_structure_line(
                alloc,
                *kind,
                *command,
                under_way(&self.line),
                got.bytes(),
            )?,
            SaidFormat::OldEdges => old_edges_text(alloc, got.bytes())?,
            SaidFormat::Value => value_line(alloc, got)?,
            SaidFormat::Level(is_pull) => line_of(alloc, level_text(*is_pull, number_of(got)))?,
            SaidFormat::Bytes(command) => structure_text(alloc, *command, got.bytes())?,
            SaidFormat::Edges => edges_text(alloc, got.bytes())?,
            SaidFormat::Infos => infos_text(alloc, got.bytes())?,
            SaidFormat::Ready => line_of(alloc, ready_text(got.ready()))?,
        };
        self.show(text, step);
        Ok(())
    }

    /// A chip's file of this name was opened.
    fn opened(&mut self, name: &Name, step: &mut Next) -> Result<(), Errno>
        requires { self.old.begun ≤ 2147483647 }
        ensures goes { OnOk result (Goes (done (with_file (file_said name.now (slot_in self.old) TalkFileKind.Chip) (names_in self.old))) step.new (left self.new)) }
        ensures rests { OnOk result (MatchNext step.new (Unit {0}) (left self.new ≡ goes_on (done (names_in self.new)))) }
        ensures counted { OnOk result (self.new.begun ≡ self.old.begun) }
        ensures kept { OnErr result (StaysLeft self.old self.new) }
        ensures memory_alone { IsOkUnless result Errno.NoMemory }
    {
        self.files.push(TalkFile {
            name: *name,
            slot: 2 * self.begun,
            kind: TalkFileKind::Chip,
        })?;
        self.end(step);
        Ok(())
    }

    /// A file of this name and kind was made: a request, or a file of the first uAPI.
    fn made(
        &mut self,
        alloc: Global,
        name: &Name,
        kind: TalkFileKind,
        bytes: &[u8],
        step: &mut Next,
    ) -> Result<(), Errno>
        requires { self.old.begun ≤ 2147483647 }
        ensures goes { OnOk result (Goes (shows (fd_text bytes.now) (with_file (file_said name.now (slot_in self.old) kind) (names_in self.old))) step.new (left self.new)) }
        ensures rests { OnOk result (MatchNext step.new (Unit {0}) (left self.new ≡ goes_on (done (names_in self.new)))) }
        ensures counted { OnOk result (self.new.begun ≡ self.old.begun) }
        ensures kept { OnErr result (StaysLeft self.old self.new) }
        ensures memory_alone { IsOkUnless result Errno.NoMemory }
    {
        let text = fd_text(alloc, bytes)?;
        self.files.push(TalkFile {
            name: *name,
            slot: 2 * self.begun,
            kind,
        })?;
        self.show(text, step);
        Ok(())
    }

    /// Closes all open files, that which was opened first before the others.
    pub(crate) fn close_all(&mut self, alloc: Global, step: &mut Next) -> Result<(), Errno>
        ensures goes { OnOk result (Goes (quits (names_in self.old)) step.new (left self.new)) }
        ensures rests { OnOk result (MatchNext step.new (Unit {0}) (left self.new ≡ goes_on (done (names_in self.new)))) }
        ensures counted { OnOk result (self.new.begun ≡ self.old.begun) }
        ensures kept { OnErr result (self.new ≡ self.old) }
        ensures memory_alone { IsOkUnless result Errno.NoMemory }
    {
        self.closing = slots_in_order(alloc, &self.files, &self.sets, &self.monitors)?;
        self.close(step);
        Ok(())
    }

    /// Closes the first of the files that are still to be closed, or ends where none is; then no name is there.
    pub(crate) fn close(&mut self, step: &mut Next)
        ensures goes { Goes (closes_all self.old.closing.items) step.new (left self.new) }
        ensures rests { MatchNext step.new (Unit {0}) (left self.new ≡ goes_on (done (names_in self.new))) }
        ensures counted { self.new.begun ≡ self.old.begun }
    {
        if self.closing.is_empty() {
            self.files.clear();
            self.sets.clear();
            self.monitors.clear();
            self.in_setup = false;
            return self.end(step);
        }
        let slot = self.closing.remove(0);
        self.stage = Stage::Closing;
        *step = Next::Call(Do::Close { slot });
    }
}

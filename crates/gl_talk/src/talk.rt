//! Statements one after the other.
ghost use Rattle.std.specs.Prelude.{◌≡◌, ◌+◌, ◌*◌, ◌<◌, ◌≤◌, true, [], ◌∷◌, List, IfOk, OnOk, OnErr, IsOkUnless, option_copied};
ghost use Rattle.gl_client.specs.Program.{Goes, MatchNext, given, goes_on, done, then_left};
ghost use Rattle.gl_base.specs.Words.{Span};
ghost use Rattle.gl_talk.specs.UnderWay.{is_there};

use crate::actions::SaidFormat;
use crate::copied::CopiedStatement;
use crate::files::{TalkFile, file_of, is_chip};
use crate::held::{MonitorRow, SetRow};
use gl_base::{Errno, Got, Name};
use gl_client::Next;
use gl_monitor::Monitor;
use gl_script::Statement;
use gl_values::Client;
use std::alloc::Global;

/// Where a talk stands.
#[derive(Clone, Copy)]
pub enum Stage {
    /// No statement is under way.
    Idle,
    /// A statement was begun.
    Begun,
    /// The result of its operation is awaited, which is then told in this way.
    Waiting(SaidFormat),
    /// A tool runs as a statement of its own.
    Running,
    /// The gpioset of this name is started or stopped.
    Holding(Name),
    /// The monitor of this name is started or stopped, or makes a step.
    Watching(Name),
    /// The files that are open are closed.
    Quitting,
    /// One of them is being closed.
    Closing,
}

/// The statements of an actor one after the other, as a client of the device: each has slots of its own, and the names
/// of files and of started tools live from one to the next.
#[derive(Drop)]
pub struct Talk {
    /// The statement that is under way, or the one before; none before the first.
    pub line: Option<CopiedStatement>,
    /// The open files, in the order in which they were opened.
    pub files: Vec<TalkFile>,
    /// The gpiosets that were started and hold their requests.
    pub sets: Vec<SetRow>,
    /// The monitors that were started and watch their lines.
    pub monitors: Vec<MonitorRow>,
    /// Whether its statements are those of `setup`.
    pub in_setup: bool,
    /// How many statements were begun.
    pub begun: u32,
    /// Where it stands.
    pub stage: Stage,
    /// The gpiodetect, gpioinfo, gpioget or gpioset of the statement.
    pub client: Client,
    /// The monitor of the statement.
    pub monitor: Option<Monitor>,
    /// The slots that are still to be closed at the end.
    pub closing: Vec<u32>,
    pub ghost under_way: { is_there stage line ≡ true },
}

impl Talk {
    ghost use Rattle.gl_talk.specs.Open.{Names, file_of, is_chip_file, left_setup, no_names, setup_names};
    ghost use Rattle.gl_talk.specs.Over.{columns_in};
    ghost use Rattle.gl_talk.specs.Talk.{Does, does, left, names_in, quits, slot_behind, talk_left, talks};

    /// No statement was begun, and no file is open. Its statements are those of another section than `setup`.
    pub fn new(alloc: Global) -> Result<Talk, Errno>
        ensures ok { IfOk result (λ talk. (names_in talk ≡ no_names) × (talk.begun ≡ 0) × (left talk ≡ goes_on (done no_names))) }
        ensures memory_alone { IsOkUnless result Errno.NoMemory }
    {
        Talk::in_section(alloc, false)
    }

    /// The same, of the statements of `setup`.
    pub fn for_setup(alloc: Global) -> Result<Talk, Errno>
        ensures ok { IfOk result (λ talk. (names_in talk ≡ setup_names) × (talk.begun ≡ 0) × (left talk ≡ goes_on (done setup_names))) }
        ensures memory_alone { IsOkUnless result Errno.NoMemory }
    {
        Talk::in_section(alloc, true)
    }

    fn in_section(alloc: Global, in_setup: bool) -> Result<Talk, Errno>
        ensures ok { IfOk result (λ talk. (names_in talk ≡ record no_names { in_setup = in_setup }) × (talk.begun ≡ 0) × (left talk ≡ goes_on (done (record no_names { in_setup = in_setup })))) }
        ensures memory_alone { IsOkUnless result Errno.NoMemory }
    {
        Ok(Talk {
            line: None,
            files: Vec::new(alloc),
            sets: Vec::new(alloc),
            monitors: Vec::new(alloc),
            in_setup,
            begun: 0,
            stage: Stage::Idle,
            client: Client::Nothing,
            monitor: None,
            closing: Vec::new(alloc),
        })
    }

    /// The statements that are begun from now on are those of another section than `setup`. (It gives up a statement that is under way: let it
    /// come to its end before.)
    pub fn leave_setup(&mut self)
        ensures left { left self.new ≡ goes_on (done (left_setup (names_in self.old))) }
        ensures names { names_in self.new ≡ left_setup (names_in self.old) }
        ensures counted { self.new.begun ≡ self.old.begun }
    {
        self.in_setup = false;
        self.stage = Stage::Idle;
    }

    /// Begins a statement, which has two slots of its own. It is copied; `NoMemory` alone is refused, and then all is as it was.
    pub fn begin(&mut self, alloc: Global, statement: &Statement<'_>) -> Result<(), Errno>
        requires { self.old.begun < 2147483647 }
        ensures begun { OnOk result (left self.new ≡ goes_on (does (names_in self.old) (slot_behind self.old.begun) (columns_in statement.now))) }
        ensures counted { OnOk result (self.new.begun ≡ self.old.begun + 1) }
        ensures whole { (statements : List (List Span)) →
            OnOk result (talk_left self.new statements ≡ goes_on (talks self.old.begun (columns_in statement.now ∷ statements) (names_in self.old))) }
        ensures kept { OnErr result (self.new ≡ self.old) }
        ensures memory_alone { IsOkUnless result Errno.NoMemory }
    {
        let line = CopiedStatement::of(alloc, statement)?;
        self.line = Some(line);
        self.begun += 1;
        self.stage = Stage::Begun;
        Ok(())
    }

    /// Whether a chip's file has this name.
    pub fn has_chip(&self, name: &[u8]) -> bool
        ensures { result ≡ is_chip_file (file_of name.now (names_in self.now).files) }
    {
        match file_of(&self.files, name) {
            Some(file) => is_chip(file.kind),
            None => false,
        }
    }

    /// From now on `next` closes the files that are open.
    pub fn quit(&mut self)
        ensures quits { left self.new ≡ goes_on (quits (names_in self.old)) }
        ensures counted { self.new.begun ≡ self.old.begun }
        ensures whole { left self.new ≡ goes_on (talks self.old.begun [] (names_in self.old)) }
    {
        self.stage = Stage::Quitting;
    }

    /// What it does next. `got` is the result of the operation that it asked for last, if it asked for one. End means
    /// that the statement is done, or that all files are closed; the names that are there then are said by what is
    /// left. With anything that may come after it, it is what the whole does next; so with the talk's further statements.
    /// When out of memory, what is left is what was left: no tool and no file is lost, and it may be called again with the same
    /// result. (`quit` gives up a statement that is under way: let it come to its end before.)
    pub fn next(&mut self, alloc: Global, got: Option<&Got>) -> Result<Next, Errno>
        requires { self.old.begun ≤ 2147483647 }
        ensures goes { IfOk result (λ next. Goes (given (left self.old) (option_copied got.entry)) next (left self.new)) }
        ensures rests { IfOk result (λ next. MatchNext next (Unit {0}) (left self.new ≡ goes_on (done (names_in self.new)))) }
        ensures in_front { (behind : Names → Does) → IfOk result (λ next. MatchNext next
            (Goes (given (then_left (left self.old) behind) (option_copied got.entry)) next (then_left (left self.new) behind))
            (given (then_left (left self.old) behind) (option_copied got.entry) ≡ behind (names_in self.new))) }
        ensures whole { (statements : List (List Span)) → IfOk result (λ next. MatchNext next
            (Goes (given (talk_left self.old statements) (option_copied got.entry)) next (talk_left self.new statements))
            (given (talk_left self.old statements) (option_copied got.entry) ≡ talks self.new.begun statements (names_in self.new))) }
        ensures counted { OnOk result (self.new.begun ≡ self.old.begun) }
        ensures kept { OnErr result ((left self.new ≡ left self.old) × (self.new.begun ≡ self.old.begun)) }
        ensures memory_alone { IsOkUnless result Errno.NoMemory }
    {
        let mut step = Next::End;
        self.put_next(alloc, got, &mut step)?;
        Ok(step)
    }

    /// Puts into `step` what it does next, as `next` answers it. When out of memory `step` means nothing.
    #[tactic(auto, using(crate::proofs::Staying::left_stays))]
    pub fn put_next(
        &mut self,
        alloc: Global,
        got: Option<&Got>,
        step: &mut Next,
    ) -> Result<(), Errno>
        requires { self.old.begun ≤ 2147483647 }
        ensures goes { OnOk result (Goes (given (left self.old) (option_copied got.entry)) step.new (left self.new)) }
        ensures rests { OnOk result (MatchNext step.new (Unit {0}) (left self.new ≡ goes_on (done (names_in self.new)))) }
        ensures counted { OnOk result (self.new.begun ≡ self.old.begun) }
        ensures kept { OnErr result ((left self.new ≡ left self.old) × (self.new.begun ≡ self.old.begun)) }
        ensures memory_alone { IsOkUnless result Errno.NoMemory }
    {
        let stage = self.stage;
        match &stage {
            Stage::Idle => {
                self.end(step);
                Ok(())
            }
            Stage::Begun => self.start(alloc, step),
            Stage::Waiting(reply) => self.reply(alloc, reply, got, step),
            Stage::Running => self.run(alloc, got, step),
            Stage::Holding(name) => self.hold(alloc, name, got, step),
            Stage::Watching(name) => self.watch(alloc, name, got, step),
            Stage::Quitting => self.close_all(alloc, step),
            Stage::Closing => {
                self.close(step);
                Ok(())
            }
        }
    }
}

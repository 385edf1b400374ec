//! A line that is under way: it was begun, and isn't answered yet.

ghost use Rattle.std.specs.Prelude.{true, false, ◌≡◌, ◌++◌, [], None, Some, IfOk, OnOk, OnErr, IsOkUnless};
ghost use Rattle.std.specs.Str.{bytes_eq};
ghost use Rattle.gl_client.specs.Program.{Left, Program, done};
ghost use Rattle.gl_talk.specs.Open.{Names};
ghost use Rattle.gl_check.specs.One.{PlannedPort, Standing};
ghost use Rattle.gl_served.specs.UnderWay.{Advances, CarriedOut, HasGone, IsAsBefore, first_or, left_by, text_shown, told_by};
ghost use Rattle.gl_served.specs.declared.alone.Alone.{Alone};

use crate::question::{bytes_line, put_text_or};
use gl_base::{ByteList, Do, Errno, Got};
use gl_client::Next;
use std::alloc::Global;

/// What comes next of a line that is under way.
#[derive(Drop)]
pub enum Step {
    /// The talk is asked what it does next, by this result if it waits for one.
    Told(Option<Got>),
    /// This operation is carried out.
    Asks(Do),
    /// This text is printed.
    Prints(ByteList),
}

/// A line that is under way. When out of memory it stays as it is, and goes on when the line is given again.
#[derive(Drop)]
pub struct UnderWay {
    /// The line, as it was given.
    pub line: Vec<u8>,
    /// Whether it is a `data`, which prints the bytes that were read.
    pub reads: bool,
    /// What comes next.
    pub step: Step,
    /// What its first operation was answered, once the talk was told it.
    pub first: Option<Got>,
    /// What its statement printed.
    pub printed: Vec<u8>,
}

impl UnderWay {
    /// A line of which nothing was done.
    pub fn new(alloc: Global, reads: bool, line: &[u8]) -> Result<UnderWay, Errno>
        ensures line { IfOk result (λ u. u.line.items ≡ line.now) }
        ensures reads { IfOk result (λ u. u.reads ≡ reads) }
        ensures step { IfOk result (λ u. u.step ≡ Step.Told None) }
        ensures first { IfOk result (λ u. u.first ≡ None) }
        ensures printed { IfOk result (λ u. u.printed.items ≡ []) }
        ensures memory_alone { IsOkUnless result Errno.NoMemory }
    {
        let line = line.to_vec(alloc)?;
        Ok(UnderWay {
            line,
            reads,
            step: Step::Told(None),
            first: None,
            printed: Vec::new(alloc),
        })
    }

    /// Whether it is this line.
    pub fn is_line(&self, line: &[u8]) -> bool
        ensures { result ≡ bytes_eq self.now.line.items line.now }
    {
        self.line.as_slice() == line
    }

    /// The talk was told this result, and does this next, or is at its end, where there is no more. When out of memory it is still to be told.
    pub fn told(&mut self, next: Result<Next, Errno>, got: Option<Got>) -> Result<bool, Errno>
        ensures same { IsAsBefore self.old self.new }
        ensures gone { (p : Program Names) (s : Standing PlannedPort) (before after : Left Names) (names : Names) (a : Alone) → Advances next before got after names
            → HasGone p s (Step.Told got) self.old.first self.old.printed.items before a → HasGone p s self.new.step self.new.first self.new.printed.items after a }
        ensures ended { (before after : Left Names) (names : Names) → Advances next before got after names → IfOk result (λ more. more ≡ false → left_by after self.new.step ≡ done names) }
        ensures told { IfOk result (λ more. more ≡ false → told_by self.new.step ≡ None) }
        ensures memory_alone { IsOkUnless next Errno.NoMemory → IsOkUnless result Errno.NoMemory }
    {
        match next {
            Ok(Next::Call(what)) => {
                self.was_told(got, Step::Asks(what));
                Ok(true)
            }
            Ok(Next::Print(text)) => {
                self.was_told(got, Step::Prints(text));
                Ok(true)
            }
            Ok(Next::End) => {
                self.was_told(got, Step::Told(None));
                Ok(false)
            }
            Err(errno) => {
                self.step = Step::Told(got);
                Err(errno)
            }
        }
    }

    /// The operation was answered this, and there may be more. When out of memory it is still to be carried out.
    pub fn did(&mut self, what: &Do, got: Result<Got, Errno>) -> Result<bool, Errno>
        ensures same { IsAsBefore self.old self.new }
        ensures gone { (p : Program Names) (s : Standing PlannedPort) (left : Left Names) (a b : Alone) → CarriedOut what.now got a b
            → HasGone p s (Step.Asks what.now) self.old.first self.old.printed.items left a → HasGone p s self.new.step self.new.first self.new.printed.items left b }
        ensures more { IfOk result (λ more. more ≡ true) }
        ensures memory_alone { IsOkUnless got Errno.NoMemory → IsOkUnless result Errno.NoMemory }
    {
        match got {
            Ok(got) => {
                self.step = Step::Told(Some(got));
                Ok(true)
            }
            Err(errno) => {
                self.step = Step::Asks(*what);
                Err(errno)
            }
        }
    }

    /// The talk was told this result, and this comes next.
    fn was_told(&mut self, got: Option<Got>, step: Step)
        ensures same { IsAsBefore self.old self.new }
        ensures step { self.new.step ≡ step }
        ensures first { self.new.first ≡ first_or self.old.first got }
        ensures printed { self.new.printed ≡ self.old.printed }
    {
        let first = self.first.take();
        self.first = first_or(first, got);
        self.step = step;
    }

    /// Prints a text, and there may be more. When out of memory it is still to be printed.
    pub fn print(&mut self, text: ByteList) -> Result<bool, Errno>
        ensures same { IsAsBefore self.old self.new }
        ensures gone { (p : Program Names) (s : Standing PlannedPort) (left : Left Names) (a : Alone)
            → HasGone p s (Step.Prints text) self.old.first self.old.printed.items left a → HasGone p s self.new.step self.new.first self.new.printed.items left a }
        ensures more { IfOk result (λ more. more ≡ true) }
        ensures memory_alone { IsOkUnless result Errno.NoMemory }
    {
        match self.printed.extend_from_slice(text.as_slice()) {
            Ok(()) => {
                self.step = Step::Told(None);
                Ok(true)
            }
            Err(_) => {
                self.step = Step::Prints(text);
                Err(Errno::NoMemory)
            }
        }
    }

    /// Appends what the line prints, at the end of its statement. When out of memory nothing is appended.
    pub fn give(&self, alloc: Global, out: &mut Vec<u8>) -> Result<(), Errno>
        ensures ok { OnOk result (out.new.items ≡ out.old.items ++ text_shown self.now.reads self.now.first self.now.printed.items) }
        ensures kept { OnErr result (out.new.items ≡ out.old.items) }
        ensures memory_alone { IsOkUnless result Errno.NoMemory }
    {
        if self.reads {
            self.give_read(alloc, out)
        } else {
            out.extend_from_slice(&self.printed)?;
            Ok(())
        }
    }

    /// Appends the bytes that were read, or else what the statement printed.
    fn give_read(&self, alloc: Global, out: &mut Vec<u8>) -> Result<(), Errno>
        ensures ok { OnOk result (out.new.items ≡ out.old.items ++ text_shown true self.now.first self.now.printed.items) }
        ensures kept { OnErr result (out.new.items ≡ out.old.items) }
        ensures memory_alone { IsOkUnless result Errno.NoMemory }
    {
        let read = bytes_line(alloc, &self.first)?;
        put_text_or(&read, &self.printed, out)
    }
}

/// The first of two results, where there is one.
fn first_or(first: Option<Got>, other: Option<Got>) -> Option<Got>
    ensures { result ≡ first_or first other }
{
    match first {
        Some(got) => Some(got),
        None => other,
    }
}

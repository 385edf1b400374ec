//! gpioset.
ghost use Rattle.std.specs.Prelude.{◌≡◌, true, false, not, is_some, None, IfOk, OnOk, OnErr, IsOkUnless, option_copied};
ghost use Rattle.gl_args.specs.Options.{options_in};
ghost use Rattle.gl_client.specs.Program.{Goes, given, goes_on, done, then_by, MatchNext};
ghost use Rattle.gl_lines.specs.Finding.{Finding, left};
ghost use Rattle.gl_values.specs.Set.{sets, behind, stops, closes, closed, has_ended, held_of, set_left};

use gl_args::{Opts, ToolName};
use gl_base::{Do, Errno, Got};
use gl_client::Next;
use gl_lines::{Finder, failed_line};
use std::alloc::Global;

/// What gpioset does with its request.
#[derive(Clone, Copy, PartialEq, Eq)]
pub enum Hold {
    /// It closes it at once.
    No,
    /// It holds it until it is stopped.
    Yes,
}

/// Where gpioset stands.
#[derive(Clone, Copy)]
pub enum SetStage {
    /// Before its beginning.
    Begin,
    /// It finds and requests its lines.
    Finding,
    /// It holds its lines.
    Holding,
    /// It was stopped.
    Stopped,
    /// The request is being closed.
    Closing,
    /// The closing was refused, and that was printed.
    NotClosed,
    /// It has ended.
    Ended,
}

/// gpioset.
#[derive(Drop)]
pub struct Set {
    /// What finds and requests its lines.
    pub finder: Finder,
    /// What it does with its request.
    pub hold: Hold,
    /// Where it stands.
    pub stage: SetStage,
}

impl Set {
    /// gpioset with these options. Its chip file has the slot `base`, its request the slot `made`.
    pub fn new(alloc: Global, opts: Opts, hold: Hold, base: u32, made: u32) -> Set
        ensures { set_left result ≡ goes_on (sets hold base made (options_in opts)) }
    {
        Set {
            finder: Finder::new(alloc, ToolName::Set, base, made, opts),
            hold,
            stage: SetStage::Begin,
        }
    }

    /// What it does next. When out of memory, what is left is what was left, and it holds what it held.
    pub fn next(&mut self, alloc: Global, got: Option<&Got>) -> Result<Next, Errno>
        ensures goes { IfOk result (λ next. Goes (given (set_left self.old) (option_copied got.entry)) next (set_left self.new)) }
        ensures rests { IfOk result (λ next. MatchNext next (Unit {0}) (set_left self.new ≡ goes_on (done (held_of self.new)))) }
        ensures ended { IfOk result (λ next. MatchNext next (has_ended self.new.stage ≡ false) (has_ended self.new.stage ≡ not (is_some (held_of self.new)))) }
        ensures kept { OnErr result ((set_left self.new ≡ set_left self.old) × (held_of self.new ≡ held_of self.old)) }
        ensures memory_alone { IsOkUnless result Errno.NoMemory }
    {
        let mut step = Next::End;
        self.put_next(alloc, got, &mut step)?;
        Ok(step)
    }

    /// Puts into `step` what it does next, as `next` answers it. When out of memory `step` means nothing.
    pub(crate) fn put_next(
        &mut self,
        alloc: Global,
        got: Option<&Got>,
        step: &mut Next,
    ) -> Result<(), Errno>
        ensures goes { OnOk result (Goes (given (set_left self.old) (option_copied got.entry)) step.new (set_left self.new)) }
        ensures rests { OnOk result (MatchNext step.new (Unit {0}) (set_left self.new ≡ goes_on (done (held_of self.new)))) }
        ensures ended { OnOk result (MatchNext step.new (has_ended self.new.stage ≡ false) (has_ended self.new.stage ≡ not (is_some (held_of self.new)))) }
        ensures kept { OnErr result ((set_left self.new ≡ set_left self.old) × (held_of self.new ≡ held_of self.old)) }
        ensures memory_alone { IsOkUnless result Errno.NoMemory }
    {
        let none = Got::Done;
        let told = match got {
            Some(got) => got,
            None => &none,
        };
        let stage = self.stage;
        match &stage {
            SetStage::Begin => {
                self.finder.put_first(alloc, step)?;
                self.go_on(step);
                Ok(())
            }
            SetStage::Finding => {
                self.finder.put_next(alloc, got, step)?;
                self.go_on(step);
                Ok(())
            }
            SetStage::Holding => {
                *step = Next::End;
                Ok(())
            }
            SetStage::Stopped => {
                self.close(step);
                Ok(())
            }
            SetStage::Closing => self.closed(alloc, told.refusal(), step),
            SetStage::NotClosed => {
                self.end(step);
                Ok(())
            }
            SetStage::Ended => {
                *step = Next::End;
                Ok(())
            }
        }
    }

    /// Whether it has ended: so it is from the End on at which it holds nothing. Then nothing is left of its program.
    pub fn ended(&self) -> bool
        ensures told { result ≡ has_ended self.now.stage }
        ensures nothing_left { result ≡ true → set_left self.now ≡ goes_on (done None) }
    {
        match &self.stage {
            SetStage::Ended => true,
            SetStage::Begin
            | SetStage::Finding
            | SetStage::Holding
            | SetStage::Stopped
            | SetStage::Closing
            | SetStage::NotClosed => false,
        }
    }

    /// The slot of the request that it holds, if it holds one.
    pub fn held_slot(&self) -> Option<u32>
        ensures { result ≡ held_of self.now }
    {
        match &self.stage {
            SetStage::Holding => Some(self.finder.made),
            SetStage::Begin
            | SetStage::Finding
            | SetStage::Stopped
            | SetStage::Closing
            | SetStage::NotClosed
            | SetStage::Ended => None,
        }
    }

    /// Stops it where it holds its lines: the request is closed next.
    pub fn stop(&mut self)
        ensures { set_left self.new ≡ goes_on (stops (held_of self.old)) }
    {
        let stage = self.stage;
        match &stage {
            SetStage::Holding => self.stage = SetStage::Stopped,
            SetStage::Begin
            | SetStage::Finding
            | SetStage::Stopped
            | SetStage::Closing
            | SetStage::NotClosed
            | SetStage::Ended => self.stage = SetStage::Ended,
        }
    }

    /// Goes on after a step of what finds its lines.
    fn go_on(&mut self, step: &mut Next)
        ensures goes { (p : Finding) → Goes p step.old (left self.old.finder) → Goes (then_by p (behind self.old.hold self.old.finder.made)) step.new (set_left self.new) }
        ensures rests { MatchNext step.new (Unit {0}) (set_left self.new ≡ goes_on (done (held_of self.new))) }
        ensures ended { MatchNext step.new (has_ended self.new.stage ≡ false) (has_ended self.new.stage ≡ not (is_some (held_of self.new))) }
    {
        match &*step {
            Next::Call(_) => self.stage = SetStage::Finding,
            Next::Print(_) => self.stage = SetStage::Finding,
            Next::End => {
                if !self.finder.has_found() {
                    return self.end(step);
                }
                let hold = self.hold;
                match &hold {
                    Hold::No => self.close(step),
                    Hold::Yes => self.stage = SetStage::Holding,
                }
            }
        }
    }

    /// Closes its request.
    fn close(&mut self, step: &mut Next)
        ensures goes { Goes (closes self.old.finder.made) step.new (set_left self.new) }
        ensures asks { MatchNext step.new (has_ended self.new.stage ≡ false) ⊥ }
    {
        self.stage = SetStage::Closing;
        *step = Next::Call(Do::Close {
            slot: self.finder.made,
        });
    }

    fn closed(
        &mut self,
        alloc: Global,
        refusal: Option<Errno>,
        step: &mut Next,
    ) -> Result<(), Errno>
        ensures goes { OnOk result (Goes (closed refusal) step.new (set_left self.new)) }
        ensures ended { OnOk result (MatchNext step.new (has_ended self.new.stage ≡ false) (self.new.stage ≡ SetStage.Ended)) }
        ensures kept { OnErr result (self.new ≡ self.old) }
        ensures memory_alone { IsOkUnless result Errno.NoMemory }
    {
        match refusal {
            Some(errno) => {
                let text = failed_line(alloc, ToolName::Set, errno)?;
                self.stage = SetStage::NotClosed;
                *step = Next::Print(text);
                Ok(())
            }
            None => {
                self.end(step);
                Ok(())
            }
        }
    }

    /// Ends.
    fn end(&mut self, step: &mut Next)
        ensures end { step.new ≡ Next.End }
        ensures stage { self.new.stage ≡ SetStage.Ended }
    {
        self.stage = SetStage::Ended;
        *step = Next::End;
    }
}

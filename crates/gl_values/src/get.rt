//! gpioget.
ghost use Rattle.std.specs.Prelude.{◌≡◌, List, Some, IfOk, OnOk, OnErr, IsOkUnless, option_copied};
ghost use Rattle.gl_args.specs.Options.{options_in};
ghost use Rattle.gl_client.specs.Program.{Goes, given, goes_on, print, then_by};
ghost use Rattle.gl_lines.specs.declared.found_line.FoundLine.{FoundLine};
ghost use Rattle.gl_lines.specs.Finding.{Finding, left};
ghost use Rattle.gl_lines.specs.Texts.{failed_line};
ghost use Rattle.gl_values.specs.Get.{tool, gets, get, asked, closed, leaves, bits_in, get_left};

use crate::get_text::values_line;
use gl_args::{Opts, ToolName};
use gl_base::command::LINE_GET_VALUES;
use gl_base::{Do, Errno, Got};
use gl_client::Next;
use gl_lines::{Finder, failed_line, values_sent};
use gl_uapi::ValuesRef;
use std::alloc::Global;

/// Where gpioget stands.
#[derive(Clone, Copy)]
pub enum GetStage {
    /// Before its beginning.
    Begin,
    /// It finds and requests its lines.
    Finding,
    /// The values are asked for.
    Asking,
    /// The request is being closed, with these values.
    Closing(u64),
    /// A refusal was printed, and the request is open.
    LineOpen,
    /// The request is closed for the last time.
    Leaving,
    /// It has ended.
    Ended,
}

/// gpioget.
#[derive(Drop)]
pub struct Get {
    /// What finds and requests its lines.
    pub finder: Finder,
    /// Where it stands.
    pub stage: GetStage,
}

impl Get {
    /// gpioget with these options. Its chip file has the slot `base`, its request the slot `made`.
    pub fn new(alloc: Global, opts: Opts, base: u32, made: u32) -> Get
        ensures { get_left result ≡ goes_on (gets base made (options_in opts)) }
    {
        Get {
            finder: Finder::new(alloc, ToolName::Get, base, made, opts),
            stage: GetStage::Begin,
        }
    }

    /// What it does next. When out of memory, what is left is what was left.
    pub fn next(&mut self, alloc: Global, got: Option<&Got>) -> Result<Next, Errno>
        ensures goes { IfOk result (λ next. Goes (given (get_left self.old) (option_copied got.entry)) next (get_left self.new)) }
        ensures kept { OnErr result (get_left self.new ≡ get_left self.old) }
        ensures memory_alone { IsOkUnless result Errno.NoMemory }
    {
        let mut step = Next::End;
        self.put_next(alloc, got, &mut step)?;
        Ok(step)
    }

    /// Puts into `step` what it does next, as `next` answers it. When out of memory `step` means nothing.
    pub(crate) fn put_next(
        &mut self,
        alloc: Global,
        got: Option<&Got>,
        step: &mut Next,
    ) -> Result<(), Errno>
        ensures goes { OnOk result (Goes (given (get_left self.old) (option_copied got.entry)) step.new (get_left self.new)) }
        ensures kept { OnErr result (get_left self.new ≡ get_left self.old) }
        ensures memory_alone { IsOkUnless result Errno.NoMemory }
    {
        let none = Got::Done;
        let told = match got {
            Some(got) => got,
            None => &none,
        };
        let stage = self.stage;
        match &stage {
            GetStage::Begin => {
                self.finder.put_first(alloc, step)?;
                self.go_on(step);
                Ok(())
            }
            GetStage::Finding => {
                self.finder.put_next(alloc, got, step)?;
                self.go_on(step);
                Ok(())
            }
            GetStage::Asking => self.asked(alloc, told.refusal(), told.bytes(), step),
            GetStage::Closing(bits) => self.closed(alloc, *bits, told.refusal(), step),
            GetStage::LineOpen => {
                self.leave(step);
                Ok(())
            }
            GetStage::Leaving | GetStage::Ended => {
                self.stage = GetStage::Ended;
                *step = Next::End;
                Ok(())
            }
        }
    }

    /// Goes on after a step of what finds its lines.
    fn go_on(&mut self, step: &mut Next)
        ensures { (p : Finding) → Goes p step.old (left self.old.finder) → Goes (then_by p (get self.old.finder.made (options_in self.old.finder.opts))) step.new (get_left self.new) }
    {
        match &*step {
            Next::Call(_) => self.stage = GetStage::Finding,
            Next::Print(_) => self.stage = GetStage::Finding,
            Next::End => {
                if self.finder.has_found() {
                    return self.ask(step);
                }
                self.stage = GetStage::Ended;
            }
        }
    }

    /// Asks for the values.
    fn ask(&mut self, step: &mut Next)
        ensures { (found : List FoundLine) → Goes (get self.old.finder.made (options_in self.old.finder.opts) (Some found)) step.new (get_left self.new) }
    {
        self.stage = GetStage::Asking;
        *step = Next::Call(Do::Ioctl {
            slot: self.finder.made,
            cmd: LINE_GET_VALUES,
            len: 16,
            bytes: values_sent(self.finder.opts.lines.len()),
            made: 0,
        });
    }

    fn asked(
        &mut self,
        alloc: Global,
        refusal: Option<Errno>,
        bytes: &[u8],
        step: &mut Next,
    ) -> Result<(), Errno>
        ensures goes { OnOk result (Goes (asked self.old.finder.made (options_in self.old.finder.opts) refusal bytes.now) step.new (get_left self.new)) }
        ensures kept { OnErr result (self.new ≡ self.old) }
        ensures memory_alone { IsOkUnless result Errno.NoMemory }
    {
        match refusal {
            Some(errno) => self.fail_open(alloc, errno, step),
            None => {
                self.stage = GetStage::Closing(bits_in(bytes));
                *step = Next::Call(Do::Close {
                    slot: self.finder.made,
                });
                Ok(())
            }
        }
    }

    fn closed(
        &mut self,
        alloc: Global,
        bits: u64,
        refusal: Option<Errno>,
        step: &mut Next,
    ) -> Result<(), Errno>
        ensures goes { OnOk result (Goes (closed (options_in self.old.finder.opts) bits refusal) step.new (get_left self.new)) }
        ensures kept { OnErr result (self.new ≡ self.old) }
        ensures memory_alone { IsOkUnless result Errno.NoMemory }
    {
        let text = match refusal {
            Some(errno) => failed_line(alloc, ToolName::Get, errno)?,
            None => values_line(alloc, &self.finder.opts, bits)?,
        };
        self.stage = GetStage::Ended;
        *step = Next::Print(text);
        Ok(())
    }

    /// Prints a refusal, with the request open.
    fn fail_open(&mut self, alloc: Global, errno: Errno, step: &mut Next) -> Result<(), Errno>
        ensures goes { OnOk result (Goes (print (failed_line tool errno) (leaves self.old.finder.made)) step.new (get_left self.new)) }
        ensures kept { OnErr result (self.new ≡ self.old) }
        ensures memory_alone { IsOkUnless result Errno.NoMemory }
    {
        let text = failed_line(alloc, ToolName::Get, errno)?;
        self.stage = GetStage::LineOpen;
        *step = Next::Print(text);
        Ok(())
    }

    /// Closes the request for the last time.
    fn leave(&mut self, step: &mut Next)
        ensures { Goes (leaves self.old.finder.made) step.new (get_left self.new) }
    {
        self.stage = GetStage::Leaving;
        *step = Next::Call(Do::Close {
            slot: self.finder.made,
        });
    }
}

/// The bits of values; 0 where there are too few bytes.
fn bits_in(bytes: &[u8]) -> u64
    ensures { result ≡ bits_in bytes.now }
{
    match ValuesRef::of(bytes) {
        Some(values) => values.bits(),
        None => 0,
    }
}

//! gpioinfo.
ghost use Rattle.std.specs.Prelude.{◌≡◌, ◌+◌, ◌<◌, ◌^◌, [], ◌∷◌, IfOk, IsSome, OnOk, OnErr, IsOkUnless, MatchOption, option_copied, is_some};
ghost use Rattle.gl_args.specs.Options.{options_in};
ghost use Rattle.gl_client.specs.Program.{print, Goes, given, goes_on};
ghost use Rattle.gl_lines.specs.Texts.{failed_line};
ghost use Rattle.gl_values.specs.Chips.{ends, leaves, passes_over, words_from, to_words};
ghost use Rattle.gl_values.specs.Info.{tool, infos, info_left, chips_from, opened, asked, told, lines_from, line_told, info_told, closed};

use crate::chip::{Chip, chip_head, chip_query, chip_told, passes_over, word_at};
use crate::info_text::put_line;
use gl_args::{Opts, ToolName};
use gl_base::command::GET_LINEINFO;
use gl_base::{ByteList, Do, Errno, Got, LINES_MAX, Name, Path};
use gl_client::Next;
use gl_lines::{failed_line, info_sent};
use gl_uapi::{Info, InfoRef};
use std::alloc::Global;

/// Where gpioinfo stands.
#[derive(Clone, Copy)]
pub enum InfoStage {
    /// Before a chip.
    Next,
    /// A chip is being opened.
    Opening,
    /// Its information is asked for.
    Asking,
    /// The information on one of its lines is asked for.
    Line,
    /// It is being closed.
    Closing,
    /// A refusal was printed, and the chip is still open.
    Failed,
    /// The chip is closed for the last time.
    Leaving,
    /// It has ended.
    Ended,
}

/// gpioinfo.
#[derive(Drop)]
pub struct InfoTool {
    /// Its options.
    pub opts: Opts,
    /// Which chip comes next.
    pub next: usize,
    /// The slot of the chip file.
    pub base: u32,
    /// How many lines of the chip are asked.
    pub total: u32,
    /// How many of them are left, after the one that is asked.
    pub left: u32,
    /// The chip's text so far.
    pub text: ByteList,
    /// Where it stands.
    pub stage: InfoStage,
}

impl InfoTool {
    /// gpioinfo with these options.
    pub fn new(alloc: Global, opts: Opts, base: u32) -> InfoTool
        ensures { info_left result ≡ goes_on (infos base (options_in opts)) }
    {
        InfoTool {
            opts,
            next: 0,
            base,
            total: 0,
            left: 0,
            text: ByteList::new(alloc),
            stage: InfoStage::Next,
        }
    }

    /// What it does next. When out of memory it is as it was, and may be called again with the same result.
    pub fn next(&mut self, alloc: Global, got: Option<&Got>) -> Result<Next, Errno>
        ensures goes { IfOk result (λ next. Goes (given (info_left self.old) (option_copied got.entry)) next (info_left self.new)) }
        ensures kept { OnErr result (self.new ≡ self.old) }
        ensures memory_alone { IsOkUnless result Errno.NoMemory }
    {
        let mut step = Next::End;
        self.put_next(alloc, got, &mut step)?;
        Ok(step)
    }

    /// Puts into `step` what it does next, as `next` answers it. When out of memory `step` means nothing.
    pub(crate) fn put_next(
        &mut self,
        alloc: Global,
        got: Option<&Got>,
        step: &mut Next,
    ) -> Result<(), Errno>
        ensures goes { OnOk result (Goes (given (info_left self.old) (option_copied got.entry)) step.new (info_left self.new)) }
        ensures kept { OnErr result (self.new ≡ self.old) }
        ensures memory_alone { IsOkUnless result Errno.NoMemory }
    {
        let none = Got::Done;
        let got = match got {
            Some(got) => got,
            None => &none,
        };
        let stage = self.stage;
        match &stage {
            InfoStage::Next => {
                self.open(step);
                Ok(())
            }
            InfoStage::Opening => self.opened(alloc, got.refusal(), step),
            InfoStage::Asking => self.asked(alloc, got.refusal(), got.bytes(), step),
            InfoStage::Line => self.line_told(alloc, got.refusal(), got.bytes(), step),
            InfoStage::Closing => self.closed(alloc, got.refusal(), step),
            InfoStage::Failed => {
                self.leave(step);
                Ok(())
            }
            InfoStage::Leaving | InfoStage::Ended => {
                self.stage = InfoStage::Ended;
                *step = Next::End;
                Ok(())
            }
        }
    }

    /// The word of the next chip, where there is one.
    fn word(&self) -> Option<Path>
        ensures word { MatchOption result (words_from (to_words self.now.opts.chip) self.now.next ≡ []) (λ word.
            words_from (to_words self.now.opts.chip) self.now.next ≡ word ∷ words_from (to_words self.now.opts.chip) (self.now.next + 1)) }
        ensures small { IsSome result → self.now.next < 2 ^ 63 }
    {
        match &self.opts.chip {
            Some(chip) => word_at(&[*chip], self.next),
            None => word_at(&[], self.next),
        }
    }

    /// Opens the next chip, or ends.
    fn open(&mut self, step: &mut Next)
        ensures { Goes (chips_from self.old.base (options_in self.old.opts) self.old.next) step.new (info_left self.new) }
    {
        match self.word() {
            Some(word) => {
                self.next += 1;
                self.stage = InfoStage::Opening;
                *step = Next::Call(Do::OpenChip {
                    slot: self.base,
                    word,
                });
            }
            None => {
                self.stage = InfoStage::Ended;
                *step = Next::End;
            }
        }
    }

    fn opened(
        &mut self,
        alloc: Global,
        refusal: Option<Errno>,
        step: &mut Next,
    ) -> Result<(), Errno>
        ensures goes { OnOk result (Goes (opened self.old.base (options_in self.old.opts) (chips_from self.old.base (options_in self.old.opts) self.old.next) refusal) step.new (info_left self.new)) }
        ensures kept { OnErr result (self.new ≡ self.old) }
        ensures memory_alone { IsOkUnless result Errno.NoMemory }
    {
        match refusal {
            Some(errno) => {
                if self.passes_over(errno) {
                    self.open(step);
                    return Ok(());
                }
                self.fail(alloc, errno, step)
            }
            None => {
                self.stage = InfoStage::Asking;
                *step = Next::Call(chip_query(self.base));
                Ok(())
            }
        }
    }

    /// Whether a chip that wasn't opened is passed over.
    fn passes_over(&self, errno: Errno) -> bool
        ensures { result ≡ passes_over errno (is_some self.now.opts.chip) }
    {
        passes_over(errno, self.opts.chip.is_some())
    }

    fn asked(
        &mut self,
        alloc: Global,
        refusal: Option<Errno>,
        bytes: &[u8],
        step: &mut Next,
    ) -> Result<(), Errno>
        ensures goes { OnOk result (Goes (asked self.old.base (options_in self.old.opts) (chips_from self.old.base (options_in self.old.opts) self.old.next) refusal bytes.now) step.new (info_left self.new)) }
        ensures kept { OnErr result (self.new ≡ self.old) }
        ensures memory_alone { IsOkUnless result Errno.NoMemory }
    {
        match refusal {
            Some(errno) => self.fail_open(alloc, errno, step),
            None => match chip_told(bytes) {
                Some(chip) => self.told(alloc, &chip, step),
                None => {
                    self.leave(step);
                    Ok(())
                }
            },
        }
    }

    /// The chip told of itself: its lines are asked.
    fn told(&mut self, alloc: Global, chip: &Chip, step: &mut Next) -> Result<(), Errno>
        ensures goes { OnOk result (Goes (told self.old.base (options_in self.old.opts) (chips_from self.old.base (options_in self.old.opts) self.old.next) chip.now) step.new (info_left self.new)) }
        ensures kept { OnErr result (self.new ≡ self.old) }
        ensures memory_alone { IsOkUnless result Errno.NoMemory }
    {
        self.text = chip_head(alloc, chip)?;
        self.total = chip.lines.min(LINES_MAX);
        self.left = self.total;
        self.ask_line(step);
        Ok(())
    }

    /// Asks the next line, or closes the chip.
    #[tactic(auto, using(crate::proofs::InfoLines::lines))]
    fn ask_line(&mut self, step: &mut Next)
        ensures { Goes (lines_from self.old.base (options_in self.old.opts) (chips_from self.old.base (options_in self.old.opts) self.old.next) self.old.total self.old.left self.old.text) step.new (info_left self.new) }
    {
        if self.left == 0 {
            self.stage = InfoStage::Closing;
            *step = Next::Call(Do::Close { slot: self.base });
            return;
        }
        let offset = self.total.saturating_sub(self.left);
        self.left -= 1;
        self.stage = InfoStage::Line;
        *step = Next::Call(Do::Ioctl {
            slot: self.base,
            cmd: GET_LINEINFO,
            len: 256,
            bytes: info_sent(offset),
            made: 0,
        });
    }

    fn line_told(
        &mut self,
        alloc: Global,
        refusal: Option<Errno>,
        bytes: &[u8],
        step: &mut Next,
    ) -> Result<(), Errno>
        ensures goes { OnOk result (Goes (line_told self.old.base (options_in self.old.opts) (lines_from self.old.base (options_in self.old.opts) (chips_from self.old.base (options_in self.old.opts) self.old.next) self.old.total self.old.left) self.old.total self.old.left self.old.text refusal bytes.now) step.new (info_left self.new)) }
        ensures kept { OnErr result (self.new ≡ self.old) }
        ensures memory_alone { IsOkUnless result Errno.NoMemory }
    {
        match refusal {
            Some(errno) => self.fail_open(alloc, errno, step),
            None => match info_told(bytes) {
                Some(info) => {
                    let offset = self.total.saturating_sub(self.left).saturating_sub(1);
                    put_line(alloc, self.opts.unquoted, offset, &info, &mut self.text)?;
                    self.ask_line(step);
                    Ok(())
                }
                None => {
                    self.leave(step);
                    Ok(())
                }
            },
        }
    }

    fn closed(
        &mut self,
        alloc: Global,
        refusal: Option<Errno>,
        step: &mut Next,
    ) -> Result<(), Errno>
        ensures goes { OnOk result (Goes (closed (chips_from self.old.base (options_in self.old.opts) self.old.next) self.old.text refusal) step.new (info_left self.new)) }
        ensures kept { OnErr result (self.new ≡ self.old) }
        ensures memory_alone { IsOkUnless result Errno.NoMemory }
    {
        match refusal {
            Some(errno) => self.fail(alloc, errno, step),
            None => {
                let mut text = ByteList::new(alloc);
                text.push_all(self.text.as_slice())?;
                self.stage = InfoStage::Next;
                *step = Next::Print(text);
                Ok(())
            }
        }
    }

    /// Prints a refusal, with nothing open.
    fn fail(&mut self, alloc: Global, errno: Errno, step: &mut Next) -> Result<(), Errno>
        ensures goes { OnOk result (Goes (print (failed_line tool errno) ends) step.new (info_left self.new)) }
        ensures kept { OnErr result (self.new ≡ self.old) }
        ensures memory_alone { IsOkUnless result Errno.NoMemory }
    {
        let text = failed_line(alloc, ToolName::Info, errno)?;
        self.stage = InfoStage::Ended;
        *step = Next::Print(text);
        Ok(())
    }

    /// Prints a refusal, with the chip open.
    fn fail_open(&mut self, alloc: Global, errno: Errno, step: &mut Next) -> Result<(), Errno>
        ensures goes { OnOk result (Goes (print (failed_line tool errno) (leaves self.old.base)) step.new (info_left self.new)) }
        ensures kept { OnErr result (self.new ≡ self.old) }
        ensures memory_alone { IsOkUnless result Errno.NoMemory }
    {
        let text = failed_line(alloc, ToolName::Info, errno)?;
        self.stage = InfoStage::Failed;
        *step = Next::Print(text);
        Ok(())
    }

    /// Closes the chip for the last time.
    fn leave(&mut self, step: &mut Next)
        ensures { Goes (leaves self.old.base) step.new (info_left self.new) }
    {
        self.stage = InfoStage::Leaving;
        *step = Next::Call(Do::Close { slot: self.base });
    }
}

/// The information that bytes tell; None where there are too few of them.
fn info_told(bytes: &[u8]) -> Option<Info>
    ensures { result ≡ info_told bytes.now }
{
    match InfoRef::of(bytes) {
        Some(info) => Some(Info {
            name: Name::read(info.name()),
            consumer: Name::read(info.consumer()),
            offset: info.offset(),
            flags: info.flags(),
            period: info.period(),
        }),
        None => None,
    }
}

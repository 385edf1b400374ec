//! gpiodetect.
ghost use Rattle.std.specs.Prelude.{◌≡◌, ◌+◌, ◌<◌, ◌^◌, [], ◌∷◌, IfOk, IsSome, OnOk, OnErr, IsOkUnless, MatchOption, option_copied};
ghost use Rattle.gl_client.specs.Program.{print, Goes, given, goes_on};
ghost use Rattle.gl_lines.specs.Texts.{failed_line};
ghost use Rattle.gl_values.specs.Chips.{ends, is_named_by, leaves, passes_over, words_from};
ghost use Rattle.gl_values.specs.Detect.{tool, detects, left, chips_from, opened, asked, closed};

use crate::chip::{Chip, chip_line, chip_query, chip_told, passes_over, word_at};
use gl_args::ToolName;
use gl_base::{Do, Errno, Got, Name, Path};
use gl_client::Next;
use gl_lines::failed_line;
use std::alloc::Global;

/// Where gpiodetect stands.
#[derive(Clone, Copy)]
pub enum DetectStage {
    /// Before a chip.
    Next,
    /// A chip is being opened.
    Opening,
    /// Its information is asked for.
    Asking,
    /// It is being closed.
    Closing(Chip),
    /// A refusal was printed, and the chip is still open.
    Failed,
    /// The chip is closed for the last time.
    Leaving,
    /// It has ended.
    Ended,
}

/// gpiodetect.
#[derive(Drop)]
pub struct Detect {
    /// Its chip words.
    pub words: Vec<Name>,
    /// Which chip comes next.
    pub next: usize,
    /// The slot of the chip file.
    pub base: u32,
    /// Where it stands.
    pub stage: DetectStage,
}

impl Detect {
    /// gpiodetect with these chip words.
    pub fn new(words: Vec<Name>, base: u32) -> Detect
        ensures { left result ≡ goes_on (detects base words.items) }
    {
        Detect {
            words,
            next: 0,
            base,
            stage: DetectStage::Next,
        }
    }

    /// What it does next. When out of memory it is as it was, and may be called again with the same result.
    pub fn next(&mut self, alloc: Global, got: Option<&Got>) -> Result<Next, Errno>
        ensures goes { IfOk result (λ next. Goes (given (left self.old) (option_copied got.entry)) next (left self.new)) }
        ensures kept { OnErr result (self.new ≡ self.old) }
        ensures memory_alone { IsOkUnless result Errno.NoMemory }
    {
        let mut step = Next::End;
        self.put_next(alloc, got, &mut step)?;
        Ok(step)
    }

    /// Puts into `step` what it does next, as `next` answers it. When out of memory `step` means nothing.
    pub(crate) fn put_next(
        &mut self,
        alloc: Global,
        got: Option<&Got>,
        step: &mut Next,
    ) -> Result<(), Errno>
        ensures goes { OnOk result (Goes (given (left self.old) (option_copied got.entry)) step.new (left self.new)) }
        ensures kept { OnErr result (self.new ≡ self.old) }
        ensures memory_alone { IsOkUnless result Errno.NoMemory }
    {
        let none = Got::Done;
        let got = match got {
            Some(got) => got,
            None => &none,
        };
        let stage = self.stage;
        match &stage {
            DetectStage::Next => {
                self.open(step);
                Ok(())
            }
            DetectStage::Opening => self.opened(alloc, got.refusal(), step),
            DetectStage::Asking => self.asked(alloc, got.refusal(), got.bytes(), step),
            DetectStage::Closing(chip) => self.closed(alloc, chip, got.refusal(), step),
            DetectStage::Failed => {
                self.leave(step);
                Ok(())
            }
            DetectStage::Leaving | DetectStage::Ended => {
                self.stage = DetectStage::Ended;
                *step = Next::End;
                Ok(())
            }
        }
    }

    /// Whether it has words.
    fn is_named(&self) -> bool
        ensures { result ≡ is_named_by self.now.words.items }
    {
        !self.words.is_empty()
    }

    /// The word of the next chip, where there is one.
    fn word(&self) -> Option<Path>
        ensures word { MatchOption result (words_from self.now.words.items self.now.next ≡ []) (λ word.
            words_from self.now.words.items self.now.next ≡ word ∷ words_from self.now.words.items (self.now.next + 1)) }
        ensures small { IsSome result → self.now.next < 2 ^ 63 }
    {
        word_at(&self.words, self.next)
    }

    /// Opens the next chip, or ends.
    fn open(&mut self, step: &mut Next)
        ensures { Goes (chips_from self.old.words.items self.old.next self.old.base) step.new (left self.new) }
    {
        match self.word() {
            Some(word) => {
                self.next += 1;
                self.stage = DetectStage::Opening;
                *step = Next::Call(Do::OpenChip {
                    slot: self.base,
                    word,
                });
            }
            None => {
                self.stage = DetectStage::Ended;
                *step = Next::End;
            }
        }
    }

    fn opened(
        &mut self,
        alloc: Global,
        refusal: Option<Errno>,
        step: &mut Next,
    ) -> Result<(), Errno>
        ensures goes { OnOk result (Goes (opened self.old.base (chips_from self.old.words.items self.old.next self.old.base) (is_named_by self.old.words.items) refusal) step.new (left self.new)) }
        ensures kept { OnErr result (self.new ≡ self.old) }
        ensures memory_alone { IsOkUnless result Errno.NoMemory }
    {
        match refusal {
            Some(errno) => {
                if self.passes_over(errno) {
                    self.open(step);
                    return Ok(());
                }
                self.fail(alloc, errno, step)
            }
            None => {
                self.stage = DetectStage::Asking;
                *step = Next::Call(chip_query(self.base));
                Ok(())
            }
        }
    }

    /// Whether a chip that wasn't opened is passed over.
    fn passes_over(&self, errno: Errno) -> bool
        ensures { result ≡ passes_over errno (is_named_by self.now.words.items) }
    {
        passes_over(errno, self.is_named())
    }

    fn asked(
        &mut self,
        alloc: Global,
        refusal: Option<Errno>,
        bytes: &[u8],
        step: &mut Next,
    ) -> Result<(), Errno>
        ensures goes { OnOk result (Goes (asked self.old.base (chips_from self.old.words.items self.old.next self.old.base) refusal bytes.now) step.new (left self.new)) }
        ensures kept { OnErr result (self.new ≡ self.old) }
        ensures memory_alone { IsOkUnless result Errno.NoMemory }
    {
        match refusal {
            Some(errno) => self.fail_open(alloc, errno, step),
            None => match chip_told(bytes) {
                Some(chip) => {
                    self.stage = DetectStage::Closing(chip);
                    *step = Next::Call(Do::Close { slot: self.base });
                    Ok(())
                }
                None => {
                    self.leave(step);
                    Ok(())
                }
            },
        }
    }

    fn closed(
        &mut self,
        alloc: Global,
        chip: &Chip,
        refusal: Option<Errno>,
        step: &mut Next,
    ) -> Result<(), Errno>
        ensures goes { OnOk result (Goes (closed chip.now (chips_from self.old.words.items self.old.next self.old.base) refusal) step.new (left self.new)) }
        ensures kept { OnErr result (self.new ≡ self.old) }
        ensures memory_alone { IsOkUnless result Errno.NoMemory }
    {
        match refusal {
            Some(errno) => self.fail(alloc, errno, step),
            None => {
                let text = chip_line(alloc, chip)?;
                self.stage = DetectStage::Next;
                *step = Next::Print(text);
                Ok(())
            }
        }
    }

    /// Prints a refusal, with nothing open.
    fn fail(&mut self, alloc: Global, errno: Errno, step: &mut Next) -> Result<(), Errno>
        ensures goes { OnOk result (Goes (print (failed_line tool errno) ends) step.new (left self.new)) }
        ensures kept { OnErr result (self.new ≡ self.old) }
        ensures memory_alone { IsOkUnless result Errno.NoMemory }
    {
        let text = failed_line(alloc, ToolName::Detect, errno)?;
        self.stage = DetectStage::Ended;
        *step = Next::Print(text);
        Ok(())
    }

    /// Prints a refusal, with the chip open.
    fn fail_open(&mut self, alloc: Global, errno: Errno, step: &mut Next) -> Result<(), Errno>
        ensures goes { OnOk result (Goes (print (failed_line tool errno) (leaves self.old.base)) step.new (left self.new)) }
        ensures kept { OnErr result (self.new ≡ self.old) }
        ensures memory_alone { IsOkUnless result Errno.NoMemory }
    {
        let text = failed_line(alloc, ToolName::Detect, errno)?;
        self.stage = DetectStage::Failed;
        *step = Next::Print(text);
        Ok(())
    }

    /// Closes the chip for the last time.
    fn leave(&mut self, step: &mut Next)
        ensures { Goes (leaves self.old.base) step.new (left self.new) }
    {
        self.stage = DetectStage::Leaving;
        *step = Next::Call(Do::Close { slot: self.base });
    }
}

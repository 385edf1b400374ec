//! How a tool finds its lines, and requests them where it does.
ghost use Rattle.std.specs.Prelude.{◌≡◌, ℕ, ◌<◌, ◌≤◌, ◌&&◌, not, false, [], ◌∷◌, ◌++◌, length, drop, take, None, IfOk, OnOk, OnErr, IsOkUnless, MatchOption, is_some, option_copied};
ghost use Rattle.gl_args.specs.declared.names.ToolName.{ToolName};
ghost use Rattle.gl_args.specs.Options.{options_in};
ghost use Rattle.gl_client.specs.Program.{Goes, given, goes_on, done};
ghost use Rattle.gl_lines.specs.Finding.{offset_said, below_32_bits, word_at, named_line, fails, fails_at, fails_looking, leaves, chip_closed, requested, known, opened, all_found, looked, looks, chip_slot, named_opened, finds, has_found, left, Stays, StaysThere};

use crate::bytes::request_sent;
use crate::found_line::{FoundLine, are_apart, offsets_of, place_of};
use crate::texts::failed_line;
use crate::words::{path_of_name, path_of_number};
use gl_args::{Opts, ToolName};
use gl_base::command::GET_LINE;
use gl_base::{Do, Errno, Got, Name, read_decimal};
use gl_client::Next;
use std::alloc::Global;

/// Where it stands.
#[derive(Clone, Copy)]
pub enum FinderStage {
    /// The chip that was named is being opened.
    OpeningNamed,
    /// This name is looked for.
    Looking(Name),
    /// The chip of the lines is being opened.
    OpeningFound,
    /// The lines are being requested.
    Requesting,
    /// The chip is being closed after the request.
    Closing,
    /// A refusal was printed, and the chip is open.
    ChipOpen,
    /// A refusal was printed, and the request is open.
    LineOpen,
    /// What was open is being closed.
    Leaving,
    /// The end, and whether the lines were found.
    Ended(bool),
}

/// What finds the lines of a tool: the first part of gpioget, gpioset, gpiomon and gpionotify. At its end the tool's
/// request is open in the slot `made`, or for gpionotify, which requests none, the chip in the slot `base`; or
/// nothing is, where a refusal was printed.
#[derive(Drop)]
pub struct Finder {
    /// The tool.
    pub tool: ToolName,
    /// The slot of its chip file.
    pub base: u32,
    /// The slot of its request.
    pub made: u32,
    /// Its options.
    pub opts: Opts,
    /// Which line is looked at next.
    pub next: usize,
    /// The lines that were found.
    pub found: Vec<FoundLine>,
    /// Where it stands.
    pub stage: FinderStage,
}

impl Finder {
    /// It hasn't begun, and has found nothing.
    pub fn new(alloc: Global, tool: ToolName, base: u32, made: u32, opts: Opts) -> Finder
        ensures tool { result.tool ≡ tool }
        ensures base { result.base ≡ base }
        ensures made { result.made ≡ made }
        ensures opts { result.opts ≡ opts }
        ensures nothing_found { (has_found result.stage ≡ false) × (result.found.items ≡ []) }
        ensures nothing_left { left result ≡ goes_on (done None) }
    {
        Finder {
            tool,
            base,
            made,
            opts,
            next: 0,
            found: Vec::new(alloc),
            stage: FinderStage::Ended(false),
        }
    }

    /// What it does next. When out of memory, what is left is what was left: it may be called again with the same result.
    pub fn next(&mut self, alloc: Global, got: Option<&Got>) -> Result<Next, Errno>
        ensures goes { IfOk result (λ next. Goes (given (left self.old) (option_copied got.entry)) next (left self.new)) }
        ensures stays { Stays self.old self.new }
        ensures kept { OnErr result (left self.new ≡ left self.old) }
        ensures memory_alone { IsOkUnless result Errno.NoMemory }
    {
        let mut step = Next::End;
        self.put_next(alloc, got, &mut step)?;
        Ok(step)
    }

    /// Puts into `step` what it does next, as `next` answers it. When out of memory `step` means nothing.
    pub fn put_next(
        &mut self,
        alloc: Global,
        got: Option<&Got>,
        step: &mut Next,
    ) -> Result<(), Errno>
        ensures goes { OnOk result (Goes (given (left self.old) (option_copied got.entry)) step.new (left self.new)) }
        ensures stays { Stays self.old self.new }
        ensures kept { OnErr result (left self.new ≡ left self.old) }
        ensures memory_alone { IsOkUnless result Errno.NoMemory }
    {
        let none = Got::Done;
        let got = match got {
            Some(got) => got,
            None => &none,
        };
        let stage = self.stage;
        match &stage {
            FinderStage::OpeningNamed => self.named_opened(alloc, got.refusal(), step),
            FinderStage::Looking(word) => self.looked(alloc, word, got, step),
            FinderStage::OpeningFound => self.opened(alloc, got.refusal(), step),
            FinderStage::Requesting => self.requested(alloc, got.refusal(), step),
            FinderStage::Closing => self.chip_closed(alloc, got.refusal(), step),
            FinderStage::ChipOpen => {
                self.leave(self.base, step);
                Ok(())
            }
            FinderStage::LineOpen => {
                self.leave(self.made, step);
                Ok(())
            }
            FinderStage::Leaving => {
                self.stage = FinderStage::Ended(false);
                *step = Next::End;
                Ok(())
            }
            FinderStage::Ended(_) => {
                *step = Next::End;
                Ok(())
            }
        }
    }

    /// Whether it has come to its end and found the lines.
    pub fn has_found(&self) -> bool
        ensures { result ≡ has_found self.now.stage }
    {
        match &self.stage {
            FinderStage::Ended(ok) => *ok,
            FinderStage::OpeningNamed
            | FinderStage::Looking(_)
            | FinderStage::OpeningFound
            | FinderStage::Requesting
            | FinderStage::Closing
            | FinderStage::ChipOpen
            | FinderStage::LineOpen
            | FinderStage::Leaving => false,
        }
    }

    /// Begins: the first thing that it does. When out of memory it may begin again.
    pub fn begin(&mut self, alloc: Global) -> Result<Next, Errno>
        ensures goes { IfOk result (λ next. Goes (finds self.old.tool self.old.base self.old.made (options_in self.old.opts)) next (left self.new)) }
        ensures stays { Stays self.old self.new }
        ensures kept { OnErr result (self.new.stage ≡ self.old.stage) }
        ensures memory_alone { IsOkUnless result Errno.NoMemory }
    {
        let mut step = Next::End;
        self.put_first(alloc, &mut step)?;
        Ok(step)
    }

    /// Begins, and puts into `step` the first thing that it does, as `begin` answers it. When out of memory `step` means
    /// nothing.
    pub fn put_first(&mut self, alloc: Global, step: &mut Next) -> Result<(), Errno>
        ensures goes { OnOk result (Goes (finds self.old.tool self.old.base self.old.made (options_in self.old.opts)) step.new (left self.new)) }
        ensures stays { Stays self.old self.new }
        ensures kept { OnErr result (self.new.stage ≡ self.old.stage) }
        ensures memory_alone { IsOkUnless result Errno.NoMemory }
    {
        match &self.opts.chip {
            Some(chip) => {
                let word = path_of_name(chip);
                self.stage = FinderStage::OpeningNamed;
                *step = Next::Call(Do::OpenChip {
                    slot: self.base,
                    word,
                });
                Ok(())
            }
            None => self.look_first(alloc, step),
        }
    }

    fn named_opened(
        &mut self,
        alloc: Global,
        refusal: Option<Errno>,
        step: &mut Next,
    ) -> Result<(), Errno>
        ensures goes { OnOk result (Goes (named_opened self.old.tool self.old.base self.old.made (options_in self.old.opts) refusal) step.new (left self.new)) }
        ensures stays { Stays self.old self.new }
        ensures kept { OnErr result (self.new.stage ≡ self.old.stage) }
        ensures memory_alone { IsOkUnless result Errno.NoMemory }
    {
        match refusal {
            Some(errno) => self.fail(alloc, errno, step),
            None => self.look_first(alloc, step),
        }
    }

    /// Begins to look for the lines.
    fn look_first(&mut self, alloc: Global, step: &mut Next) -> Result<(), Errno>
        ensures goes { OnOk result (Goes (looks self.old.tool self.old.base self.old.made (options_in self.old.opts) self.old.opts.lines.items []) step.new (left self.new)) }
        ensures stays { Stays self.old self.new }
        ensures kept { OnErr result (self.new.stage ≡ self.old.stage) }
        ensures memory_alone { IsOkUnless result Errno.NoMemory }
    {
        self.next = 0;
        self.found.clear();
        self.look(alloc, step)
    }

    /// Looks for the lines from `next` on.
    fn look(&mut self, alloc: Global, step: &mut Next) -> Result<(), Errno>
        ensures goes { OnOk result (Goes (looks self.old.tool self.old.base self.old.made (options_in self.old.opts) (drop self.old.next self.old.opts.lines.items) self.old.found.items) step.new (left self.new)) }
        ensures stays { Stays self.old self.new }
        ensures kept { OnErr result (StaysThere self.old self.new) }
        ensures memory_alone { IsOkUnless result Errno.NoMemory }
    {
        let next = self.next;
        let count = self.found.len();
        match self.look_on(alloc, step) {
            Ok(()) => Ok(()),
            Err(errno) => {
                self.next = next;
                self.found.truncate(count);
                Err(errno)
            }
        }
    }

    /// The same; when out of memory there may be more lines after those that were found.
    fn look_on(&mut self, alloc: Global, step: &mut Next) -> Result<(), Errno>
        ensures goes { OnOk result (Goes (looks self.old.tool self.old.base self.old.made (options_in self.old.opts) (drop self.old.next self.old.opts.lines.items) self.old.found.items) step.new (left self.new)) }
        ensures stays { Stays self.old self.new }
        ensures stage { OnErr result (self.new.stage ≡ self.old.stage) }
        ensures front { OnErr result (take (length self.old.found.items) self.new.found.items ≡ self.old.found.items) }
        ensures memory_alone { IsOkUnless result Errno.NoMemory }
    {
        let at = take_offsets(&self.opts, self.next, &mut self.found)?;
        self.next = at;
        match name_at(&self.opts, at) {
            Some(name) => {
                self.next = at + 1;
                self.stage = FinderStage::Looking(name);
                *step = Next::Call(Do::Find {
                    slot: self.chip_slot(),
                    name,
                });
                Ok(())
            }
            None => self.all_found(alloc, step),
        }
    }

    fn chip_slot(&self) -> Option<u32>
        ensures { result ≡ chip_slot self.now.tool self.now.base self.now.made (options_in self.now.opts) }
    {
        if self.opts.chip.is_some() {
            return Some(self.base);
        }
        None
    }

    #[tactic(auto, using(gl_client::proofs::Programs::choices))]
    fn looked(
        &mut self,
        alloc: Global,
        word: &Name,
        got: &Got,
        step: &mut Next,
    ) -> Result<(), Errno>
        ensures goes { OnOk result (Goes (looked self.old.tool self.old.base self.old.made (options_in self.old.opts) (looks self.old.tool self.old.base self.old.made (options_in self.old.opts) (drop self.old.next self.old.opts.lines.items)) self.old.found.items word.now got.now) step.new (left self.new)) }
        ensures stays { Stays self.old self.new }
        ensures kept { OnErr result (StaysThere self.old self.new) }
        ensures memory_alone { IsOkUnless result Errno.NoMemory }
    {
        match got {
            Got::Found {
                place,
                offset,
                count,
            } => {
                if self.opts.strict && *count > 1 {
                    return self.fail_looking(alloc, Errno::Inval, step);
                }
                self.look_behind(alloc, *place, *offset, word, step)
            }
            Got::Refused(errno) => self.fail_looking(alloc, *errno, step),
            Got::Done | Got::Number(_) | Got::Text(_) | Got::Bytes(_) | Got::Ready(_) => {
                self.look(alloc, step)
            }
        }
    }

    /// Looks for the further lines after one that was found by its name.
    fn look_behind(
        &mut self,
        alloc: Global,
        place: u8,
        offset: u32,
        word: &Name,
        step: &mut Next,
    ) -> Result<(), Errno>
        ensures goes { OnOk result (Goes (looks self.old.tool self.old.base self.old.made (options_in self.old.opts) (drop self.old.next self.old.opts.lines.items) (self.old.found.items ++ named_line place offset word.now ∷ [])) step.new (left self.new)) }
        ensures stays { Stays self.old self.new }
        ensures kept { OnErr result (StaysThere self.old self.new) }
        ensures memory_alone { IsOkUnless result Errno.NoMemory }
    {
        let count = self.found.len();
        self.found.push(FoundLine {
            place,
            offset,
            name: Some(*word),
        })?;
        match self.look(alloc, step) {
            Ok(()) => Ok(()),
            Err(errno) => {
                self.found.truncate(count);
                Err(errno)
            }
        }
    }

    /// All lines are known.
    #[tactic(auto, using(gl_client::proofs::Programs::choices))]
    fn all_found(&mut self, alloc: Global, step: &mut Next) -> Result<(), Errno>
        ensures goes { OnOk result (Goes (all_found self.old.tool self.old.base self.old.made (options_in self.old.opts) self.old.found.items) step.new (left self.new)) }
        ensures stays { Stays self.old self.new }
        ensures kept { OnErr result (self.new ≡ self.old) }
        ensures memory_alone { IsOkUnless result Errno.NoMemory }
    {
        if self.opts.chip.is_some() {
            return self.known(alloc, step);
        }
        if are_apart(&self.found) {
            return self.fail(alloc, Errno::Inval, step);
        }
        let word = path_of_number(place_of(&self.found));
        self.stage = FinderStage::OpeningFound;
        *step = Next::Call(Do::OpenChip {
            slot: self.base,
            word,
        });
        Ok(())
    }

    fn opened(
        &mut self,
        alloc: Global,
        refusal: Option<Errno>,
        step: &mut Next,
    ) -> Result<(), Errno>
        ensures goes { OnOk result (Goes (opened self.old.tool self.old.base self.old.made (options_in self.old.opts) self.old.found.items refusal) step.new (left self.new)) }
        ensures stays { Stays self.old self.new }
        ensures kept { OnErr result (self.new ≡ self.old) }
        ensures memory_alone { IsOkUnless result Errno.NoMemory }
    {
        match refusal {
            Some(errno) => self.fail(alloc, errno, step),
            None => self.known(alloc, step),
        }
    }

    /// All lines are known, and the chip is open: they are requested where the tool requests its lines.
    #[tactic(auto, using(gl_client::proofs::Programs::choices))]
    fn known(&mut self, alloc: Global, step: &mut Next) -> Result<(), Errno>
        ensures goes { OnOk result (Goes (known self.old.tool self.old.base self.old.made (options_in self.old.opts) self.old.found.items) step.new (left self.new)) }
        ensures stays { Stays self.old self.new }
        ensures kept { OnErr result (self.new ≡ self.old) }
        ensures memory_alone { IsOkUnless result Errno.NoMemory }
    {
        if !self.tool.requests_lines() {
            self.stage = FinderStage::Ended(true);
            *step = Next::End;
            return Ok(());
        }
        let offsets = offsets_of(alloc, &self.found)?;
        let bytes = request_sent(self.tool, &self.opts, &offsets);
        self.stage = FinderStage::Requesting;
        *step = Next::Call(Do::Ioctl {
            slot: self.base,
            cmd: GET_LINE,
            len: 592,
            bytes,
            made: self.made,
        });
        Ok(())
    }

    fn requested(
        &mut self,
        alloc: Global,
        refusal: Option<Errno>,
        step: &mut Next,
    ) -> Result<(), Errno>
        ensures goes { OnOk result (Goes (requested self.old.tool self.old.base self.old.made (options_in self.old.opts) self.old.found.items refusal) step.new (left self.new)) }
        ensures stays { Stays self.old self.new }
        ensures kept { OnErr result (self.new ≡ self.old) }
        ensures memory_alone { IsOkUnless result Errno.NoMemory }
    {
        match refusal {
            Some(errno) => self.fail_open(alloc, errno, step),
            None => {
                self.stage = FinderStage::Closing;
                *step = Next::Call(Do::Close { slot: self.base });
                Ok(())
            }
        }
    }

    fn chip_closed(
        &mut self,
        alloc: Global,
        refusal: Option<Errno>,
        step: &mut Next,
    ) -> Result<(), Errno>
        ensures goes { OnOk result (Goes (chip_closed self.old.tool self.old.base self.old.made (options_in self.old.opts) self.old.found.items refusal) step.new (left self.new)) }
        ensures stays { Stays self.old self.new }
        ensures kept { OnErr result (self.new ≡ self.old) }
        ensures memory_alone { IsOkUnless result Errno.NoMemory }
    {
        match refusal {
            Some(errno) => {
                let text = failed_line(alloc, self.tool, errno)?;
                self.stage = FinderStage::LineOpen;
                *step = Next::Print(text);
                Ok(())
            }
            None => {
                self.stage = FinderStage::Ended(true);
                *step = Next::End;
                Ok(())
            }
        }
    }

    /// Prints a refusal, with nothing open.
    fn fail(&mut self, alloc: Global, errno: Errno, step: &mut Next) -> Result<(), Errno>
        ensures goes { OnOk result (Goes (fails self.old.tool self.old.base self.old.made (options_in self.old.opts) errno) step.new (left self.new)) }
        ensures stays { Stays self.old self.new }
        ensures kept { OnErr result (self.new ≡ self.old) }
        ensures memory_alone { IsOkUnless result Errno.NoMemory }
    {
        let text = failed_line(alloc, self.tool, errno)?;
        self.stage = FinderStage::Ended(false);
        *step = Next::Print(text);
        Ok(())
    }

    /// Prints a refusal, with the chip open.
    fn fail_open(&mut self, alloc: Global, errno: Errno, step: &mut Next) -> Result<(), Errno>
        ensures goes { OnOk result (Goes (fails_at self.old.tool self.old.base self.old.made (options_in self.old.opts) self.old.base errno) step.new (left self.new)) }
        ensures stays { Stays self.old self.new }
        ensures kept { OnErr result (self.new ≡ self.old) }
        ensures memory_alone { IsOkUnless result Errno.NoMemory }
    {
        let text = failed_line(alloc, self.tool, errno)?;
        self.stage = FinderStage::ChipOpen;
        *step = Next::Print(text);
        Ok(())
    }

    /// Prints a refusal while lines are looked for: the chip is open where it was named.
    #[tactic(auto, using(gl_client::proofs::Programs::choices))]
    fn fail_looking(&mut self, alloc: Global, errno: Errno, step: &mut Next) -> Result<(), Errno>
        ensures goes { OnOk result (Goes (fails_looking self.old.tool self.old.base self.old.made (options_in self.old.opts) errno) step.new (left self.new)) }
        ensures stays { Stays self.old self.new }
        ensures kept { OnErr result (self.new ≡ self.old) }
        ensures memory_alone { IsOkUnless result Errno.NoMemory }
    {
        if self.opts.chip.is_some() {
            return self.fail_open(alloc, errno, step);
        }
        self.fail(alloc, errno, step)
    }

    /// Closes a file for the last time.
    fn leave(&mut self, slot: u32, step: &mut Next)
        ensures goes { Goes (leaves slot) step.new (left self.new) }
        ensures stays { Stays self.old self.new }
    {
        self.stage = FinderStage::Leaving;
        *step = Next::Call(Do::Close { slot });
    }
}

/// Takes the offsets of the lines from `next` on, up to the first that is a name, and answers where that is. The lines that were
/// found before stay in front.
fn take_offsets(opts: &Opts, next: usize, found: &mut Vec<FoundLine>) -> Result<usize, Errno>
    ensures looks { IfOk result (λ at. (tool : ToolName) (base made : ℕ) →
        looks tool base made (options_in opts.now) (drop at opts.now.lines.items) found.new.items ≡ looks tool base made (options_in opts.now) (drop next opts.now.lines.items) found.old.items) }
    ensures name { IfOk result (λ at. at < length opts.now.lines.items → offset_said (options_in opts.now) (word_at (options_in opts.now) at) ≡ None) }
    ensures front { take (length found.old.items) found.new.items ≡ found.old.items }
    ensures memory_alone { IsOkUnless result Errno.NoMemory }
{
    for i in next..opts.lines.len() {
        match offset_said(opts, &opts.lines[i].0) {
            Some(offset) => found.push(FoundLine {
                place: 0,
                offset,
                name: None,
            })?,
            None => return Ok(i),
        }
    }
    Ok(next.max(opts.lines.len()))
}

/// The offset that a line's word says, if it says one.
fn offset_said(opts: &Opts, word: &Name) -> Option<u32>
    ensures { result ≡ offset_said (options_in opts.now) word.now }
{
    if has_offsets(opts) {
        return below_32_bits(read_decimal(word.as_bytes()));
    }
    None
}

fn has_offsets(opts: &Opts) -> bool
    ensures { result ≡ (is_some opts.now.chip && not opts.now.by_name) }
{
    opts.chip.is_some() && !opts.by_name
}

fn below_32_bits(number: Option<u64>) -> Option<u32>
    ensures { result ≡ below_32_bits number }
{
    match number {
        Some(number) if number < 1 << 32 => Some(number as u32),
        _ => None,
    }
}

/// The word of a line, if there is one.
fn name_at(opts: &Opts, at: usize) -> Option<Name>
    ensures { MatchOption result (length opts.now.lines.items ≤ at) (λ name. (at < length opts.now.lines.items) × (name ≡ (word_at (options_in opts.now) at))) }
{
    match opts.lines.get(at) {
        Some(line) => Some(line.0),
        None => None,
    }
}

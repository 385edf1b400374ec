//! The interrupts of the lines of one chip, by offset.
ghost use Rattle.std.specs.Prelude.{◌≡◌, ◌-◌, ◌<◌, ◌≤◌, ◌++◌, length, take, replicate, IfOk, IsOkUnless};
ghost use Rattle.gl_base.specs.declared.limits.TheConstants.{LINES_MAX};
ghost use Rattle.gl_base.specs.Positions.{change_at};
ghost use Rattle.gl_base.specs.Refusals.{answer, unless};
ghost use Rattle.gl_irq.specs.Irq.{first_irq, irq_at, done, act_refusal};

use crate::irq::{Irq, IrqLine, carry_out, refusal};
use gl_base::{Errno, IrqDo, LINES_MAX};
use std::alloc::Global;
use std::marker::Model;

/// The interrupts of a chip's lines, by offset. Contracts see the list of them. There is room for as many lines as a
/// chip has at most.
#[derive(Drop)]
pub struct Irqs {
    lines: Vec<Irq>,
}

impl Model for Irqs {
    ghost use Rattle.std.specs.Prelude.{◌≤◌, List, vec_capacity};
    ghost use Rattle.gl_base.specs.declared.limits.TheConstants.{LINES_MAX};
    ghost use Rattle.gl_irq.specs.declared.irq.Irq.{Irq};

    ghost Value = { List Irq };

    ghost view = { λ i. i.lines.items };

    ghost invariant = { λ i. LINES_MAX ≤ vec_capacity i.lines };
}

impl Irqs {
    /// The interrupts of so many lines. Each line has one, which isn't locked. It takes the memory of `LINES_MAX` lines,
    /// and writes to that of its own alone.
    pub fn new(alloc: Global, lines: u32) -> Result<Irqs, Errno>
        requires { lines ≤ LINES_MAX }
        ensures ok { IfOk result (λ irqs. irqs ≡ replicate lines first_irq) }
        ensures memory_alone { IsOkUnless result Errno.NoMemory }
    {
        let rows = Vec::with_capacity(alloc, LINES_MAX as usize)?;
        let mut irqs = Irqs { lines: rows };
        irqs.fit(lines);
        Ok(irqs)
    }

    /// Keeps the first lines, so many; where there are fewer, new ones come behind them. It takes no memory.
    pub fn fit(&mut self, lines: u32)
        requires { lines ≤ LINES_MAX }
        ensures { self.new ≡ take lines self.old ++ replicate (lines - length self.old) first_irq }
    {
        let first = Irq {
            has: true,
            locked: false,
            enabled: false,
        };
        match self.lines.resize(lines as usize, first) {
            Ok(()) => {}
            Err(_) => {}
        }
    }

    /// Does something with the interrupt of a line, of which `line` tells how it stands. A refused call
    /// changes nothing. The refusals, first case first, after `Inval` for an offset past the lines:
    ///
    /// - `Lock`: `Busy` for a claimed line, `NxIo` without an interrupt, `Io` for an output that isn't
    ///   open-drain. To lock a locked line enables it.
    /// - `Unlock` and `Disable`: `Inval` where it isn't locked.
    /// - `Enable`: `Inval` where it isn't locked, `Busy` for a claimed line, `Io` for an output that isn't
    ///   open-drain.
    /// - `Never`: `Busy` for a line that is locked, claimed, or held with an edge flag or a period.
    pub fn act(&mut self, offset: u32, what: IrqDo, line: IrqLine) -> Result<(), Errno>
        ensures answer { result ≡ answer (act_refusal self.old offset what line) tt }
        ensures irqs { self.new ≡ unless (act_refusal self.old offset what line) (change_at first_irq offset (done what) self.old) self.old }
        ensures as_many { length self.new ≡ length self.old }
    {
        act(&mut self.lines, offset as usize, what, &line)
    }

    /// The interrupt of a line.
    pub fn line(&self, offset: u32) -> Irq
        requires { offset < length self.now }
        ensures { result ≡ irq_at self.now offset }
    {
        self.lines[offset as usize]
    }

    /// Whether a line has an interrupt.
    pub fn has(&self, offset: u32) -> bool
        requires { offset < length self.now }
        ensures { result ≡ (irq_at self.now offset).has }
    {
        self.lines[offset as usize].has
    }

    /// Whether a line is locked as an interrupt.
    pub fn locked(&self, offset: u32) -> bool
        requires { offset < length self.now }
        ensures { result ≡ (irq_at self.now offset).locked }
    {
        self.lines[offset as usize].locked
    }

    /// Whether the interrupt of a line is enabled.
    pub fn enabled(&self, offset: u32) -> bool
        requires { offset < length self.now }
        ensures { result ≡ (irq_at self.now offset).enabled }
    {
        self.lines[offset as usize].enabled
    }
}

/// Does something with the interrupt of the line at an offset.
fn act(irqs: &mut [Irq], offset: usize, what: IrqDo, line: &IrqLine) -> Result<(), Errno>
    ensures answer { result ≡ answer (act_refusal irqs.old offset what line.now) tt }
    ensures irqs { irqs.new ≡ unless (act_refusal irqs.old offset what line.now) (change_at first_irq offset (done what) irqs.old) irqs.old }
    ensures as_many { length irqs.new ≡ length irqs.old }
{
    if offset >= irqs.len() {
        return Err(Errno::Inval);
    }
    match refusal(what, line, &irqs[offset]) {
        Some(errno) => Err(errno),
        None => {
            carry_out(what, &mut irqs[offset]);
            Ok(())
        }
    }
}

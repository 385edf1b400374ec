//! The interrupt of one line.
ghost use Rattle.std.specs.Prelude.{◌≡◌};
ghost use Rattle.gl_irq.specs.Irq.{is_push_pull, refusal, done};

use gl_base::{Errno, IrqDo};

/// The interrupt of a line.
#[derive(Clone, Copy, PartialEq, Eq)]
pub struct Irq {
    /// The line has an interrupt.
    pub has: bool,
    /// The line is locked as an interrupt.
    pub locked: bool,
    /// The interrupt of the locked line is enabled.
    pub enabled: bool,
}

/// How the line of an interrupt stands.
#[derive(Clone, Copy, PartialEq, Eq)]
pub struct IrqLine {
    /// A request that isn't finished has the line.
    pub claimed: bool,
    /// The line's last direction was output.
    pub output: bool,
    /// The line is open-drain.
    pub open_drain: bool,
    /// A request holds the line with an edge flag or a debounce period.
    pub watched: bool,
}

/// Whether a line is an output that isn't open-drain.
fn is_push_pull(line: &IrqLine) -> bool
    ensures { result ≡ is_push_pull line.now }
{
    line.output && !line.open_drain
}

/// Why what is to be done with an interrupt is refused, if it is.
pub(crate) fn refusal(what: IrqDo, line: &IrqLine, irq: &Irq) -> Option<Errno>
    ensures { result ≡ refusal what line.now irq.now }
{
    match what {
        IrqDo::Lock => lock_refusal(line, irq),
        IrqDo::Enable => enable_refusal(line, irq),
        IrqDo::Unlock | IrqDo::Disable => (!irq.locked).then_some(Errno::Inval),
        IrqDo::Never => (irq.locked || line.claimed || line.watched).then_some(Errno::Busy),
    }
}

/// Why a lock is refused, if it is.
fn lock_refusal(line: &IrqLine, irq: &Irq) -> Option<Errno>
    ensures { result ≡ refusal IrqDo.Lock line.now irq.now }
{
    if line.claimed {
        return Some(Errno::Busy);
    }
    if !irq.has {
        return Some(Errno::NxIo);
    }
    if is_push_pull(line) {
        return Some(Errno::Io);
    }
    None
}

/// Why an enabling is refused, if it is.
fn enable_refusal(line: &IrqLine, irq: &Irq) -> Option<Errno>
    ensures { result ≡ refusal IrqDo.Enable line.now irq.now }
{
    if !irq.locked {
        return Some(Errno::Inval);
    }
    if line.claimed {
        return Some(Errno::Busy);
    }
    if is_push_pull(line) {
        return Some(Errno::Io);
    }
    None
}

/// Does it.
pub(crate) fn carry_out(what: IrqDo, irq: &mut Irq)
    ensures { irq.new ≡ done what irq.old }
{
    match what {
        IrqDo::Lock => {
            irq.locked = true;
            irq.enabled = true;
        }
        IrqDo::Unlock => {
            irq.locked = false;
            irq.enabled = false;
        }
        IrqDo::Enable => irq.enabled = true,
        IrqDo::Disable => irq.enabled = false,
        IrqDo::Never => irq.has = false,
    }
}

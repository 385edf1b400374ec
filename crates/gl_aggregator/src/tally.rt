//! What the port of an aggregator counts itself.
ghost use Rattle.std.specs.Prelude.{◌≡◌, ◌≤◌, None, IfErr};
ghost use Rattle.gl_base.specs.Count.{Rises};
ghost use Rattle.gl_driver.specs.Told.{answer_of};
ghost use Rattle.gl_aggregator.specs.Ports.{with_one_more};

use gl_base::{Op, count_up};
use gl_driver::{DriverCall, DriverFault};

/// The calls that went through a port, and its failures.
#[derive(Drop)]
pub(crate) struct Tally {
    /// How many calls there were.
    pub(crate) calls: u64,
    /// The last of them.
    pub(crate) last: Option<DriverCall>,
    /// How many failures were counted.
    pub(crate) faults: u64,
}

impl Tally {
    /// No call and no failure.
    pub(crate) fn new() -> Tally
        ensures { result ≡ record { calls = 0; last = None; faults = 0 } }
    {
        Tally {
            calls: 0,
            last: None,
            faults: 0,
        }
    }

    /// Takes down a call and its answer, and counts a failure.
    pub(crate) fn take_down(&mut self, op: &Op, answer: Option<u64>) -> Result<u64, DriverFault>
        ensures answer { answer_of result ≡ answer }
        ensures tally { self.new ≡ with_one_more op.now answer self.old }
        ensures never_falls { self.old.faults ≤ self.new.faults }
        ensures fault { IfErr result (λ _. Rises self.old.faults self.new.faults) }
    {
        self.calls = count_up(self.calls);
        self.last = Some(DriverCall { op: *op, answer });
        match answer {
            Some(bits) => Ok(bits),
            None => {
                self.faults = count_up(self.faults);
                Err(DriverFault)
            }
        }
    }
}

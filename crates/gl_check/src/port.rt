//! What a planned driver goes by at a port of its own.

ghost use Rattle.std.specs.Prelude.{◌≡◌};
ghost use Rattle.gl_base.specs.Count.{counted_up};
ghost use Rattle.gl_base.specs.Planned.{names_call};
ghost use Rattle.gl_check.specs.One.{from_plan};
ghost use Rattle.gl_check.specs.Ports.{after_answer, next_answer, unplanned};
ghost use Rattle.gl_check.specs.Seating.{port_in};

use gl_base::count_up;

/// How many calls of the driver there were, the one that is to fail, by its number among them, counted from 1, and the accepted bits.
#[derive(Clone, Copy)]
pub struct Planned {
    /// How many there were.
    pub calls: u64,
    /// The call that is to fail, if one is.
    pub plan: Option<u128>,
    /// The bits with which lines are configured.
    pub bits: u64,
}

impl Planned {
    /// No call, no plan, and accepted bits 0.
    pub fn new() -> Planned
        ensures { port_in result ≡ unplanned }
    {
        Planned {
            calls: 0,
            plan: None,
            bits: 0,
        }
    }

    /// The `nth` call from now on is to fail, counted from 1, in place of an earlier plan; 0 takes the plan away.
    pub fn plan(&mut self, nth: u32)
        ensures { port_in self.new ≡ from_plan.planned nth (port_in self.old) }
    {
        self.plan = if nth == 0 {
            None
        } else {
            Some(u128::from(self.calls) + u128::from(nth))
        };
    }

    /// From now on lines are configured with these bits.
    pub fn accept(&mut self, bits: u64)
        ensures { port_in self.new ≡ from_plan.accepted bits (port_in self.old) }
    {
        self.bits = bits;
    }

    /// The next call is the one that is to fail.
    fn fails_next(&self) -> bool
        ensures { result ≡ names_call self.now.plan (counted_up self.now.calls) }
    {
        match self.plan {
            Some(call) => call == u128::from(count_up(self.calls)),
            None => false,
        }
    }

    /// What the driver answers next: a failure, which is None, or the accepted bits where it configures lines, or 0.
    pub fn next_answer(&self, applies: bool) -> Option<u64>
        ensures { result ≡ next_answer applies (port_in self.now) }
    {
        let bits = if applies { self.bits } else { 0 };
        if self.fails_next() { None } else { Some(bits) }
    }

    /// The driver answered once more.
    pub fn count(&mut self)
        ensures { port_in self.new ≡ after_answer (port_in self.old) }
    {
        self.calls = count_up(self.calls);
    }
}

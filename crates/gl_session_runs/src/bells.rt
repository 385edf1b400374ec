//! A driver by whose calls actors of a session wait for each other.
ghost use Rattle.std.specs.Prelude.{◌≡◌, ◌≤◌, false, []};
ghost use Rattle.std.proofs.Common.{sym};
ghost use Rattle.std.proofs.lemmas.Bool.{true≢false};
ghost use Rattle.gl_session.specs.Ports.{AreAllThere, TakeMaps};

use gl_base::Op;
use gl_driver::{Driver, DriverFault, HoldDriver, Port, SimPort};
use gl_gate::{Gate, Pass};
use gl_world::Machine;
use std::array;
use std::hint::spin_loop;
use std::sync::Wait;
use std::sync::atomic::{AtomicBool, Ordering};

/// How often a call that waits for a bell looks whether it has rung. Then it goes on all the same.
const TURNS: u32 = 1_000_000_000;

/// How often a call that rests looks at a bell: some milliseconds, so that a thread that waits for a processor gets one meanwhile.
const RESTING_TURNS: u32 = 4_000_000;

/// Eight bells, which stay rung.
#[derive(Drop)]
struct Bells {
    rung: [AtomicBool; 8],
}

impl Bells {
    /// Bells that haven't rung.
    fn new() -> Bells {
        Bells {
            rung: array::from_fn(|_| AtomicBool::new(false)),
        }
    }

    /// The bell of a line.
    fn bell(&self, line: u32) -> &AtomicBool {
        &self.rung[(line % 8) as usize]
    }

    /// Rings the bell of a line.
    fn ring(&self, line: u32) {
        self.bell(line).store(true, Ordering::SeqCst);
    }

    /// Waits until the bell of a line has rung.
    fn wait_for(&self, line: u32) {
        let bell = self.bell(line);
        for _ in 0..TURNS {
            if bell.load(Ordering::SeqCst) {
                return;
            }
            spin_loop();
        }
    }

    /// Looks at a bell for a while, whether it rings or not.
    fn rest(&self) {
        for _ in 0..RESTING_TURNS {
            let _ = self.bell(0).load(Ordering::SeqCst);
            spin_loop();
        }
    }

    /// What a configuration of lines does, of which this is the first.
    fn on_apply(&self, place: u8, line: u32) {
        if place == 1 {
            self.ring(line);
            self.wait_for(line.wrapping_add(1));
        }
    }

    /// What a setting of values does, of whose lines this is the first.
    fn on_set(&self, place: u8, line: u32) {
        match place {
            0 => self.rest(),
            2 => self.wait_for(line),
            3 => self.ring(line),
            _ => {}
        }
    }

    /// What an operation does before it goes on.
    fn take_part(&self, place: u8, op: &Op) {
        match op {
            Op::Get { .. } => {}
            Op::Set { lines, .. } => self.on_set(place, lines.offsets[0]),
            Op::Apply { lines, .. } => self.on_apply(place, lines.offsets[0]),
        }
    }
}

/// 17 new ports of a driver by whose calls actors wait for each other.
pub fn new_ports() -> [Option<SimPort>; 17]
    ensures there { AreAllThere result }
    ensures bare { TakeMaps (⟦<SimPort as Port>⟧.maps) (⟦<SimPort as Port>⟧.maps_left) result }
{
    array::from_fn(|_| Some(SimPort::new()))
}

/// A driver that goes by bells, one for each of the lines 0 to 7. A configuration of lines at place 1 rings the bell of its first line, and
/// then waits for the next bell. A setting of values at place 2 waits for the bell of its first line, one at place 3 rings it, and one at
/// place 0 rests. Besides it is a `HoldDriver`.
#[derive(Drop)]
pub struct BellDriver {
    bells: Bells,
    hold: HoldDriver,
}

impl BellDriver {
    /// A driver whose bells haven't rung, and that keeps all calls before its `calls`-th one until that one is answered.
    pub fn new(calls: u32) -> BellDriver
        requires { 1 ≤ calls }
    {
        BellDriver {
            bells: Bells::new(),
            hold: HoldDriver::new(calls),
        }
    }
}

impl<M: Machine> Driver<M> for BellDriver {
    type Port = SimPort;

    const ENTRIES: u32 = 0;

    ghost ENTRIES = { 0 };

    ghost is_planned = { false };

    ghost OwnEntries = { λ _ _ own. own ≡ [] };

    ghost Follows = { λ _ _ _ _ _ _ _. Unit {0} };

    fn call<R: Wait>(
        &self,
        rt: &R,
        gate: &Gate<M>,
        port: &mut SimPort,
        pass: &mut Pass<M>,
        place: u8,
        op: &Op,
    ) -> Result<u64, DriverFault> {
        self.bells.take_part(place, op);
        self.hold.call(rt, gate, port, pass, place, op)
    }

    ghost owns_none = { λ _ _ _ _ is. is };

    ghost follows_plan = { λ planned. absurd (true≢false (sym planned)) };
}

//! Devices of the tree that go live.

ghost use Rattle.std.specs.Prelude.{◌≡◌, ◌+◌, ◌<◌, ◌≤◌, length, slice_get, IfOk};
ghost use Rattle.gl_base.specs.Refusals.{answer};
ghost use Rattle.gl_base.specs.declared.limits.TheConstants.{PLACES};
ghost use Rattle.gl_simtree.specs.Calls.{live_refusal};
ghost use Rattle.gl_simtree.specs.Rows.{banks_of};
ghost use Rattle.gl_model.specs.Chips.{places_left};
ghost use Rattle.gl_model.specs.Tree.{go_live, gone_live};
ghost use Rattle.gl_core.specs.Live.{planned, with_bank_chips, with_planned};
ghost use Rattle.gl_core.specs.Steps.{Follows, Steps, Tells};

use crate::state::State;
use gl_base::{Errno, Kind, Name, push_within};
use gl_model::{Origin, Reply};

impl State {
    /// Makes the chips of a device: each bank, in order of its mkdir, takes the next place. Refused as [`Tree::check_live`]
    /// says.
    pub(crate) fn go_live(&mut self, device: &Name) -> Reply
        ensures { Steps (go_live device.now) self.old self.new result }
    {
        match self.check_live(device) {
            Err(errno) => Reply::Refused(errno),
            Ok(banks) => {
                self.make_live(device, banks);
                Reply::Done
            }
        }
    }

    /// The number of a device's banks, where it can go live.
    fn check_live(&self, device: &Name) -> Result<u32, Errno>
        ensures told { Tells (λ w. answer (live_refusal device.now (places_left w) w.tree) (length (banks_of device.now w.tree))) self.now result }
        ensures room { IfOk result (λ banks. length self.now.chips + banks ≤ PLACES) }
        ensures all { IfOk result (λ banks. banks ≡ length (banks_of device.now self.now.tree)) }
    {
        self.tree.check_live(device, self.chips.left())
    }

    /// Makes the chips of a device that can go live.
    fn make_live(&mut self, device: &Name, banks: u32)
        requires room { length self.old.chips + banks ≤ PLACES }
        requires all { banks ≡ length (banks_of device.now self.old.tree) }
        ensures { Follows (λ w. (gone_live device.now w).world) self.old self.new }
    {
        let first = self.used();
        self.tree.set_live(device, first);
        self.make_banks(device, banks);
    }

    /// Makes the chips of the first banks of a device, in order.
    fn make_banks(&mut self, device: &Name, banks: u32)
        requires room { length self.old.chips + banks ≤ PLACES }
        requires all { banks ≡ length (banks_of device.now self.old.tree) }
        ensures { self.new ≡ with_bank_chips device.now (banks_of device.now self.old.tree) self.old }
    {
        for bank in 0..banks {
            self.make_bank(device, bank);
        }
    }

    /// Makes the chip of one bank of a device, at the next place.
    fn make_bank(&mut self, device: &Name, bank: u32)
        requires { length self.old.chips < PLACES }
        ensures { self.new ≡ with_planned device.now (planned (slice_get (banks_of device.now self.old.tree) bank) self.old.tree) self.old }
    {
        self.plan.fill(&self.tree, device, bank);
        match self.chips.add(self.plan.label(), self.plan.lines()) {
            Err(_) => {}
            Ok(place) => {
                let origin = Origin {
                    kind: Kind::Simulated,
                    device: Some(*device),
                    remover: None,
                };
                push_within(&mut self.origins, origin);
                self.places.open(self.plan.lines());
                self.places.furnish(place, &self.plan);
            }
        }
    }
}

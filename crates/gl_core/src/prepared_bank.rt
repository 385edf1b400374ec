//! What a bank of the tree becomes when its device goes live.

ghost use Rattle.std.specs.Prelude.{◌≡◌, ◌≤◌, length, slice_get, IsOkUnless};
ghost use Rattle.gl_base.specs.declared.limits.TheConstants.{LINES_MAX};
ghost use Rattle.gl_simtree.specs.Rows.{banks_of};
ghost use Rattle.gl_model.specs.Tree.{with_names};
ghost use Rattle.gl_core.specs.Live.{furnished, planned};

use gl_base::{Errno, Name};
use gl_desc::Descs;
use gl_hogs::apply;
use gl_model::Place;
use gl_simtree::{BankPlan, Tree};
use std::alloc::Global;
use std::marker::Model;

/// The plan of one bank, with room for the names and hogs of any, so that filling it takes no memory.
#[derive(Drop)]
pub(crate) struct PreparedBank {
    bank: BankPlan,
}

impl Model for PreparedBank {
    ghost use Rattle.gl_simtree.specs.Room.{HasRoom};
    ghost use Rattle.gl_core.specs.Live.{Planned};

    ghost Value = { Planned };

    ghost view = { λ p. record { label = p.bank.label; lines = p.bank.lines; names = p.bank.names.items; hogs = p.bank.hogs.items } };

    ghost invariant = { λ p. HasRoom p.bank };
}

impl PreparedBank {
    /// A plan of nothing. It fails only when out of memory.
    pub(crate) fn new(alloc: Global) -> Result<PreparedBank, Errno>
        ensures memory_alone { IsOkUnless result Errno.NoMemory }
    {
        let bank = BankPlan::new(alloc)?;
        Ok(PreparedBank { bank })
    }

    /// Plans the bank of this number of a device, in order of their making.
    pub(crate) fn fill(&mut self, tree: &Tree, device: &Name, bank: u32)
        ensures plan { self.new ≡ planned (slice_get (banks_of device.now tree.now) bank) tree.now }
        ensures few { self.new.lines ≤ LINES_MAX }
    {
        tree.plan(device, bank, &mut self.bank);
    }

    /// The label of the chip.
    pub(crate) fn label(&self) -> Name
        ensures { result ≡ self.now.label }
    {
        self.bank.label
    }

    /// How many lines the chip has.
    pub(crate) fn lines(&self) -> u32
        ensures { result ≡ self.now.lines }
    {
        self.bank.lines
    }

    /// Gives the lines of a place their names, and holds the hogs.
    pub(crate) fn furnish(&self, tables: &mut Place)
        ensures { tables.new ≡ furnished self.now tables.old }
    {
        name_lines(&mut tables.descs, &self.bank.names);
        apply(&mut tables.descs, &mut tables.bank, &self.bank.hogs);
    }
}

/// Gives lines their names, each at its offset.
fn name_lines(descs: &mut Descs, names: &[(u32, Name)])
    ensures { descs.new ≡ with_names names.now descs.old }
{
    for (offset, name) in names {
        descs.set_name(*offset, *name);
    }
}

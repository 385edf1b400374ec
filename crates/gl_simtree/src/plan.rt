//! What a bank becomes when its device goes live.
ghost use Rattle.std.specs.Prelude.{◌≡◌, ◌+◌, ◌<◌, ◌≤◌, [], ◌++◌, IfOk, IsOkUnless, IsTrue, Some, length, option_copied, vec_capacity};
ghost use Rattle.gl_simtree.specs.Plans.{chip_label, line_name, line_hog, names_from, hogs_from, planned_label, planned_lines, planned_names, planned_hogs};
ghost use Rattle.gl_simtree.specs.Forms.{is_device, is_bank};
ghost use Rattle.gl_simtree.specs.Formed.{IsFormedRow};
ghost use Rattle.gl_simtree.specs.BankRows.{AreFound};
ghost use Rattle.gl_simtree.specs.declared.node.Directory.TheVariants.{Line, Hog as HogDirectory};

use crate::bank_rows::{BankRows, LineRows, row_found};
use crate::row::TreeRow;
use gl_base::{Errno, LINES_MAX, Name, push_within};
use gl_desc::Hog;
use std::alloc::Global;

/// The chip that a bank becomes.
#[derive(Drop)]
pub struct BankPlan {
    /// Its label.
    pub label: Name,
    /// How many lines it has, from 1 to 512; 0 for a plan of nothing.
    pub lines: u32,
    /// The name of each line that has a directory, with its offset, in order of the offsets. A line whose
    /// name was never written has the empty one.
    pub names: Vec<(u32, Name)>,
    /// The lines that the board itself holds, in order of their offsets.
    pub hogs: Vec<Hog>,
}

impl BankPlan {
    ghost use Rattle.gl_simtree.specs.Room.{HasRoom};

    /// A plan of nothing, with room for the names and hogs of any bank. `NoMemory` alone is refused.
    pub fn new(alloc: Global) -> Result<BankPlan, Errno>
        ensures label { IfOk result (λ plan. plan.label ≡ []) }
        ensures lines { IfOk result (λ plan. plan.lines ≡ 0) }
        ensures names { IfOk result (λ plan. plan.names.items ≡ []) }
        ensures hogs { IfOk result (λ plan. plan.hogs.items ≡ []) }
        ensures room { IfOk result HasRoom }
        ensures memory_alone { IsOkUnless result Errno.NoMemory }
    {
        let names = match Vec::with_capacity(alloc, LINES_MAX as usize) {
            Ok(names) => names,
            Err(_) => return Err(Errno::NoMemory),
        };
        match Vec::with_capacity(alloc, LINES_MAX as usize) {
            Ok(hogs) => Ok(BankPlan {
                label: Name::empty(),
                lines: 0,
                names,
                hogs,
            }),
            Err(_) => Err(Errno::NoMemory),
        }
    }

    /// Fills the plan anew with what a row becomes: a bank becomes a chip, any other row nothing.
    pub(crate) fn fill(&mut self, rows: &[TreeRow], row: &TreeRow)
        requires formed { IsFormedRow row.now }
        requires room { HasRoom self.old }
        ensures label { self.new.label ≡ planned_label (Some row.now) }
        ensures lines { self.new.lines ≡ planned_lines (Some row.now) }
        ensures few { self.new.lines ≤ LINES_MAX }
        ensures names { self.new.names.items ≡ planned_names (Some row.now) rows.now }
        ensures hogs { self.new.hogs.items ≡ planned_hogs (Some row.now) rows.now }
        ensures room { HasRoom self.new }
    {
        match row {
            TreeRow::Bank {
                device,
                bank,
                lines,
                label,
            } => {
                self.label = chip_label(device, bank, label);
                self.lines = *lines;
                let found = BankRows::of(rows, device, bank);
                fill_names(&mut self.names, rows, device, bank, &found.lines, *lines);
                fill_hogs(&mut self.hogs, rows, device, bank, &found.hogs, *lines);
            }
            TreeRow::Device { .. } | TreeRow::Line { .. } | TreeRow::Hog { .. } => self.clear(),
        }
    }

    /// Makes it a plan of nothing.
    pub(crate) fn clear(&mut self)
        requires { HasRoom self.old }
        ensures label { self.new.label ≡ [] }
        ensures lines { self.new.lines ≡ 0 }
        ensures names { self.new.names.items ≡ [] }
        ensures hogs { self.new.hogs.items ≡ [] }
        ensures room { HasRoom self.new }
    {
        self.label = Name::empty();
        self.lines = 0;
        self.names.clear();
        self.hogs.clear();
    }
}

/// The label of a bank's chip: that of the bank, or DEV-BANK where this is empty.
fn chip_label(device: &Name, bank: &Name, label: &Name) -> Name
    requires device { IsTrue (is_device device.now) }
    requires bank { IsTrue (is_bank bank.now) }
    ensures { result ≡ chip_label device.now bank.now label.now }
{
    if label.as_bytes().is_empty() {
        let device = Name::joined(device.as_bytes(), b"-");
        Name::joined(device.as_bytes(), bank.as_bytes())
    } else {
        *label
    }
}

/// The names of a bank's lines, in order of their offsets, from where the rows of these lines stand.
fn fill_names(
    names: &mut Vec<(u32, Name)>,
    rows: &[TreeRow],
    device: &Name,
    bank: &Name,
    found: &LineRows,
    lines: u32,
)
    requires lines { lines ≤ LINES_MAX }
    requires room { LINES_MAX ≤ vec_capacity names.old }
    requires found { AreFound (Line device.now bank.now) rows.now rows.now found.now }
    ensures names { names.new.items ≡ names_from device.now bank.now rows.now 0 lines }
    ensures room { vec_capacity names.new ≡ vec_capacity names.old }
{
    names.clear();
    for offset in 0..lines {
        push_name(names, row_found(rows, found, offset));
    }
}

/// The name of a line directory, with its offset.
fn push_name(names: &mut Vec<(u32, Name)>, row: Option<&TreeRow>)
    requires { length names.old.items < vec_capacity names.old }
    ensures names { names.new.items ≡ names.old.items ++ line_name (option_copied row.entry) }
    ensures count { length names.new.items ≤ length names.old.items + 1 }
    ensures room { vec_capacity names.new ≡ vec_capacity names.old }
{
    if let Some(TreeRow::Line { line, name, .. }) = row {
        push_within(names, (*line, *name));
    }
}

/// The hogs of a bank's lines, in order of their offsets, from where the rows of these hogs stand.
fn fill_hogs(
    hogs: &mut Vec<Hog>,
    rows: &[TreeRow],
    device: &Name,
    bank: &Name,
    found: &LineRows,
    lines: u32,
)
    requires lines { lines ≤ LINES_MAX }
    requires room { LINES_MAX ≤ vec_capacity hogs.old }
    requires found { AreFound (HogDirectory device.now bank.now) rows.now rows.now found.now }
    ensures hogs { hogs.new.items ≡ hogs_from device.now bank.now rows.now 0 lines }
    ensures room { vec_capacity hogs.new ≡ vec_capacity hogs.old }
{
    hogs.clear();
    for offset in 0..lines {
        push_hog(hogs, row_found(rows, found, offset));
    }
}

/// The hog of a hog directory.
fn push_hog(hogs: &mut Vec<Hog>, row: Option<&TreeRow>)
    requires { length hogs.old.items < vec_capacity hogs.old }
    ensures hogs { hogs.new.items ≡ hogs.old.items ++ line_hog (option_copied row.entry) }
    ensures count { length hogs.new.items ≤ length hogs.old.items + 1 }
    ensures room { vec_capacity hogs.new ≡ vec_capacity hogs.old }
{
    if let Some(
        TreeRow::Hog {
            line,
            name,
            way,
            ..
        },
    ) = row
    {
        push_within(
            hogs,
            Hog {
                offset: *line,
                name: *name,
                way: *way,
            },
        );
    }
}

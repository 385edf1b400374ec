//! The tree and its calls.
ghost use Rattle.std.specs.Prelude.{◌≡◌, ◌<◌, ◌≤◌, [], IfOk, IsOkUnless, None, Some, slice_get, length};
ghost use Rattle.gl_simtree.specs.Nodes.{node_at};
ghost use Rattle.gl_base.specs.Refusals.{answer, unless};
ghost use Rattle.gl_simtree.specs.Calls.{mkdir_refusal, made, rmdir_refusal, removed, write_to, write_refusal, written, read_answer, live_refusal, remove_refusal, leaving_state};
ghost use Rattle.gl_simtree.specs.Plans.{planned_label, planned_lines, planned_names, planned_hogs};
ghost use Rattle.gl_base.specs.declared.limits.TheConstants.{LINES_MAX};
ghost use Rattle.gl_simtree.specs.Formed.{IsFormedDirectory};
ghost use Rattle.gl_simtree.specs.Room.{HasRoom};
ghost use Rattle.gl_simtree.specs.Rows.{row_at, with_state, state_of, banks_of};

use crate::limits::DIRECTORIES_MAX;
use crate::node::{Directory, File, Node};
use crate::parse::node_at;
use crate::plan::BankPlan;
use crate::row::{State, TreeRow};
use crate::{edit, form, search};
use gl_base::{Errno, Name, Path, push_within};
use std::alloc::Global;
use std::marker::Model;

/// The configuration tree of gpio-sim. Contracts see it as the list of its rows, one a directory, in
/// order of their making.
#[derive(Drop)]
pub struct Tree {
    rows: Vec<TreeRow>,
}

impl Model for Tree {
    ghost use Rattle.std.specs.Prelude.{List, ◌≡◌, ◌≤◌, length, vec_capacity};
    ghost use Rattle.gl_simtree.specs.declared.row.TreeRow.{TreeRow};
    ghost use Rattle.gl_simtree.specs.declared.limits.TheConstants.{DIRECTORIES_MAX};

    ghost Value = { List TreeRow };

    ghost use Rattle.gl_base.specs.Rows.{Each};
    ghost use Rattle.gl_simtree.specs.Formed.{IsFormedRow};

    ghost view = { λ t. t.rows.items };

    ghost invariant = { λ t. (vec_capacity t.rows ≡ DIRECTORIES_MAX) × (length t.rows.items ≤ DIRECTORIES_MAX) × Each IsFormedRow t.rows.items };
}

impl Tree {
    /// An empty tree, with room for all its directories. `NoMemory` alone is refused.
    pub fn new(alloc: Global) -> Result<Tree, Errno>
        ensures ok { IfOk result (λ tree. tree ≡ []) }
        ensures memory_alone { IsOkUnless result Errno.NoMemory }
    {
        match Vec::with_capacity(alloc, DIRECTORIES_MAX) {
            Ok(rows) => Ok(Tree { rows }),
            Err(_) => Err(Errno::NoMemory),
        }
    }

    /// How many directories there is room for. It is always `DIRECTORIES_MAX`, since no call but `new` takes
    /// memory.
    pub fn capacity(&self) -> usize
        ensures { result ≡ DIRECTORIES_MAX }
    {
        self.rows.capacity()
    }

    /// Makes a directory. The refusals, first case first: `Inval` where the path is of no directory's form,
    /// `NoEnt` without the parent, `Busy` in a device that is live or leaving, `Exist` where it is there,
    /// `NoSpc` where there are 1024 directories.
    pub fn mkdir(&mut self, path: &Path) -> Result<(), Errno>
        ensures answer { result ≡ answer (mkdir_refusal (node_at path.now) self.old) tt }
        ensures tree { self.new ≡ unless (mkdir_refusal (node_at path.now) self.old) (made (node_at path.now) self.old) self.old }
    {
        match node_at(path) {
            Some(Node::Directory(directory)) => self.make(&directory),
            Some(Node::File(..)) | None => Err(Errno::Inval),
        }
    }

    /// Makes this directory.
    fn make(&mut self, directory: &Directory) -> Result<(), Errno>
        requires { IsFormedDirectory directory.now }
        ensures answer { result ≡ answer (mkdir_refusal (Some (Node.Directory directory.now)) self.old) tt }
        ensures tree { self.new ≡ unless (mkdir_refusal (Some (Node.Directory directory.now)) self.old) (made (Some (Node.Directory directory.now)) self.old) self.old }
    {
        match make_refusal(&self.rows, directory) {
            Some(errno) => Err(errno),
            None => {
                push_within(&mut self.rows, TreeRow::new(directory));
                Ok(())
            }
        }
    }

    /// Removes a directory. The refusals, first case first: `Inval` where the path is of no directory's form,
    /// `NoEnt` where it isn't there, `Busy` in a device that is live or leaving, `Busy` with directories in it.
    pub fn rmdir(&mut self, path: &Path) -> Result<(), Errno>
        ensures answer { result ≡ answer (rmdir_refusal (node_at path.now) self.old) tt }
        ensures tree { self.new ≡ unless (rmdir_refusal (node_at path.now) self.old) (removed (node_at path.now) self.old) self.old }
    {
        match node_at(path) {
            Some(Node::Directory(directory)) => self.remove(&directory),
            Some(Node::File(..)) | None => Err(Errno::Inval),
        }
    }

    /// Removes this directory.
    fn remove(&mut self, directory: &Directory) -> Result<(), Errno>
        ensures answer { result ≡ answer (rmdir_refusal (Some (Node.Directory directory.now)) self.old) tt }
        ensures tree { self.new ≡ unless (rmdir_refusal (Some (Node.Directory directory.now)) self.old) (removed (Some (Node.Directory directory.now)) self.old) self.old }
    {
        match removal_refusal(&self.rows, directory) {
            Some(errno) => Err(errno),
            None => {
                edit::remove(&mut self.rows, directory);
                Ok(())
            }
        }
    }

    /// Writes a file. The refusals, first case first: `Inval` where the path is of no file's form, or names
    /// `live`, which the other calls change; `NoEnt` without the directory; `Perm` for `chip_name`; `Busy` in
    /// a device that is live or leaving; `Inval` for a value that isn't one of the file's.
    pub fn write(&mut self, path: &Path, value: &Name) -> Result<(), Errno>
        ensures answer { result ≡ answer (write_refusal (node_at path.now) value.now self.old) tt }
        ensures tree { self.new ≡ unless (write_refusal (node_at path.now) value.now self.old) (written (node_at path.now) value.now self.old) self.old }
    {
        let (directory, file) = match node_at(path) {
            Some(Node::File(directory, file)) => (directory, file),
            Some(Node::Directory(_)) | None => return Err(Errno::Inval),
        };
        if file == File::Live {
            return Err(Errno::Inval);
        }
        self.write_file(&directory, file, value)
    }

    /// Writes a file of a directory; `live` isn't written.
    fn write_file(&mut self, directory: &Directory, file: File, value: &Name) -> Result<(), Errno>
        ensures answer { result ≡ answer (write_to directory.now file value.now (row_at directory.now self.old) self.old) tt }
        ensures tree { self.new ≡ unless (write_to directory.now file value.now (row_at directory.now self.old) self.old) (written (Some (Node.File directory.now file)) value.now self.old) self.old }
    {
        let row = match search::row_at(&self.rows, directory) {
            Some(row) => row,
            None => return Err(Errno::NoEnt),
        };
        if file == File::ChipName {
            return Err(Errno::Perm);
        }
        if search::is_busy(&self.rows, directory) {
            return Err(Errno::Busy);
        }
        match row.written(file, value) {
            Some(row) => {
                edit::replace(&mut self.rows, directory, row);
                Ok(())
            }
            None => Err(Errno::Inval),
        }
    }

    /// What a file reads as. The refusals: `Inval` where the path is of no file's form, `NoEnt` without the
    /// directory.
    pub fn read(&self, path: &Path) -> Result<Name, Errno>
        ensures { result ≡ read_answer (node_at path.now) self.now }
    {
        let (directory, file) = match node_at(path) {
            Some(Node::File(directory, file)) => (directory, file),
            Some(Node::Directory(_)) | None => return Err(Errno::Inval),
        };
        match search::row_at(&self.rows, &directory) {
            Some(row) => Ok(row.shown(file, &self.rows)),
            None => Err(Errno::NoEnt),
        }
    }

    /// The number of a device's banks, where it can go live with this many places left. The refusals, first
    /// case first: `Inval` for a name of another form, `NoEnt` where the device isn't there, `Busy` where it
    /// is leaving, `Perm` where it is live, `Inval` without a bank, `NoSpc` where fewer places are left than
    /// it has banks.
    pub fn check_live(&self, device: &Name, left: u32) -> Result<u32, Errno>
        ensures { result ≡ answer (live_refusal device.now left self.now) (length (banks_of device.now self.now)) }
    {
        if !form::is_device(device.as_bytes()) {
            return Err(Errno::Inval);
        }
        if !search::has(&self.rows, &Directory::Device { device: *device }) {
            return Err(Errno::NoEnt);
        }
        match search::state_of(&self.rows, device) {
            State::Leaving(_) => return Err(Errno::Busy),
            State::Live(_) => return Err(Errno::Perm),
            State::Off => {}
        }
        let banks = search::bank_count(&self.rows, device);
        if banks == 0 {
            return Err(Errno::Inval);
        }
        if left < banks as u32 {
            return Err(Errno::NoSpc);
        }
        Ok(banks as u32)
    }

    /// Whether the chips of a device can be removed. The refusals, first case first: `Inval` for a name of
    /// another form, `NoEnt` where the device isn't there, `Busy` where it is leaving, `Perm` where it isn't
    /// live.
    pub fn check_remove(&self, device: &Name) -> Result<(), Errno>
        ensures { result ≡ answer (remove_refusal device.now self.now) tt }
    {
        if !form::is_device(device.as_bytes()) {
            return Err(Errno::Inval);
        }
        if !search::has(&self.rows, &Directory::Device { device: *device }) {
            return Err(Errno::NoEnt);
        }
        match search::state_of(&self.rows, device) {
            State::Leaving(_) => Err(Errno::Busy),
            State::Off => Err(Errno::Perm),
            State::Live(_) => Ok(()),
        }
    }

    /// Makes a device live, with its chips from a place on, one a bank. Without such a device nothing changes.
    pub fn set_live(&mut self, device: &Name, first: u8)
        ensures { self.new ≡ with_state device.now (State.Live first) self.old }
    {
        edit::set_state(&mut self.rows, device, State::Live(first));
    }

    /// Makes a live device leaving, with its chips at the same places. A device that isn't live stays as it is.
    pub fn set_leaving(&mut self, device: &Name)
        ensures { self.new ≡ with_state device.now (leaving_state (state_of device.now self.old)) self.old }
    {
        let state = search::state_of(&self.rows, device).leaving();
        edit::set_state(&mut self.rows, device, state);
    }

    /// Switches a device off. Without such a device nothing changes.
    pub fn set_off(&mut self, device: &Name)
        ensures { self.new ≡ with_state device.now State.Off self.old }
    {
        edit::set_state(&mut self.rows, device, State::Off);
    }

    /// Fills a plan anew with the bank of a device that has this number, counted from 0 in order of their
    /// making. Without such a bank it is a plan of nothing. It takes no memory.
    pub fn plan(&self, device: &Name, bank: u32, plan: &mut BankPlan)
        requires { HasRoom plan.old }
        ensures label { plan.new.label ≡ planned_label (slice_get (banks_of device.now self.now) bank) }
        ensures lines { plan.new.lines ≡ planned_lines (slice_get (banks_of device.now self.now) bank) }
        ensures few { plan.new.lines ≤ LINES_MAX }
        ensures names { plan.new.names.items ≡ planned_names (slice_get (banks_of device.now self.now) bank) self.now }
        ensures hogs { plan.new.hogs.items ≡ planned_hogs (slice_get (banks_of device.now self.now) bank) self.now }
        ensures room { HasRoom plan.new }
    {
        match search::bank_at(&self.rows, device, bank as usize) {
            Some(row) => plan.fill(&self.rows, row),
            None => plan.clear(),
        }
    }
}

/// Why this directory can't be made, if it can't.
fn make_refusal(rows: &[TreeRow], directory: &Directory) -> Option<Errno>
    ensures refusal { result ≡ mkdir_refusal (Some (Node.Directory directory.now)) rows.now }
    ensures room { result ≡ None → length rows.now < DIRECTORIES_MAX }
{
    if !search::has_parent(rows, directory) {
        Some(Errno::NoEnt)
    } else if search::is_busy(rows, directory) {
        Some(Errno::Busy)
    } else if search::has(rows, directory) {
        Some(Errno::Exist)
    } else if rows.len() >= DIRECTORIES_MAX {
        Some(Errno::NoSpc)
    } else {
        None
    }
}

/// Why this directory can't be removed, if it can't.
fn removal_refusal(rows: &[TreeRow], directory: &Directory) -> Option<Errno>
    ensures { result ≡ rmdir_refusal (Some (Node.Directory directory.now)) rows.now }
{
    if !search::has(rows, directory) {
        Some(Errno::NoEnt)
    } else if search::is_busy(rows, directory) || search::has_inside(rows, directory) {
        Some(Errno::Busy)
    } else {
        None
    }
}

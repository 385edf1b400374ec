//! Where the rows of a bank's lines stand among the rows of the tree.
ghost use Rattle.std.specs.Prelude.{◌≡◌, ◌<◌, None, option_copied, slice_index_or};
ghost use Rattle.gl_base.specs.declared.limits.TheConstants.{LINES_MAX};
ghost use Rattle.gl_simtree.specs.BankRows.{AreFound, hog_in, line_in, row_found, with_row};
ghost use Rattle.gl_simtree.specs.declared.node.Directory.TheVariants.{Line, Hog};

use crate::row::TreeRow;
use gl_base::{LINES_MAX, Name};

/// By the offset of a line, where the first row of its directory stands, or `None` where it has none.
pub(crate) type LineRows = [Option<usize>; LINES_MAX as usize];

/// Where the rows of a bank's lines stand.
#[derive(Drop)]
pub(crate) struct BankRows {
    /// The directories of lines.
    pub lines: LineRows,
    /// The directories of hogs.
    pub hogs: LineRows,
}

impl BankRows {
    /// Looks once at each row for those of a bank's lines.
    pub(crate) fn of(rows: &[TreeRow], device: &Name, bank: &Name) -> BankRows
        ensures lines { AreFound (Line device.now bank.now) rows.now rows.now result.lines }
        ensures hogs { AreFound (Hog device.now bank.now) rows.now rows.now result.hogs }
    {
        let mut lines = [None; LINES_MAX as usize];
        let mut hogs = [None; LINES_MAX as usize];
        for at in (0..rows.len()).rev() {
            note(&mut lines, line_in(device, bank, &rows[at]), at);
            note(&mut hogs, hog_in(device, bank, &rows[at]), at);
        }
        BankRows { lines, hogs }
    }
}

/// The line of a row, if it is of the directory of a line of this bank.
fn line_in(device: &Name, bank: &Name, row: &TreeRow) -> Option<u32>
    ensures { result ≡ line_in device.now bank.now row.now }
{
    match row {
        TreeRow::Line {
            device: of,
            bank: inside,
            line,
            ..
        } if device == of && bank == inside => Some(*line),
        _ => None,
    }
}

/// The line of a row, if it is of the hog directory of a line of this bank.
fn hog_in(device: &Name, bank: &Name, row: &TreeRow) -> Option<u32>
    ensures { result ≡ hog_in device.now bank.now row.now }
{
    match row {
        TreeRow::Hog {
            device: of,
            bank: inside,
            line,
            ..
        } if device == of && bank == inside => Some(*line),
        _ => None,
    }
}

/// The row of a line stands here. A line past the last has none.
#[tactic(auto, using(crate::proofs::BankRows::set_past))]
fn note(found: &mut LineRows, line: Option<u32>, at: usize)
    ensures { found.new ≡ with_row line at found.old }
{
    if let Some(line) = line {
        let place = line as usize;
        if place < found.len() {
            found[place] = Some(at);
        }
    }
}

/// The row of a line, if it has one.
pub(crate) fn row_found<'a>(rows: &'a [TreeRow], found: &LineRows, line: u32) -> Option<&'a TreeRow>
    requires { line < LINES_MAX }
    ensures { option_copied result ≡ row_found rows.now (slice_index_or found.now line None) }
{
    match found[line as usize] {
        Some(at) => rows.get(at),
        None => None,
    }
}

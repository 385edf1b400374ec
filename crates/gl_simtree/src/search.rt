//! Rows found among the others.
ghost use Rattle.std.specs.Prelude.{◌≡◌, ◌≤◌, IfSome, length, option_copied, slice_get};
ghost use Rattle.std.specs.List.{position, list_any};
ghost use Rattle.gl_base.specs.Rows.{Each};
ghost use Rattle.gl_simtree.specs.Formed.{IsFormedRow};
ghost use Rattle.gl_simtree.specs.Rows.{is_row_of, is_row_in, device_of, row_at, has, has_parent, state_of, is_busy, banks_of, bank_number};

use crate::node::Directory;
use crate::row::{State, TreeRow};
use gl_base::Name;

/// Where the row of a directory stands.
pub(crate) fn position_of(rows: &[TreeRow], directory: &Directory) -> Option<usize>
    ensures { result ≡ position (is_row_of directory.now) rows.now }
{
    rows.iter().position(|row| row.is_of(directory))
}

/// The row of a directory.
pub(crate) fn row_at<'a>(rows: &'a [TreeRow], directory: &Directory) -> Option<&'a TreeRow>
    ensures { option_copied result ≡ row_at directory.now rows.now }
{
    rows.iter().find(|row| row.is_of(directory))
}

/// Whether a directory is there.
pub(crate) fn has(rows: &[TreeRow], directory: &Directory) -> bool
    ensures { result ≡ has directory.now rows.now }
{
    rows.iter().any(|row| row.is_of(directory))
}

/// Whether a directory has others in it.
pub(crate) fn has_inside(rows: &[TreeRow], directory: &Directory) -> bool
    ensures { result ≡ list_any (is_row_in directory.now) rows.now }
{
    rows.iter().any(|row| row.is_in(directory))
}

/// Whether the directory is there that another one stands in; a device stands in none.
pub(crate) fn has_parent(rows: &[TreeRow], directory: &Directory) -> bool
    ensures { result ≡ has_parent directory.now rows.now }
{
    match directory {
        Directory::Device { .. } => true,
        Directory::Bank { device, .. } => has(rows, &Directory::Device { device: *device }),
        Directory::Line { device, bank, .. } => has(
            rows,
            &Directory::Bank {
                device: *device,
                bank: *bank,
            },
        ),
        Directory::Hog { device, bank, line } => has(
            rows,
            &Directory::Line {
                device: *device,
                bank: *bank,
                line: *line,
            },
        ),
    }
}

/// How far a device is. One that isn't there is off.
pub(crate) fn state_of(rows: &[TreeRow], device: &Name) -> State
    ensures { result ≡ state_of device.now rows.now }
{
    match row_at(rows, &Directory::Device { device: *device }) {
        Some(TreeRow::Device { state, .. }) => *state,
        Some(TreeRow::Bank { .. } | TreeRow::Line { .. } | TreeRow::Hog { .. }) | None =>
            State::Off,
    }
}

/// Whether the device of a directory is live or leaving.
pub(crate) fn is_busy(rows: &[TreeRow], directory: &Directory) -> bool
    ensures { result ≡ is_busy (device_of directory.now) rows.now }
{
    state_of(rows, directory.device()).is_busy()
}

/// How many banks a device has.
pub(crate) fn bank_count(rows: &[TreeRow], device: &Name) -> usize
    ensures count { result ≡ length (banks_of device.now rows.now) }
    ensures within { result ≤ length rows.now }
{
    let directory = Directory::Device { device: *device };
    let mut count = 0;
    for row in rows {
        if row.is_in(&directory) {
            count += 1;
        }
    }
    count
}

/// Which of its device's banks a bank is, counted from 0.
pub(crate) fn bank_number(rows: &[TreeRow], device: &Name, bank: &Name) -> usize
    ensures number { result ≡ bank_number device.now bank.now rows.now }
    ensures within { result ≤ length rows.now }
{
    let of_device = Directory::Device { device: *device };
    let wanted = Directory::Bank {
        device: *device,
        bank: *bank,
    };
    let mut number = 0;
    for row in rows {
        if row.is_of(&wanted) {
            return number;
        }
        if row.is_in(&of_device) {
            number += 1;
        }
    }
    number
}

/// The bank of a device that has this number, counted from 0.
pub(crate) fn bank_at<'a>(rows: &'a [TreeRow], device: &Name, number: usize) -> Option<&'a TreeRow>
    ensures bank { option_copied result ≡ slice_get (banks_of device.now rows.now) number }
    ensures formed { Each IsFormedRow rows.now → IfSome result (λ row. IsFormedRow row.now) }
{
    let directory = Directory::Device { device: *device };
    let mut left = number;
    for row in rows {
        if row.is_in(&directory) {
            if left == 0 {
                return Some(row);
            }
            left -= 1;
        }
    }
    None
}

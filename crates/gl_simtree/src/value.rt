//! The values of the files.
ghost use Rattle.std.specs.Prelude.{◌≡◌, ◌<◌, ◌≤◌, ◌^◌, [], IfSome, length};
ghost use Rattle.gl_simtree.specs.Formed.{IsFormedRow};
ghost use Rattle.gl_simtree.specs.Values.{lines_of_text, way_of_text, text_of_way, some_text, row_written, live_text, chip_name_of};

use crate::limits::DIRECTORIES_MAX;
use crate::node::File;
use crate::row::{State, TreeRow};
use crate::search;
use gl_base::{LINES_MAX, Name, read_plain_decimal};
use gl_desc::HogWay;

/// A number of lines: a decimal from 1 to 512 without a leading zero.
fn lines_of_text(value: &Name) -> Option<u32>
    ensures { result ≡ lines_of_text value.now }
{
    match read_plain_decimal(value.as_bytes()) {
        Some(lines) if 1 <= lines && lines <= u64::from(LINES_MAX) => Some(lines as u32),
        Some(_) | None => None,
    }
}

/// How a hogged line is held.
fn way_of_text(value: &Name) -> Option<HogWay>
    ensures { result ≡ way_of_text value.now }
{
    if value.as_bytes() == b"input".as_slice() {
        Some(HogWay::Input)
    } else if value.as_bytes() == b"output-high".as_slice() {
        Some(HogWay::High)
    } else if value.as_bytes() == b"output-low".as_slice() {
        Some(HogWay::Low)
    } else {
        None
    }
}

/// A text that isn't empty.
fn some_text(value: &Name) -> Option<Name>
    ensures { result ≡ some_text value.now }
{
    if value.as_bytes().is_empty() {
        None
    } else {
        Some(*value)
    }
}

/// The text of how a hogged line is held.
fn text_of_way(way: HogWay) -> Name
    ensures { result ≡ text_of_way way }
{
    match way {
        HogWay::Input => Name::filled(b"input"),
        HogWay::High => Name::filled(b"output-high"),
        HogWay::Low => Name::filled(b"output-low"),
    }
}

impl TreeRow {
    ghost use Rattle.gl_simtree.specs.Values.{row_written, shown};
    ghost use Rattle.gl_simtree.specs.Formed.{IsFormedRow};

    /// The row after a write to one of its files, where the value is one of the file's.
    pub(crate) fn written(&self, file: File, value: &Name) -> Option<TreeRow>
        ensures row { result ≡ row_written file value.now self.now }
        ensures formed { IfSome result (λ row. IsFormedRow self.now → IsFormedRow row) }
    {
        match self {
            TreeRow::Device { .. } => None,
            TreeRow::Bank {
                device,
                bank,
                lines,
                label,
            } => bank_written(device, bank, *lines, label, file, value),
            TreeRow::Line {
                device,
                bank,
                line,
                ..
            } => line_written(device, bank, *line, file, value),
            TreeRow::Hog {
                device,
                bank,
                line,
                name,
                way,
            } => hog_written(device, bank, *line, name, *way, file, value),
        }
    }

    /// What a file of the row reads as, where the tree has these rows.
    pub(crate) fn shown(&self, file: File, rows: &[TreeRow]) -> Name
        requires { length rows.now ≤ DIRECTORIES_MAX }
        ensures { result ≡ shown file self.now rows.now }
    {
        match (self, file) {
            (TreeRow::Device { state, .. }, File::Live) => live_text(*state),
            (TreeRow::Bank { device, bank, .. }, File::ChipName) => {
                chip_name_of(
                    search::state_of(rows, device),
                    search::bank_number(rows, device, bank),
                )
            }
            (TreeRow::Bank { lines, .. }, File::NumLines) => Name::with_number(
                b"",
                u64::from(*lines),
            ),
            (TreeRow::Bank { label, .. }, File::Label) => *label,
            (TreeRow::Line { name, .. }, File::LineName) => *name,
            (TreeRow::Hog { name, .. }, File::HogName) => *name,
            (TreeRow::Hog { way, .. }, File::Direction) => text_of_way(*way),
            _ => Name::empty(),
        }
    }
}

/// What `live` reads as.
fn live_text(state: State) -> Name
    ensures { result ≡ live_text state }
{
    if state.is_busy() {
        Name::filled(b"1")
    } else {
        Name::filled(b"0")
    }
}

/// The name of a bank's chip, by how far its device is and which of its banks this is.
fn chip_name_of(state: State, bank: usize) -> Name
    requires { bank < 2 ^ 32 }
    ensures { result ≡ chip_name_of state bank }
{
    match state {
        State::Live(first) => Name::with_number(b"gpiochip", u64::from(first) + bank as u64),
        State::Off | State::Leaving(_) => Name::filled(b"none"),
    }
}

/// The row of a bank after a write to one of its files.
fn bank_written(
    device: &Name,
    bank: &Name,
    lines: u32,
    label: &Name,
    file: File,
    value: &Name,
) -> Option<TreeRow>
    ensures row { result ≡ row_written file value.now (TreeRow.Bank device.now bank.now lines label.now) }
    ensures formed { IfSome result (λ row. IsFormedRow (TreeRow.Bank device.now bank.now lines label.now) → IsFormedRow row) }
{
    let (lines, label) = match file {
        File::NumLines => (lines_of_text(value)?, *label),
        File::Label => (lines, some_text(value)?),
        _ => return None,
    };
    Some(TreeRow::Bank {
        device: *device,
        bank: *bank,
        lines,
        label,
    })
}

/// The row of a line after a write to its file.
fn line_written(device: &Name, bank: &Name, line: u32, file: File, value: &Name) -> Option<TreeRow>
    ensures row { result ≡ row_written file value.now (TreeRow.Line device.now bank.now line []) }
    ensures formed { IfSome result (λ row. IsFormedRow (TreeRow.Line device.now bank.now line []) → IsFormedRow row) }
{
    let name = match file {
        File::LineName => some_text(value)?,
        _ => return None,
    };
    Some(TreeRow::Line {
        device: *device,
        bank: *bank,
        line,
        name,
    })
}

/// The row of a hog after a write to one of its files.
fn hog_written(
    device: &Name,
    bank: &Name,
    line: u32,
    name: &Name,
    way: HogWay,
    file: File,
    value: &Name,
) -> Option<TreeRow>
    ensures row { result ≡ row_written file value.now (TreeRow.Hog device.now bank.now line name.now way) }
    ensures formed { IfSome result (λ row. IsFormedRow (TreeRow.Hog device.now bank.now line name.now way) → IsFormedRow row) }
{
    let (name, way) = match file {
        File::HogName => (some_text(value)?, way),
        File::Direction => (*name, way_of_text(value)?),
        _ => return None,
    };
    Some(TreeRow::Hog {
        device: *device,
        bank: *bank,
        line,
        name,
        way,
    })
}

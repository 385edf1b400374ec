//! What a path of the tree names.
ghost use Rattle.std.specs.Prelude.{◌≡◌};

use gl_base::Name;

/// A directory of the tree, by the parts of its path.
#[derive(Clone, Copy, PartialEq, Eq)]
pub enum Directory {
    /// `DEV`: a device.
    Device { device: Name },
    /// `DEV/BANK`: a bank of lines, which becomes one chip.
    Bank { device: Name, bank: Name },
    /// `DEV/BANK/lineN`: a line of a bank.
    Line { device: Name, bank: Name, line: u32 },
    /// `DEV/BANK/lineN/hog`: that the board itself holds the line.
    Hog { device: Name, bank: Name, line: u32 },
}

/// A file of a directory.
#[derive(Clone, Copy, PartialEq, Eq)]
pub enum File {
    /// `live` of a device: whether its chips are there.
    Live,
    /// `chip_name` of a bank.
    ChipName,
    /// `num_lines` of a bank.
    NumLines,
    /// `label` of a bank.
    Label,
    /// `name` of a line.
    LineName,
    /// `name` of a hog: its consumer.
    HogName,
    /// `direction` of a hog.
    Direction,
}

/// What a path names.
#[derive(Clone, Copy, PartialEq, Eq)]
pub enum Node {
    /// A directory.
    Directory(Directory),
    /// A file of this directory.
    File(Directory, File),
}

impl Directory {
    ghost use Rattle.gl_simtree.specs.Rows.{device_of};

    /// The device that the directory is of.
    pub fn device(&self) -> &Name
        ensures { result.now ≡ device_of self.now }
    {
        match self {
            Directory::Device { device }
            | Directory::Bank { device, .. }
            | Directory::Line { device, .. }
            | Directory::Hog { device, .. } => device,
        }
    }
}

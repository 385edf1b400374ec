//! The rows of the tree: its directories, each with its values.
ghost use Rattle.std.specs.Prelude.{◌≡◌};

use crate::node::Directory;
use gl_base::Name;
use gl_desc::HogWay;

/// How far a device is.
#[derive(Clone, Copy, PartialEq, Eq)]
pub enum State {
    /// It has no chips.
    Off,
    /// It has chips from this place on, one a bank.
    Live(u8),
    /// Its chips, from this place on, are being removed.
    Leaving(u8),
}

impl State {
    ghost use Rattle.gl_simtree.specs.Rows.{is_busy_state};
    ghost use Rattle.gl_simtree.specs.Calls.{leaving_state};

    /// Whether the device is live or leaving.
    pub fn is_busy(&self) -> bool
        ensures { result ≡ is_busy_state self.now }
    {
        match self {
            State::Off => false,
            State::Live(_) | State::Leaving(_) => true,
        }
    }

    /// The state of a device whose removal begins: leaving where it was live, else as it was.
    pub(crate) fn leaving(self) -> State
        ensures { result ≡ leaving_state self }
    {
        match self {
            State::Live(first) => State::Leaving(first),
            State::Off | State::Leaving(_) => self,
        }
    }
}

/// A directory of the tree with its values.
#[derive(Clone, Copy)]
pub enum TreeRow {
    /// A device.
    Device {
        device: Name,
        state: State,
    },
    /// A bank: its number of lines, from 1 to 512, and its label.
    Bank {
        device: Name,
        bank: Name,
        lines: u32,
        label: Name,
    },
    /// A line of a bank, and its name.
    Line {
        device: Name,
        bank: Name,
        line: u32,
        name: Name,
    },
    /// That the board itself holds a line: its consumer, and how.
    Hog {
        device: Name,
        bank: Name,
        line: u32,
        name: Name,
        way: HogWay,
    },
}

impl TreeRow {
    ghost use Rattle.gl_simtree.specs.Rows.{is_row_of, is_row_in, new_row, row_with_state};
    ghost use Rattle.gl_simtree.specs.Formed.{IsFormedDirectory, IsFormedRow};

    /// The row of a new directory, with its values at first.
    pub fn new(directory: &Directory) -> TreeRow
        ensures row { result ≡ new_row directory.now }
        ensures formed { IsFormedDirectory directory.now → IsFormedRow result }
    {
        match directory {
            Directory::Device { device } => TreeRow::Device {
                device: *device,
                state: State::Off,
            },
            Directory::Bank { device, bank } => TreeRow::Bank {
                device: *device,
                bank: *bank,
                lines: 1,
                label: Name::empty(),
            },
            Directory::Line { device, bank, line } => TreeRow::Line {
                device: *device,
                bank: *bank,
                line: *line,
                name: Name::empty(),
            },
            Directory::Hog { device, bank, line } => TreeRow::Hog {
                device: *device,
                bank: *bank,
                line: *line,
                name: Name::empty(),
                way: HogWay::Input,
            },
        }
    }

    /// Whether this is the row of a directory.
    pub fn is_of(&self, directory: &Directory) -> bool
        ensures { result ≡ is_row_of directory.now self.now }
    {
        match (self, directory) {
            (TreeRow::Device { device, .. }, Directory::Device { device: wanted }) => wanted
                == device,
            (
                TreeRow::Bank { device, bank, .. },
                Directory::Bank {
                    device: wanted,
                    bank: of,
                },
            ) => wanted == device && of == bank,
            (
                TreeRow::Line {
                    device,
                    bank,
                    line,
                    ..
                },
                Directory::Line {
                    device: wanted,
                    bank: of,
                    line: at,
                },
            ) => { wanted == device && of == bank && at == line }
            (
                TreeRow::Hog {
                    device,
                    bank,
                    line,
                    ..
                },
                Directory::Hog {
                    device: wanted,
                    bank: of,
                    line: at,
                },
            ) => { wanted == device && of == bank && at == line }
            _ => false,
        }
    }

    /// Whether this is the row of a directory right inside another one.
    pub fn is_in(&self, directory: &Directory) -> bool
        ensures { result ≡ is_row_in directory.now self.now }
    {
        match (self, directory) {
            (TreeRow::Bank { device, .. }, Directory::Device { device: wanted }) => wanted
                == device,
            (
                TreeRow::Line { device, bank, .. },
                Directory::Bank {
                    device: wanted,
                    bank: of,
                },
            ) => wanted == device && of == bank,
            (
                TreeRow::Hog {
                    device,
                    bank,
                    line,
                    ..
                },
                Directory::Line {
                    device: wanted,
                    bank: of,
                    line: at,
                },
            ) => { wanted == device && of == bank && at == line }
            _ => false,
        }
    }

    /// Sets the state of a device. The rows of other directories have none.
    pub(crate) fn set_state(&mut self, to: State)
        ensures row { self.new ≡ row_with_state to self.old }
        ensures formed { IsFormedRow self.old → IsFormedRow self.new }
    {
        match self {
            TreeRow::Device { state, .. } => *state = to,
            TreeRow::Bank { .. } | TreeRow::Line { .. } | TreeRow::Hog { .. } => {}
        }
    }
}

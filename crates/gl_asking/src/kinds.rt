//! What an operation is, the row of an open file, and what becomes of the open files.

ghost use Rattle.std.specs.Prelude.{◌≡◌, None};
ghost use Rattle.gl_asking.specs.Rows.{kind_of};

use gl_base::{Errno, Lines};
use gl_model::{DeviceCall, Reply};

/// What an open file is of.
#[derive(Clone, Copy)]
pub enum FileKind {
    /// A chip.
    Chip,
    /// A request of these lines.
    Request(Lines),
}

/// An open file, as who carries operations out keeps it: by its slot, with its lines. `files_behind` makes one, of what was answered to an open or to a
/// request of lines. It is no leave to act on the file: for that a device wants it as it gave it itself (`HeldFile` of `gl_chip`).
#[derive(Clone, Copy)]
pub struct FileRow {
    /// The slot by which operations name it.
    pub(crate) slot: u32,
    /// The place of its chip, below `PLACES`.
    pub(crate) place: u8,
    /// Its number.
    pub(crate) fd: u32,
    /// What it is of.
    pub(crate) kind: FileKind,
}

impl FileRow {
    ghost use Rattle.std.specs.Prelude.{◌≡◌};

    /// The slot by which operations name it.
    pub fn slot(&self) -> u32
        ensures { result ≡ self.now.slot }
    {
        self.slot
    }

    /// The place of its chip.
    pub fn place(&self) -> u8
        ensures { result ≡ self.now.place }
    {
        self.place
    }

    /// Its number.
    pub fn number(&self) -> u32
        ensures { result ≡ self.now.fd }
    {
        self.fd
    }

    /// What it is of.
    pub fn kind(&self) -> FileKind
        ensures { result ≡ self.now.kind }
    {
        self.kind
    }
}

/// What the file of a row is of; a chip where there is no row.
pub fn kind_of(row: &Option<FileRow>) -> FileKind
    ensures { result ≡ kind_of row.now }
{
    match row {
        Some(row) => row.kind(),
        None => FileKind::Chip,
    }
}

/// What an operation is.
#[derive(Clone, Copy)]
pub enum Asking {
    /// A call of the device.
    Calls(DeviceCall),
    /// A plan of the actor's port: the number of the driver call that is to fail, counted from 1; 0 takes a plan away.
    Plans(u32),
    /// Bits that the actor's port accepts.
    Accepts(u64),
    /// Refused without a call.
    Refuses(Errno),
}

/// What becomes of the open files by an operation, by what is kept of a file: its row, or the file as a device gave it.
#[derive(Clone, Copy)]
pub enum Change<F> {
    /// They stay.
    Stays,
    /// There is one more.
    Adds(F),
    /// The one in this slot is gone, if there was one.
    Removes(u32),
}

/// What a call of the device is answered, as it says what becomes of a client's files. Who makes the steps of the machine itself makes one, or reads in a
/// history that they were made (`answered_by`), and who answers an operation without a call. A device has its own (`Answer` of `gl_chip`), which has one.
#[derive(Clone, Copy)]
pub struct Answered {
    /// The reply of its last entry.
    pub reply: Reply,
    /// The lines that it asked for, where it made a request of lines on a chip. Only then do they mean something.
    pub lines: Option<Lines>,
}

impl Answered {
    /// A reply of a call that asked for no lines.
    pub fn without_lines(reply: Reply) -> Answered
        ensures reply { result.reply ≡ reply }
        ensures lines { result.lines ≡ None }
    {
        Answered { reply, lines: None }
    }
}

//! Who has one line.
ghost use Rattle.std.specs.Prelude.{◌≡◌};
ghost use Rattle.gl_desc.specs.Desc.{is_free, settled_holder};

use gl_base::Name;

/// Who has a line.
#[derive(Clone, Copy, PartialEq, Eq)]
pub enum Holder {
    /// Nobody.
    Free,
    /// The request of this number, which isn't finished.
    Claimed(u32),
    /// The request of this number.
    Held(u32),
    /// The board itself (gpio-sim, `hog`).
    Hog,
}

/// What is wrong with a line of a request.
#[derive(Clone, Copy, PartialEq, Eq)]
pub enum LineFault {
    /// The offset is at or past the number of lines.
    BadOffset,
    /// Somebody has the line, or it stands earlier in the request.
    Busy,
}

/// One line: its name, and who has it.
#[derive(Clone, Copy, PartialEq, Eq)]
pub struct Desc {
    /// The line's name (`linux/gpio.h`, `struct gpio_v2_line_info`).
    pub name: Name,
    /// Who has the line.
    pub holder: Holder,
    /// What whoever has the line calls itself; empty where nobody has it.
    pub consumer: Name,
}

/// Whether nobody has a line.
pub(crate) fn is_free(holder: Holder) -> bool
    ensures { result ≡ is_free holder }
{
    matches!(holder, Holder::Free)
}

/// A claim becomes a hold.
pub(crate) fn settled_holder(holder: Holder) -> Holder
    ensures { result ≡ settled_holder holder }
{
    match holder {
        Holder::Claimed(fd) => Holder::Held(fd),
        Holder::Free | Holder::Held(_) | Holder::Hog => holder,
    }
}

//! Words that name a chip in an operation.
ghost use Rattle.std.specs.Prelude.{◌≡◌};
ghost use Rattle.gl_base.specs.Decimal.{decimal};

use gl_base::{Name, Path};

/// A name as the word of a chip.
pub fn path_of_name(name: &Name) -> Path
    ensures { result ≡ name.now }
{
    Path::of(name.as_bytes()).unwrap()
}

/// A place's number as the word of its chip.
pub fn path_of_number(number: u32) -> Path
    ensures { result ≡ decimal number }
{
    path_of_name(&Name::with_number(b"", u64::from(number)))
}

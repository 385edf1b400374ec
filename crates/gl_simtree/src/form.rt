//! The forms of the parts of a path.
ghost use Rattle.std.specs.Prelude.{◌≡◌, true, IsTrue};
ghost use Rattle.gl_base.specs.Name.{is_name};
ghost use Rattle.gl_simtree.specs.Forms.{is_part, is_device, is_bank};

use gl_base::are_label_bytes;

/// Whether a part of a path is 1 to 15 bytes of a label.
fn is_part(part: &[u8]) -> bool
    ensures part { result ≡ is_part part.now }
    ensures name { result ≡ true → IsTrue (is_name part.now) }
{
    !part.is_empty() && part.len() <= 15 && are_label_bytes(part)
}

/// Whether a part of a path names a device: it doesn't begin as the name of a chip does.
pub(crate) fn is_device(part: &[u8]) -> bool
    ensures device { result ≡ is_device part.now }
    ensures name { result ≡ true → IsTrue (is_name part.now) }
{
    is_part(part) && !part.starts_with(b"gpiochip")
}

/// Whether a part of a path names a bank: its device has a file `live`.
pub(crate) fn is_bank(part: &[u8]) -> bool
    ensures bank { result ≡ is_bank part.now }
    ensures name { result ≡ true → IsTrue (is_name part.now) }
{
    is_part(part) && part != b"live".as_slice()
}

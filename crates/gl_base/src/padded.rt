//! Short texts in arrays.
ghost use Rattle.std.specs.Prelude.{◌≡◌, ◌≤◌, ◌+◌, ◌++◌, length};
ghost use Rattle.gl_base.specs.Padded.{padded};

/// The bytes, and then zeros.
pub fn pad<const N: usize>(bytes: &[u8]) -> [u8; N]
    requires { length bytes.now ≤ N }
    ensures { result ≡ padded N bytes.now }
{
    let mut array = [0; N];
    array[..bytes.len()].copy_from_slice(bytes);
    array
}

/// The bytes of two texts one after the other, and then zeros.
pub fn pad_both<const N: usize>(first: &[u8], second: &[u8]) -> [u8; N]
    requires { length first.now + length second.now ≤ N }
    ensures { result ≡ padded N (first.now ++ second.now) }
{
    let mut array = [0; N];
    let end = first.len() + second.len();
    let bytes = &mut array[..];
    bytes[..first.len()].copy_from_slice(first);
    bytes[first.len()..end].copy_from_slice(second);
    array
}

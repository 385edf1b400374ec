//! The bytes of labels.
ghost use Rattle.std.specs.Prelude.{◌≡◌, true};
ghost use Rattle.std.specs.List.{list_all};
ghost use Rattle.gl_base.specs.Label.{is_label_byte};
ghost use Rattle.gl_base.specs.Name.{is_nonzero};

/// Whether each byte may stand in a label or a part of a path: whether it is a letter, a digit, `_`, `-`
/// or `.`. These are this project's choice. None of them is 0.
pub fn are_label_bytes(bytes: &[u8]) -> bool
    ensures labels { result ≡ list_all is_label_byte bytes.now }
    ensures nonzero { result ≡ true → list_all is_nonzero bytes.now ≡ true }
{
    bytes.iter().all(|byte| byte.is_ascii_alphanumeric()
        || *byte == b'_'
        || *byte == b'-'
        || *byte == b'.')
}

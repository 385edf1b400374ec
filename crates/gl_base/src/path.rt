//! Paths and words.
ghost use Rattle.std.specs.Prelude.{◌≡◌, IsTrue};
ghost use Rattle.gl_base.specs.Path.{is_path, path_of};

use crate::padded::pad;
use std::marker::Model;

/// A path of the tree, or a word that names a chip: 0 to 127 bytes. Contracts see it as the list of its
/// bytes.
///
/// The length is this project's choice.
#[derive(Clone, Copy)]
pub struct Path {
    len: u8,
    bytes: [u8; 127],
}

impl Model for Path {
    ghost use Rattle.std.specs.Prelude.{List, ℕ, length, take, IsTrue};
    ghost use Rattle.std.specs.Coded.{coded_list, coded_ℕ};
    ghost use Rattle.gl_base.specs.Padded.{IsPadded, padded};

    ghost Value = { List ℕ };

    ghost view = { λ p. take p.len p.bytes };

    ghost invariant = { λ p. IsPadded 127 p.len p.bytes };

    ghost inverse = { λ bytes. record { len = length bytes; bytes = padded 127 bytes } };
}

impl Path {
    /// How many bytes a path has at most.
    pub const LONGEST: usize = 127;

    /// The path of these bytes, if there are at most 127.
    pub fn of(bytes: &[u8]) -> Option<Path>
        ensures { result ≡ path_of bytes.now }
    {
        if bytes.len() > Path::LONGEST {
            return None;
        }
        Some(Path {
            len: bytes.len() as u8,
            bytes: pad(bytes),
        })
    }

    /// The bytes of the path.
    pub fn as_bytes(&self) -> &[u8]
        ensures bytes { result.now ≡ self.now }
        ensures path { IsTrue (is_path self.now) }
    {
        &self.bytes[..self.len as usize]
    }
}

impl PartialEq for Path {
    ghost use Rattle.std.proofs.Common.{rules};
    ghost use Rattle.std.specs.Cmp.Rules.{comparing};
    ghost use Rattle.std.specs.Str.{bytes_eq};

    ghost eq = { bytes_eq };

    ghost laws = { Prim.search (comparing, rules) };

    fn eq(&self, other: &Path) -> bool {
        self.as_bytes() == other.as_bytes()
    }
}

impl Eq for Path {
    ghost use Rattle.std.proofs.Common.{rules};
    ghost use Rattle.std.specs.Cmp.Rules.{comparing};

    ghost laws = { Prim.search (comparing, rules) };
}

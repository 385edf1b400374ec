//! Names of lines, consumers and chips.
ghost use Rattle.std.specs.Prelude.{◌≡◌, ◌≤◌, [], ◌++◌, length, IsTrue};
ghost use Rattle.std.specs.List.{list_all, take_while};
ghost use Rattle.gl_base.specs.Decimal.{decimal};
ghost use Rattle.gl_base.specs.Name.{is_name, is_nonzero, name_of, name_in, field_of};

use crate::padded::{pad, pad_both};
use itoa::Buffer;
use std::marker::Model;

/// A name: 0 to 31 bytes, none of them 0. Contracts see it as the list of its bytes.
///
/// It is the text of a name field of `linux/gpio.h`, where a field has 32 bytes and ends with at least
/// one 0.
#[derive(Clone, Copy)]
pub struct Name {
    len: u8,
    bytes: [u8; 32],
}

impl Model for Name {
    ghost use Rattle.std.specs.Prelude.{List, ℕ, length, take, IsTrue};
    ghost use Rattle.std.specs.Coded.{coded_list, coded_ℕ};
    ghost use Rattle.gl_base.specs.Padded.{IsPadded, padded};
    ghost use Rattle.gl_base.specs.Name.{is_name};

    ghost Value = { List ℕ };

    ghost view = { λ n. take n.len n.bytes };

    ghost invariant = { λ n. IsPadded 32 n.len n.bytes × IsTrue (is_name (take n.len n.bytes)) };

    ghost inverse = { λ bytes. record { len = length bytes; bytes = padded 32 bytes } };
}

impl Name {
    /// How many bytes a name has at most.
    pub const LONGEST: usize = 31;

    /// How many bytes a name field has (`linux/gpio.h`, `GPIO_MAX_NAME_SIZE`): those of a name, and at
    /// least one 0.
    pub const FIELD: usize = 32;

    /// The name of no bytes.
    pub fn empty() -> Name
        ensures { result ≡ [] }
    {
        Name {
            len: 0,
            bytes: [0; 32],
        }
    }

    /// The name of these bytes, if there are at most 31 and none of them is 0.
    pub fn of(bytes: &[u8]) -> Option<Name>
        ensures { result ≡ name_of bytes.now }
    {
        if is_name_text(bytes) {
            Some(Name::filled(bytes))
        } else {
            None
        }
    }

    /// The name that stands in a field: the bytes before the first 0, at most 31.
    #[tactic(auto, using(crate::proofs::Names::name_before_zero))]
    pub fn read(field: &[u8; 32]) -> Name
        ensures { result ≡ name_in field.now }
    {
        Name::filled(before_zero(&field[..Name::LONGEST]))
    }

    /// The name that is a text with a number in decimal behind it, as `gpiochip0`.
    #[tactic(auto, using(crate::proofs::Names::name_with_number))]
    pub fn with_number(text: &[u8], number: u64) -> Name
        requires name { IsTrue (is_name text.now) }
        requires short { length text.now ≤ 11 }
        ensures { result ≡ text.now ++ decimal number }
    {
        let mut buffer = Buffer::new();
        Name::joined(text, buffer.format(number).as_bytes())
    }

    /// Writes the name into a field: its bytes, and then zeros.
    pub fn write_into(&self, field: &mut [u8; 32])
        ensures { field.new ≡ field_of self.now }
    {
        *field = self.bytes;
    }

    /// The name of bytes that are one.
    pub fn filled(text: &[u8]) -> Name
        requires { IsTrue (is_name text.now) }
        ensures { result ≡ text.now }
    {
        Name {
            len: text.len() as u8,
            bytes: pad(text),
        }
    }

    /// The name of two texts one after the other, which are one.
    pub fn joined(first: &[u8], second: &[u8]) -> Name
        requires { IsTrue (is_name (first.now ++ second.now)) }
        ensures { result ≡ first.now ++ second.now }
    {
        Name {
            len: (first.len() + second.len()) as u8,
            bytes: pad_both(first, second),
        }
    }

    /// The bytes of the name.
    pub fn as_bytes(&self) -> &[u8]
        ensures bytes { result.now ≡ self.now }
        ensures name { IsTrue (is_name self.now) }
    {
        &self.bytes[..self.len as usize]
    }
}

impl PartialEq for Name {
    ghost use Rattle.std.proofs.Common.{rules};
    ghost use Rattle.std.specs.Cmp.Rules.{comparing};
    ghost use Rattle.std.specs.Str.{bytes_eq};

    ghost eq = { bytes_eq };

    ghost laws = { Prim.search (comparing, rules) };

    fn eq(&self, other: &Name) -> bool {
        self.as_bytes() == other.as_bytes()
    }
}

impl Eq for Name {
    ghost use Rattle.std.proofs.Common.{rules};
    ghost use Rattle.std.specs.Cmp.Rules.{comparing};

    ghost laws = { Prim.search (comparing, rules) };
}

/// Whether these bytes are a name.
fn is_name_text(bytes: &[u8]) -> bool
    ensures { result ≡ is_name bytes.now }
{
    bytes.len() <= Name::LONGEST && all_nonzero(bytes)
}

/// Whether no byte is 0.
fn all_nonzero(bytes: &[u8]) -> bool
    ensures { result ≡ list_all is_nonzero bytes.now }
{
    bytes.iter().all(|byte| *byte > 0)
}

/// The bytes before the first 0.
fn before_zero(bytes: &[u8]) -> &[u8]
    ensures text { result.now ≡ take_while is_nonzero bytes.now }
{
    for (i, byte) in bytes.iter().enumerate() {
        if *byte == 0 {
            return &bytes[..i];
        }
    }
    bytes
}

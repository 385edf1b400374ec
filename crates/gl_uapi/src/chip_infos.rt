//! The information on a chip.

ghost use Rattle.std.specs.Prelude.{◌≡◌, ◌≤◌, ◌↔◌, ◌++◌, IsSome, IfSome, length, take, drop};
ghost use Rattle.gl_uapi.specs.ChipInfo.{SpellsChip, chip_bytes};
ghost use Rattle.gl_uapi.specs.Fields.{number_at, stretch};

use crate::fields::{name_at, put_name, put_u32, u32_at};
use crate::layout::{CHIP_INFO_SIZE, CHIP_LABEL, CHIP_LINES, CHIP_NAME, NAME_SIZE};
use gl_base::Name;
use std::marker::Model;

/// The information on a chip (`struct gpiochip_info`), 68 bytes: contracts see the bytes.
#[derive(Drop)]
pub struct ChipRef<'a> {
    bytes: &'a [u8],
}

impl<'a> Model for ChipRef<'a> {
    ghost use Rattle.std.specs.Prelude.{◌≡◌, List, ℕ, length};
    ghost use Rattle.gl_uapi.specs.declared.layout.TheConstants.{CHIP_INFO_SIZE};

    ghost Value = { List ℕ };

    ghost view = { λ c. c.bytes.now };

    ghost invariant = { λ c. length c.bytes.now ≡ CHIP_INFO_SIZE };
}

impl<'a> ChipRef<'a> {
    /// The view of the first 68 bytes, or None where there are fewer.
    pub fn of(bytes: &'a [u8]) -> Option<ChipRef<'a>>
        ensures long { IsSome result ↔ (CHIP_INFO_SIZE ≤ length bytes.now) }
        ensures first { IfSome result (λ view. view ≡ take CHIP_INFO_SIZE bytes.now) }
    {
        if bytes.len() < CHIP_INFO_SIZE {
            return None;
        }
        let bytes = &bytes[..CHIP_INFO_SIZE];
        Some(ChipRef { bytes })
    }

    /// The name field with the chip's name.
    pub fn name(&self) -> &'a [u8; NAME_SIZE]
        ensures { result.now ≡ stretch CHIP_NAME NAME_SIZE self.now }
    {
        name_at(self.bytes, CHIP_NAME)
    }

    /// The name field with the chip's label.
    pub fn label(&self) -> &'a [u8; NAME_SIZE]
        ensures { result.now ≡ stretch CHIP_LABEL NAME_SIZE self.now }
    {
        name_at(self.bytes, CHIP_LABEL)
    }

    /// The chip's number of lines.
    pub fn lines(&self) -> u32
        ensures { result ≡ number_at 4 CHIP_LINES self.now }
    {
        u32_at(self.bytes, CHIP_LINES)
    }
}

/// Writes the information on a chip over the first 68 bytes, and leaves the rest.
pub fn write_chip_info(out: &mut [u8], name: &Name, label: &Name, lines: u32)
    requires { CHIP_INFO_SIZE ≤ length out.old }
    ensures spelled { SpellsChip (take CHIP_INFO_SIZE out.new) name.now label.now lines }
    ensures bytes { out.new ≡ chip_bytes name.now label.now lines ++ drop CHIP_INFO_SIZE out.old }
{
    put_name(out, CHIP_NAME, name);
    put_name(out, CHIP_LABEL, label);
    put_u32(out, CHIP_LINES, lines);
}

//! Reading and writing one field of a structure, for this crate's views and writers and for those of other
//! structures. Numbers are little-endian. Offsets and lengths are in bytes.

ghost use Rattle.std.specs.Prelude.{◌≡◌, ◌+◌, ◌≤◌, length};
ghost use Rattle.std.specs.Int.{cast_signed, cast_unsigned, w32};
ghost use Rattle.gl_base.specs.Name.{field_of};
ghost use Rattle.gl_uapi.specs.Fields.{is_zero_at, number_at, number_bytes, overwritten, stretch, zeros};

use crate::layout::NAME_SIZE;
use byteorder::{ByteOrder, LittleEndian};
use gl_base::Name;

/// The 32-bit number at an offset.
#[tactic(auto, unfolding(crate::specs::Fields::number_at))]
pub fn u32_at(bytes: &[u8], offset: usize) -> u32
    requires { offset + 4 ≤ length bytes.now }
    ensures { result ≡ number_at 4 offset bytes.now }
{
    LittleEndian::read_u32(&bytes[offset..])
}

/// The 64-bit number at an offset.
#[tactic(auto, unfolding(crate::specs::Fields::number_at))]
pub fn u64_at(bytes: &[u8], offset: usize) -> u64
    requires { offset + 8 ≤ length bytes.now }
    ensures { result ≡ number_at 8 offset bytes.now }
{
    LittleEndian::read_u64(&bytes[offset..])
}

/// The signed 32-bit number at an offset.
#[tactic(auto, unfolding(crate::specs::Fields::number_at))]
pub fn i32_at(bytes: &[u8], offset: usize) -> i32
    requires { offset + 4 ≤ length bytes.now }
    ensures { result ≡ cast_signed w32 (number_at 4 offset bytes.now) }
{
    LittleEndian::read_i32(&bytes[offset..])
}

/// The `count` bytes from an offset on.
#[tactic(auto, unfolding(crate::specs::Fields::stretch))]
pub fn bytes_at(bytes: &[u8], offset: usize, count: usize) -> &[u8]
    requires { offset + count ≤ length bytes.now }
    ensures stretch { result.now ≡ stretch offset count bytes.now }
    ensures long { length result.now ≡ count }
{
    &bytes[offset..offset + count]
}

/// The name field at an offset.
#[tactic(auto, unfolding(crate::specs::Fields::stretch))]
pub fn name_at(bytes: &[u8], offset: usize) -> &[u8; NAME_SIZE]
    requires { offset + NAME_SIZE ≤ length bytes.now }
    ensures { result.now ≡ stretch offset NAME_SIZE bytes.now }
{
    let (field, _) = bytes[offset..].split_first_chunk::<NAME_SIZE>().unwrap();
    field
}

/// Whether the `count` bytes from an offset on are zero.
pub fn are_zero(bytes: &[u8], offset: usize, count: usize) -> bool
    requires { offset + count ≤ length bytes.now }
    ensures { result ≡ is_zero_at offset count bytes.now }
{
    bytes_at(bytes, offset, count).iter().all(|byte| *byte == 0)
}

/// Writes a 32-bit number at an offset.
pub fn put_u32(out: &mut [u8], offset: usize, number: u32)
    requires { offset + 4 ≤ length out.old }
    ensures { out.new ≡ overwritten offset (number_bytes 4 number) out.old }
{
    LittleEndian::write_u32(&mut out[offset..], number);
}

/// Writes a signed 32-bit number at an offset.
pub fn put_i32(out: &mut [u8], offset: usize, number: i32)
    requires { offset + 4 ≤ length out.old }
    ensures { out.new ≡ overwritten offset (number_bytes 4 (cast_unsigned w32 number)) out.old }
{
    put_u32(out, offset, number.cast_unsigned());
}

/// Writes a 64-bit number at an offset.
pub fn put_u64(out: &mut [u8], offset: usize, number: u64)
    requires { offset + 8 ≤ length out.old }
    ensures { out.new ≡ overwritten offset (number_bytes 8 number) out.old }
{
    LittleEndian::write_u64(&mut out[offset..], number);
}

/// Writes zeros over the `count` bytes from an offset on.
pub fn put_zeros(out: &mut [u8], offset: usize, count: usize)
    requires { offset + count ≤ length out.old }
    ensures { out.new ≡ overwritten offset (zeros count) out.old }
{
    out[offset..offset + count].fill(0);
}

/// Writes a name over the name field at an offset.
pub fn put_name(out: &mut [u8], offset: usize, name: &Name)
    requires { offset + NAME_SIZE ≤ length out.old }
    ensures field { out.new ≡ overwritten offset (field_of name.now) out.old }
    ensures long { length (field_of name.now) ≡ NAME_SIZE }
{
    let mut field = [0; NAME_SIZE];
    name.write_into(&mut field);
    out[offset..offset + NAME_SIZE].copy_from_slice(&field);
}

/// Writes a piece over the bytes from an offset on.
pub fn put_bytes(out: &mut [u8], offset: usize, piece: &[u8])
    requires { offset + length piece.now ≤ length out.old }
    ensures { out.new ≡ overwritten offset piece.now out.old }
{
    out[offset..offset + piece.len()].copy_from_slice(piece);
}

//! Numbers as decimal text.
ghost use Rattle.std.specs.Prelude.{◌≡◌, ◌+◌, ◌-◌, ◌*◌, ◌^◌, ◌++◌, ◌↔◌, ◌&&◌, nat_lt, if◌then◌else◌, Some, None, OnOk, OnErr, IsOkUnless};
ghost use Rattle.std.specs.Char.{is_ascii_digit};
ghost use Rattle.gl_base.specs.Decimal.{decimal, is_fitting, text_value, number_of_text, has_leading_zero, plain_number_of_text};

use crate::errno::Errno;
use crate::limits::DIGITS_MAX;
use itoa::Buffer;

/// The number that a text is: 1 to 20 decimal digits whose value fits in 64 bits. The digits may begin
/// with zeros. This form is this project's choice.
pub fn read_decimal(text: &[u8]) -> Option<u64>
    ensures { result ≡ number_of_text text.now }
{
    if text.is_empty() || text.len() > DIGITS_MAX {
        return None;
    }
    read_digits(text)
}

/// The number that a text without a leading zero is, as `0` or `17`, if it is one.
pub fn read_plain_decimal(text: &[u8]) -> Option<u64>
    ensures { result ≡ plain_number_of_text text.now }
{
    if begins_with_zero(text) {
        return None;
    }
    read_decimal(text)
}

/// Appends a number's digits, without leading zeros. Where memory is wanted, `out` is as it was.
pub fn put_decimal(value: u64, out: &mut Vec<u8>) -> Result<(), Errno>
    ensures ok { OnOk result (out.new.items ≡ out.old.items ++ decimal value) }
    ensures memory_alone { IsOkUnless result Errno.NoMemory }
    ensures err { OnErr result (out.new.items ≡ out.old.items) }
{
    let mut buffer = Buffer::new();
    let text = buffer.format(value);
    out.extend_from_slice(text.as_bytes())?;
    Ok(())
}

/// A number is read back from its digits.
pub fn decimal_reads_back(value: u64)
    ensures { number_of_text (decimal value) ≡ Some value }
{}

/// The texts without a leading zero are the digits of their numbers.
pub fn plain_decimals_are_digits(text: &[u8], value: u64)
    ensures { (plain_number_of_text text.now ≡ Some value) ↔ (text.now ≡ decimal value) }
{}

/// Whether a text begins with a zero that more digits follow.
fn begins_with_zero(text: &[u8]) -> bool
    ensures { result ≡ has_leading_zero text.now }
{
    text.len() > 1 && text[0] == b'0'
}

/// The number that digits write, if they are digits and it fits.
fn read_digits(text: &[u8]) -> Option<u64>
    ensures { result ≡ (if is_fitting text.now then Some (text_value text.now) else None) }
{
    let mut value = 0;
    for byte in text {
        match with_digit(value, *byte) {
            Some(more) => value = more,
            None => return None,
        }
    }
    Some(value)
}

/// The number with one digit more.
fn with_digit(value: u64, byte: u8) -> Option<u64>
    ensures { result ≡ (if is_ascii_digit byte && nat_lt (10 * value + (byte - 48)) (2 ^ 64) then Some (10 * value + (byte - 48)) else None) }
{
    if !byte.is_ascii_digit() {
        return None;
    }
    match value.checked_mul(10) {
        Some(tens) => tens.checked_add(u64::from(byte - b'0')),
        None => None,
    }
}

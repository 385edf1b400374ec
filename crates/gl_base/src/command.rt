//! The numbers of commands (`linux/gpio.h`), and the words of a session that stand for them.
ghost use Rattle.std.specs.Prelude.{◌≡◌, ◌+◌, ◌*◌, ◌%◌, ◌^◌, true, ◌≤◌, length};
ghost use Rattle.gl_base.specs.BytesText.{digit_value};
ghost use Rattle.gl_base.specs.CommandWord.{named_commands, number_named, hex_after, is_command_number, command_number_of};

use crate::bytes_text::{are_hex_digits, digit_value};

/// The number of `GPIO_GET_CHIPINFO_IOCTL`.
pub const GET_CHIPINFO: u32 = 0x8044_B401;

/// The number of `GPIO_V2_GET_LINEINFO_IOCTL`.
pub const GET_LINEINFO: u32 = 0xC100_B405;

/// The number of `GPIO_V2_GET_LINEINFO_WATCH_IOCTL`.
pub const GET_LINEINFO_WATCH: u32 = 0xC100_B406;

/// The number of `GPIO_V2_GET_LINE_IOCTL`.
pub const GET_LINE: u32 = 0xC250_B407;

/// The number of `GPIO_GET_LINEINFO_UNWATCH_IOCTL`.
pub const GET_LINEINFO_UNWATCH: u32 = 0xC004_B40C;

/// The number of `GPIO_V2_LINE_SET_CONFIG_IOCTL`.
pub const LINE_SET_CONFIG: u32 = 0xC110_B40D;

/// The number of `GPIO_V2_LINE_GET_VALUES_IOCTL`.
pub const LINE_GET_VALUES: u32 = 0xC010_B40E;

/// The number of `GPIO_V2_LINE_SET_VALUES_IOCTL`.
pub const LINE_SET_VALUES: u32 = 0xC010_B40F;

/// The number of the command that a word of a session stands for: one of eight names, as `GET_LINE`, or `0x` and
/// eight hexadecimal digits in either case, which may be any number. The names are this project's choice. None
/// where a word is neither.
pub fn command_number(word: &[u8]) -> Option<u32>
    ensures { result ≡ command_number_of word.now }
{
    if is_command_number(word) {
        return Some(hex_number(&word[2..]));
    }
    named_command(word)
}

/// Whether a word is `0x` and eight hexadecimal digits.
fn is_command_number(word: &[u8]) -> bool
    ensures number { result ≡ is_command_number word.now }
    ensures long { result ≡ true → 2 ≤ length word.now }
{
    word.len() == 10 && word.starts_with(b"0x") && are_hex_digits(&word[2..])
}

/// The number of the command that has a name.
fn named_command(word: &[u8]) -> Option<u32>
    ensures { result ≡ number_named word.now named_commands }
{
    if word == b"GET_CHIPINFO".as_slice() {
        Some(GET_CHIPINFO)
    } else if word == b"GET_LINEINFO".as_slice() {
        Some(GET_LINEINFO)
    } else if word == b"WATCH".as_slice() {
        Some(GET_LINEINFO_WATCH)
    } else if word == b"GET_LINE".as_slice() {
        Some(GET_LINE)
    } else if word == b"UNWATCH".as_slice() {
        Some(GET_LINEINFO_UNWATCH)
    } else if word == b"SET_CONFIG".as_slice() {
        Some(LINE_SET_CONFIG)
    } else if word == b"GET_VALUES".as_slice() {
        Some(LINE_GET_VALUES)
    } else if word == b"SET_VALUES".as_slice() {
        Some(LINE_SET_VALUES)
    } else {
        None
    }
}

/// The number that hexadecimal digits write, in 32 bits.
fn hex_number(digits: &[u8]) -> u32
    ensures { result ≡ hex_after 0 digits.now }
{
    let mut number = 0;
    for digit in digits {
        number = with_digit(number, *digit);
    }
    number
}

/// The number with one digit more, in 32 bits.
fn with_digit(number: u32, digit: u8) -> u32
    ensures { result ≡ (16 * number + digit_value digit) % 2 ^ 32 }
{
    ((16 * u64::from(number) + u64::from(digit_value(digit))) % 0x1_0000_0000) as u32
}

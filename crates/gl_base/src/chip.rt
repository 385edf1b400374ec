//! The words that name a chip.
ghost use Rattle.std.specs.Prelude.{◌≡◌, ◌↔◌, Some};
ghost use Rattle.gl_base.specs.ChipWord.{chip_name, chip_number_of, without_chip_prefix, IsChipWord};

use crate::decimal::read_plain_decimal;
use crate::name::Name;

/// The name of the chip of this number, as `gpiochip0`.
pub fn chip_name(number: u8) -> Name
    ensures { result ≡ chip_name number }
{
    Name::with_number(b"gpiochip", u64::from(number))
}

/// The number of the chip that a word names: `N`, `gpiochipN` or `/dev/gpiochipN`, where N is in decimal
/// without leading zeros. That these three are taken is this project's choice.
pub fn chip_number(word: &[u8]) -> Option<u64>
    ensures { result ≡ chip_number_of word.now }
{
    read_plain_decimal(without_prefix(word))
}

/// The words that name a chip are its number, its name and its path, and no others.
pub fn chip_words_are_three(word: &[u8], number: u64)
    ensures { (chip_number_of word.now ≡ Some number) ↔ IsChipWord word.now number }
{}

/// What a chip's word has behind its prefix.
fn without_prefix(word: &[u8]) -> &[u8]
    ensures { result.now ≡ without_chip_prefix word.now }
{
    match word.strip_prefix(b"/dev/gpiochip") {
        Some(number) => number,
        None => match word.strip_prefix(b"gpiochip") {
            Some(number) => number,
            None => word,
        },
    }
}

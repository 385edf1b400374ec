//! Names of any bytes, as `\` and pairs of hexadecimal digits.
ghost use Rattle.std.specs.Prelude.{◌≡◌, ◌<◌, ◌≤◌, length, take};
ghost use Rattle.std.specs.Char.{is_ascii_hexdigit};
ghost use Rattle.std.specs.List.{list_all};
ghost use Rattle.gl_base.specs.BytesText.{digit_value, is_pairs, pair_value, pairs_bytes};
ghost use Rattle.gl_base.specs.Name.{name_of};
ghost use Rattle.gl_script.specs.Forms.{escaped_name, paired_name};

use gl_base::Name;

/// The name that `\` and pairs of hexadecimal digits write, if a word is that.
pub fn escaped_name(word: &[u8]) -> Option<Name>
    ensures { result ≡ escaped_name word.now }
{
    match word {
        [first, digits @ ..] => {
            if *first == b'\\' {
                return paired_name(digits);
            }
            None
        }
        [] => None,
    }
}

/// The name that pairs of hexadecimal digits write, if they write one.
fn paired_name(digits: &[u8]) -> Option<Name>
    ensures { result ≡ paired_name digits.now }
{
    if is_pairs(digits) {
        return name_in_pairs(digits);
    }
    None
}

/// The name whose bytes pairs of digits write, if they are one.
#[tactic(auto, using(crate::proofs::PairedNames::not_longer))]
fn name_in_pairs(digits: &[u8]) -> Option<Name>
    ensures { result ≡ name_of (pairs_bytes digits.now) }
{
    if digits.len() / 2 > Name::LONGEST {
        return None;
    }
    let mut bytes = [0; 31];
    let count = put_pairs(digits, &mut bytes);
    Name::of(&bytes[..count])
}

/// Whether a word is hexadecimal digits, in pairs.
fn is_pairs(word: &[u8]) -> bool
    ensures { result ≡ is_pairs word.now }
{
    !word.is_empty() && word.len() % 2 == 0 && are_hex_digits(word)
}

/// Whether each byte is a hexadecimal digit.
fn are_hex_digits(word: &[u8]) -> bool
    ensures { result ≡ list_all is_ascii_hexdigit word.now }
{
    word.iter().all(|byte| byte.is_ascii_hexdigit())
}

/// Writes the bytes of pairs of hexadecimal digits to the front of a buffer. Gives how many there are.
fn put_pairs(digits: &[u8], bytes: &mut [u8; 31]) -> usize
    requires { length digits.now < 64 }
    ensures few { result ≤ 31 }
    ensures bytes { take result bytes.new ≡ pairs_bytes digits.now }
{
    let mut count = 0;
    let mut rest = digits;
    while let [high, low, after @ ..] = rest {
        bytes[count] = pair_value(*high, *low);
        count += 1;
        rest = after;
    }
    count
}

/// The byte that two hexadecimal digits write.
fn pair_value(high: u8, low: u8) -> u8
    ensures { result ≡ pair_value high low }
{
    ((16 * u32::from(digit_value(high)) + u32::from(digit_value(low))) % 256) as u8
}

/// The value of a hexadecimal digit.
fn digit_value(byte: u8) -> u8
    ensures { result ≡ digit_value byte }
{
    if byte <= b'9' {
        return byte.saturating_sub(b'0');
    }
    if byte <= b'F' {
        return byte.saturating_sub(b'A' - 10);
    }
    byte.saturating_sub(b'a' - 10)
}

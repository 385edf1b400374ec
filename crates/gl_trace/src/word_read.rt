//! What single words are read as: only in the one spelling that is written.
ghost use Rattle.std.specs.Prelude.{◌≡◌, ◌+◌, ◌*◌, ◌≤◌, ◌<◌, Some, None, [], ◌∷◌, take, length, MatchOption, codes};
ghost use Rattle.gl_trace.specs.WordRead.{answer_of, below, eight_behind, eight_bytes, four_behind, four_bytes, hex_of, hex_value, if_plain, kind_of, last_of, long_hex_of, name_word, number4, number_below, onto_bytes, pair_byte, pairs_of, path_word, place_of, poll_of, short, stripped, text_in, text_of, unless_plain, up_of, as_name, as_path};

use crate::words::is_plain;
use gl_base::{Kind, Name, Path, read_plain_decimal};

/// How many bytes a text has at most.
pub(crate) const TEXT_MAX: usize = 127;

/// What stands after `front`, if it is at the front of a text.
pub(crate) fn behind<'a>(front: &[u8], text: &'a [u8]) -> Option<&'a [u8]>
    ensures { MatchOption result (stripped front.now text.now ≡ None) (λ rest. stripped front.now text.now ≡ Some rest.now) }
{
    if text.starts_with(front) {
        return Some(&text[front.len()..]);
    }
    None
}

/// A number below 2^64.
pub(crate) fn number64(word: &[u8]) -> Option<u64>
    ensures { result ≡ number_below 18446744073709551616 word.now }
{
    match read_plain_decimal(word) {
        Some(number) => Some(number),
        None => None,
    }
}

/// A number below 2^32.
pub(crate) fn number32(word: &[u8]) -> Option<u32>
    ensures { result ≡ number_below 4294967296 word.now }
{
    match read_plain_decimal(word) {
        Some(number) if number < 0x1_0000_0000 => Some(number as u32),
        _ => None,
    }
}

/// A number below 256.
pub(crate) fn number8(word: &[u8]) -> Option<u8>
    ensures { result ≡ number_below 256 word.now }
{
    match read_plain_decimal(word) {
        Some(number) if number < 256 => Some(number as u8),
        _ => None,
    }
}

/// 1 for up, or 0.
pub(crate) fn up_of(word: &[u8]) -> Option<bool>
    ensures { result ≡ up_of word.now }
{
    match read_plain_decimal(word) {
        Some(number) if number < 2 => Some(number == 1),
        _ => None,
    }
}

/// `sim` or `remote`.
pub(crate) fn kind_of(word: &[u8]) -> Option<Kind>
    ensures { result ≡ kind_of word.now }
{
    if word == b"sim".as_slice() {
        Some(Kind::Simulated)
    } else if word == b"remote".as_slice() {
        Some(Kind::Remote)
    } else {
        None
    }
}

/// `begin` or `finish`.
pub(crate) fn last_of(word: &[u8]) -> Option<bool>
    ensures { result ≡ last_of word.now }
{
    if word == b"begin".as_slice() {
        Some(false)
    } else if word == b"finish".as_slice() {
        Some(true)
    } else {
        None
    }
}

/// `call` or `poll`.
pub(crate) fn poll_of(word: &[u8]) -> Option<bool>
    ensures { result ≡ poll_of word.now }
{
    if word == b"call".as_slice() {
        Some(false)
    } else if word == b"poll".as_slice() {
        Some(true)
    } else {
        None
    }
}

/// A place, or `-` for all.
pub(crate) fn place_of(word: &[u8]) -> Option<Option<u8>>
    ensures { result ≡ place_of word.now }
{
    if word == b"-".as_slice() {
        return Some(None);
    }
    match number8(word) {
        Some(place) => Some(Some(place)),
        None => None,
    }
}

/// The value of a lower-case hexadecimal digit.
pub(crate) fn hex_value(byte: u8) -> Option<u8>
    ensures value { result ≡ hex_value byte }
    ensures low { MatchOption result (Unit {0}) (λ value. value < 16) }
{
    if 48 <= byte && byte <= 57 {
        Some(byte - 48)
    } else if 97 <= byte && byte <= 102 {
        Some(byte - 87)
    } else {
        None
    }
}

/// The byte of two lower-case digits.
pub(crate) fn pair_byte(high: u8, low: u8) -> Option<u8>
    ensures { result ≡ pair_byte (hex_value high) (hex_value low) }
{
    match hex_value(high) {
        Some(h) => match hex_value(low) {
            Some(l) => Some(16 * h + l),
            None => None,
        },
        None => None,
    }
}

/// A byte, and what stands after its pair.
#[derive(Clone, Copy)]
struct Pair<'a> {
    /// The byte.
    byte: u8,
    /// What stands after.
    rest: &'a [u8],
}

/// The byte of the pair at the front.
fn first_pair(digits: &[u8]) -> Option<Pair<'_>>
    requires { 0 < length digits.now }
    ensures pairs { MatchOption result (pairs_of digits.now ≡ None) (λ pair. pairs_of digits.now ≡ onto_bytes (Some pair.byte) (pairs_of pair.rest.now)) }
    ensures less { MatchOption result (Unit {0}) (λ pair. length pair.rest.now < length digits.now) }
{
    match digits {
        [high, low, rest @ ..] => match pair_byte(*high, *low) {
            Some(byte) => Some(Pair { byte, rest }),
            None => None,
        },
        _ => None,
    }
}

/// Reads lower-case pairs into a buffer, and gives how many bytes there are: at most 127.
#[tactic(auto, using(crate::proofs::Pairs::pairs))]
pub(crate) fn read_pairs(digits: &[u8], bytes: &mut [u8; 127]) -> Option<usize>
    ensures { MatchOption result (short (pairs_of digits.now) ≡ None) (λ count. (count ≤ 127) × (short (pairs_of digits.now) ≡ Some (take count bytes.new))) }
{
    let mut count = 0;
    let mut rest = digits;
    while !rest.is_empty() {
        if count >= TEXT_MAX {
            return None;
        }
        match first_pair(rest) {
            Some(pair) => {
                bytes[count] = pair.byte;
                count += 1;
                rest = pair.rest;
            }
            None => return None,
        }
    }
    Some(count)
}

/// The number of four bytes, the highest first.
fn number4(a: u8, b: u8, c: u8, d: u8) -> u32
    ensures { result ≡ number4 a b c d }
{
    ((u32::from(a) * 256 + u32::from(b)) * 256 + u32::from(c)) * 256 + u32::from(d)
}

fn four_bytes(bytes: &[u8]) -> Option<u32>
    ensures { result ≡ four_bytes bytes.now }
{
    match bytes {
        [a, b, c, d] => Some(number4(*a, *b, *c, *d)),
        _ => None,
    }
}

fn eight_bytes(bytes: &[u8]) -> Option<u64>
    ensures { result ≡ eight_bytes bytes.now }
{
    match bytes {
        [a, b, c, d, e, f, g, h] => {
            Some(
                u64::from(number4(*a, *b, *c, *d)) * 0x1_0000_0000
                    + u64::from(number4(*e, *f, *g, *h)),
            )
        }
        _ => None,
    }
}

/// A number of 32 bits: `0x` and eight lower-case digits.
pub(crate) fn hex_of(word: &[u8]) -> Option<u32>
    ensures { result ≡ hex_of word.now }
{
    match behind(b"0x", word) {
        Some(digits) => {
            let mut bytes = [0; 127];
            match read_pairs(digits, &mut bytes) {
                Some(count) => four_bytes(&bytes[..count]),
                None => None,
            }
        }
        None => None,
    }
}

/// A number of 64 bits: `0x` and sixteen lower-case digits.
pub(crate) fn long_hex_of(word: &[u8]) -> Option<u64>
    ensures { result ≡ long_hex_of word.now }
{
    match behind(b"0x", word) {
        Some(digits) => {
            let mut bytes = [0; 127];
            match read_pairs(digits, &mut bytes) {
                Some(count) => eight_bytes(&bytes[..count]),
                None => None,
            }
        }
        None => None,
    }
}

/// What a driver answered: `fault`, or the bits of the lines.
pub(crate) fn answer_of(word: &[u8]) -> Option<Option<u64>>
    ensures { result ≡ answer_of word.now }
{
    if word == b"fault".as_slice() {
        return Some(None);
    }
    match long_hex_of(word) {
        Some(bits) => Some(Some(bits)),
        None => None,
    }
}

/// The name that a word writes.
pub(crate) fn name_word(word: &[u8]) -> Option<Name>
    ensures { result ≡ name_word word.now }
{
    match behind(b"\\", word) {
        Some(pairs) => escaped_name(pairs),
        None => plain_name(word),
    }
}

fn plain_name(word: &[u8]) -> Option<Name>
    ensures { result ≡ as_name (if_plain word.now) }
{
    if is_plain(word) {
        return Name::of(word);
    }
    None
}

fn escaped_name(pairs: &[u8]) -> Option<Name>
    ensures { result ≡ as_name (unless_plain (short (pairs_of pairs.now))) }
{
    let mut bytes = [0; 127];
    match read_pairs(pairs, &mut bytes) {
        Some(count) => odd_name(&bytes[..count]),
        None => None,
    }
}

fn odd_name(text: &[u8]) -> Option<Name>
    ensures { result ≡ as_name (unless_plain (Some text.now)) }
{
    if is_plain(text) {
        return None;
    }
    Name::of(text)
}

/// The path that a word writes.
pub(crate) fn path_word(word: &[u8]) -> Option<Path>
    ensures { result ≡ path_word word.now }
{
    match behind(b"\\", word) {
        Some(pairs) => escaped_path(pairs),
        None => plain_path(word),
    }
}

fn plain_path(word: &[u8]) -> Option<Path>
    ensures { result ≡ as_path (if_plain word.now) }
{
    if is_plain(word) {
        return Path::of(word);
    }
    None
}

fn escaped_path(pairs: &[u8]) -> Option<Path>
    ensures { result ≡ as_path (unless_plain (short (pairs_of pairs.now))) }
{
    let mut bytes = [0; 127];
    match read_pairs(pairs, &mut bytes) {
        Some(count) => odd_path(&bytes[..count]),
        None => None,
    }
}

fn odd_path(text: &[u8]) -> Option<Path>
    ensures { result ≡ as_path (unless_plain (Some text.now)) }
{
    if is_plain(text) {
        return None;
    }
    Path::of(text)
}

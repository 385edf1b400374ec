//! Bytes as text: the pieces that are read, and the one spelling that is written.
ghost use Rattle.std.specs.Prelude.{◌≡◌, ◌++◌, ◌+◌, ◌*◌, ◌%◌, ◌<◌, ◌≤◌, true, false, drop, length, OnOk, IfOk, IfSome, IsOkUnless};
ghost use Rattle.std.specs.List.{list_all};
ghost use Rattle.std.specs.Char.{is_ascii_hexdigit};
ghost use Rattle.gl_base.specs.BytesText.{digit_value, pair_value, is_pairs, pairs_bytes, is_times, times_within, times_of, piece_of, piece_size, piece_bytes, zero_run, has_long_run, hex_digit, pair, blank_before, blank_if, run_word, byte_words, bytes_text};

use crate::decimal::{put_decimal, read_plain_decimal};
use crate::errno::Errno;
use crate::seconds::put_repeated;

/// How many bytes a piece `HH*N` stands for at most.
const TIMES_MAX: u64 = 1024;

/// How many bytes a piece has: hexadecimal pairs in either case, or `HH*N`, which means that byte N times, with
/// N in decimal from 1 to 1024 without leading zeros. None where a word is no piece.
#[tactic(auto, using(crate::proofs::Sizes::sizes))]
pub fn piece_size(word: &[u8]) -> Option<u64>
    ensures { result ≡ piece_size word.now }
{
    if is_pairs(word) {
        return Some((word.len() / 2) as u64);
    }
    times_of(word)
}

/// Appends the bytes of a piece; none where a word is no piece. `NoMemory` alone is refused.
pub fn put_piece(word: &[u8], out: &mut Vec<u8>) -> Result<(), Errno>
    ensures ok { OnOk result (out.new.items ≡ out.old.items ++ piece_bytes word.now) }
    ensures memory_alone { IsOkUnless result Errno.NoMemory }
{
    if is_pairs(word) {
        return put_pairs(word, out);
    }
    match times_of(word) {
        Some(times) => put_repeated(times as usize, pair_value(word[0], word[1]), out),
        None => Ok(()),
    }
}

/// Appends the bytes in their one spelling: each maximal run of at least eight zeros as `00*N`, the others in
/// words of lower-case pairs, with one blank between words, and `-` for none. `NoMemory` alone is refused.
pub fn put_bytes(bytes: &[u8], out: &mut Vec<u8>) -> Result<(), Errno>
    ensures ok { OnOk result (out.new.items ≡ out.old.items ++ bytes_text bytes.now) }
    ensures memory_alone { IsOkUnless result Errno.NoMemory }
{
    if bytes.is_empty() {
        out.extend_from_slice(b"-")?;
        return Ok(());
    }
    put_words(bytes, out)
}

/// Whether a word is hexadecimal digits, in pairs.
fn is_pairs(word: &[u8]) -> bool
    ensures { result ≡ is_pairs word.now }
{
    !word.is_empty() && word.len() % 2 == 0 && are_hex_digits(word)
}

/// Whether each byte is a hexadecimal digit.
pub fn are_hex_digits(word: &[u8]) -> bool
    ensures { result ≡ list_all is_ascii_hexdigit word.now }
{
    word.iter().all(|byte| byte.is_ascii_hexdigit())
}

/// The N of `HH*N`, if a word is one.
fn times_of(word: &[u8]) -> Option<u64>
    ensures times { result ≡ times_of word.now }
    ensures long { IfSome result (λ times. 3 < length word.now) }
{
    if is_times(word) {
        return times_within(read_plain_decimal(&word[3..]));
    }
    None
}

/// Whether a word begins as `HH*`, and has more behind it.
fn is_times(word: &[u8]) -> bool
    ensures times { result ≡ is_times word.now }
    ensures long { result ≡ true → 3 < length word.now }
{
    word.len() > 3 && is_pairs(&word[..2]) && word[2] == b'*'
}

fn times_within(times: Option<u64>) -> Option<u64>
    ensures { result ≡ times_within times }
{
    match times {
        Some(times) if 1 <= times && times <= TIMES_MAX => Some(times),
        _ => None,
    }
}

/// The value of a hexadecimal digit.
pub fn digit_value(byte: u8) -> u8
    ensures { result ≡ digit_value byte }
{
    if byte <= b'9' {
        return byte.saturating_sub(b'0');
    }
    if byte <= b'F' {
        return byte.saturating_sub(b'A' - 10);
    }
    byte.saturating_sub(b'a' - 10)
}

/// The byte that two digits write.
fn pair_value(high: u8, low: u8) -> u8
    ensures { result ≡ pair_value high low }
{
    ((16 * u32::from(digit_value(high)) + u32::from(digit_value(low))) % 256) as u8
}

/// Appends the bytes of hexadecimal pairs.
fn put_pairs(word: &[u8], out: &mut Vec<u8>) -> Result<(), Errno>
    ensures ok { OnOk result (out.new.items ≡ out.old.items ++ pairs_bytes word.now) }
    ensures memory_alone { IsOkUnless result Errno.NoMemory }
{
    let mut rest = word;
    while let [high, low, digits @ ..] = rest {
        out.push(pair_value(*high, *low))?;
        rest = digits;
    }
    Ok(())
}

/// Appends the words of bytes.
fn put_words(bytes: &[u8], out: &mut Vec<u8>) -> Result<(), Errno>
    ensures ok { OnOk result (out.new.items ≡ out.old.items ++ byte_words false bytes.now) }
    ensures memory_alone { IsOkUnless result Errno.NoMemory }
{
    let mut rest = bytes;
    while !rest.is_empty() {
        rest = put_front(rest, out)?;
    }
    Ok(())
}

/// Appends the run or the byte at the front, and gives what is left.
fn put_front<'a>(bytes: &'a [u8], out: &mut Vec<u8>) -> Result<&'a [u8], Errno>
    requires { 0 < length bytes.now }
    ensures ok { IfOk result (λ rest. out.new.items ++ byte_words false rest.now ≡ out.old.items ++ byte_words false bytes.now) }
    ensures less { IfOk result (λ rest. length rest.now < length bytes.now) }
    ensures memory_alone { IsOkUnless result Errno.NoMemory }
{
    let count = zero_run(bytes);
    if count >= 8 {
        let (_, rest) = bytes.split_at(count);
        put_run(count, rest, out)?;
        return Ok(rest);
    }
    let (front, rest) = bytes.split_at(1);
    put_byte(front[0], rest, out)?;
    Ok(rest)
}

/// Appends the word of a run of zeros, and a blank where more follows.
fn put_run(count: usize, rest: &[u8], out: &mut Vec<u8>) -> Result<(), Errno>
    ensures ok { OnOk result (out.new.items ≡ out.old.items ++ (run_word count ++ blank_before rest.now)) }
    ensures memory_alone { IsOkUnless result Errno.NoMemory }
{
    out.extend_from_slice(b"00*")?;
    put_decimal(count as u64, out)?;
    if !rest.is_empty() {
        out.extend_from_slice(b" ")?;
    }
    Ok(())
}

/// Appends the pair of a byte, and a blank where a long run follows.
fn put_byte(byte: u8, rest: &[u8], out: &mut Vec<u8>) -> Result<(), Errno>
    ensures ok { OnOk result (out.new.items ≡ out.old.items ++ (pair byte ++ blank_if (has_long_run rest.now))) }
    ensures memory_alone { IsOkUnless result Errno.NoMemory }
{
    out.extend_from_slice(&[hex_digit(byte / 16), hex_digit(byte % 16)])?;
    if has_long_run(rest) {
        out.extend_from_slice(b" ")?;
    }
    Ok(())
}

fn hex_digit(n: u8) -> u8
    requires { n < 16 }
    ensures { result ≡ hex_digit n }
{
    if n < 10 {
        return n + b'0';
    }
    n + (b'a' - 10)
}

fn has_long_run(bytes: &[u8]) -> bool
    ensures { result ≡ has_long_run bytes.now }
{
    zero_run(bytes) >= 8
}

/// How many zeros stand at the front.
fn zero_run(bytes: &[u8]) -> usize
    ensures count { result ≡ zero_run bytes.now }
    ensures few { result ≤ length bytes.now }
{
    for (i, byte) in bytes.iter().enumerate() {
        if *byte != 0 {
            return i;
        }
    }
    bytes.len()
}

//! How the bytes of a command are read. They are guessed from the text, and then the one spelling of the guess has to stand
//! there.
ghost use Rattle.std.specs.Prelude.{◌≡◌, ◌≤◌, ◌<◌, ◌++◌, false, Some, None, length, MatchOption};
ghost use Rattle.gl_base.specs.BytesText.{bytes_text, byte_words, zero_run, has_long_run, hex_digit, pair, blank_before, blank_if, run_word};
ghost use Rattle.gl_base.specs.Decimal.{decimal};
ghost use Rattle.gl_trace.specs.BufferRead.{next_after, next_of, pair_next, run_next, unblank, or_zero, guess, whole_guess};
ghost use Rattle.gl_trace.specs.Fronts.{front_of};
ghost use Rattle.gl_trace.specs.WordRead.{hex_value, pair_byte, stripped};

use crate::fronts::first_word;
use crate::word_read::{behind, pair_byte};
use crate::words::hex_digit;
use gl_base::read_plain_decimal;
use itoa::Buffer;

/// A byte, how many zeros follow it of its run, and what is left of the text.
#[derive(Clone, Copy)]
struct Next<'a> {
    /// The byte.
    byte: u8,
    /// How many zeros follow.
    zeros: u64,
    /// What is left.
    rest: &'a [u8],
}

/// The bytes of a command, of which the first `count` are told.
pub(crate) fn whole_guess(count: usize, text: &[u8]) -> [u8; 592]
    requires { count ≤ 592 }
    ensures { result ≡ whole_guess count text.now }
{
    let mut bytes = [0; 592];
    let mut zeros = 0;
    let mut rest = text;
    for i in 0..count {
        let next = next_after(zeros, rest);
        bytes[i] = next.byte;
        zeros = next.zeros;
        rest = next.rest;
    }
    bytes
}

/// The next byte, where these zeros come first.
fn next_after(zeros: u64, text: &[u8]) -> Next<'_>
    ensures byte { result.byte ≡ (next_after zeros text.now).byte }
    ensures zeros { result.zeros ≡ (next_after zeros text.now).zeros }
    ensures rest { result.rest.now ≡ (next_after zeros text.now).rest }
{
    if zeros == 0 {
        return next_of(text);
    }
    Next {
        byte: 0,
        zeros: zeros - 1,
        rest: text,
    }
}

/// The byte at the front of a text: of a run, or of a pair.
fn next_of(text: &[u8]) -> Next<'_>
    ensures byte { result.byte ≡ (next_of text.now).byte }
    ensures zeros { result.zeros ≡ (next_of text.now).zeros }
    ensures rest { result.rest.now ≡ (next_of text.now).rest }
{
    if text.len() < 3 {
        return Next {
            byte: 0,
            zeros: 0,
            rest: &[],
        };
    }
    if text[2] == b'*' {
        return run_next(&text[3..]);
    }
    pair_next(text[0], text[1], &text[2..])
}

/// The first zero of a run, whose length is written in front of a blank.
fn run_next(text: &[u8]) -> Next<'_>
    ensures byte { result.byte ≡ (run_next (front_of text.now)).byte }
    ensures zeros { result.zeros ≡ (run_next (front_of text.now)).zeros }
    ensures rest { result.rest.now ≡ (run_next (front_of text.now)).rest }
{
    match first_word(text) {
        Some(got) => Next {
            byte: 0,
            zeros: or_zero(read_plain_decimal(got.word)).saturating_sub(1),
            rest: got.rest,
        },
        None => Next {
            byte: 0,
            zeros: 0,
            rest: &[],
        },
    }
}

fn or_zero(number: Option<u64>) -> u64
    ensures { result ≡ or_zero number }
{
    match number {
        Some(number) => number,
        None => 0,
    }
}

/// The byte of a pair.
fn pair_next(high: u8, low: u8, rest: &[u8]) -> Next<'_>
    ensures byte { result.byte ≡ (pair_next high low rest.now).byte }
    ensures zeros { result.zeros ≡ (pair_next high low rest.now).zeros }
    ensures rest { result.rest.now ≡ (pair_next high low rest.now).rest }
{
    Next {
        byte: byte_or_zero(pair_byte(high, low)),
        zeros: 0,
        rest: unblank(rest),
    }
}

fn byte_or_zero(byte: Option<u8>) -> u8
    ensures { result ≡ or_zero byte }
{
    match byte {
        Some(byte) => byte,
        None => 0,
    }
}

/// A text without a blank at the front.
fn unblank(text: &[u8]) -> &[u8]
    ensures { result.now ≡ unblank text.now }
{
    match text {
        [first, rest @ ..] => { if *first == b' ' { rest } else { text } }
        [] => text,
    }
}

/// What is left of bytes and of a text.
#[derive(Clone, Copy)]
struct Left<'a, 'b> {
    /// The bytes that are left.
    bytes: &'b [u8],
    /// The text that is left.
    text: &'a [u8],
}

/// What stands after the one spelling of bytes, if it is at the front of a text.
pub(crate) fn behind_bytes<'a>(bytes: &[u8], text: &'a [u8]) -> Option<&'a [u8]>
    ensures { MatchOption result (stripped (bytes_text bytes.now) text.now ≡ None) (λ rest. stripped (bytes_text bytes.now) text.now ≡ Some rest.now) }
{
    if bytes.is_empty() {
        return behind(b"-", text);
    }
    behind_words(bytes, text)
}

fn behind_words<'a>(bytes: &[u8], text: &'a [u8]) -> Option<&'a [u8]>
    ensures { MatchOption result (stripped (byte_words false bytes.now) text.now ≡ None) (λ rest. stripped (byte_words false bytes.now) text.now ≡ Some rest.now) }
{
    let mut bytes_left = bytes;
    let mut text_left = text;
    while !bytes_left.is_empty() {
        match behind_front(bytes_left, text_left) {
            Some(left) => {
                bytes_left = left.bytes;
                text_left = left.text;
            }
            None => return None,
        }
    }
    Some(text_left)
}

/// Passes over the run or the byte at the front.
#[tactic(auto, using(crate::proofs::Stripping::stripping))]
fn behind_front<'a, 'b>(bytes: &'b [u8], text: &'a [u8]) -> Option<Left<'a, 'b>>
    requires { 0 < length bytes.now }
    ensures left { MatchOption result (stripped (byte_words false bytes.now) text.now ≡ None) (λ left. stripped (byte_words false bytes.now) text.now ≡ stripped (byte_words false left.bytes.now) left.text.now) }
    ensures less { MatchOption result (Unit {0}) (λ left. length left.bytes.now < length bytes.now) }
{
    let count = zero_run(bytes);
    if count >= 8 {
        let (_, rest) = bytes.split_at(count);
        return match behind_run(count, rest, text) {
            Some(text) => Some(Left { bytes: rest, text }),
            None => None,
        };
    }
    let (front, rest) = bytes.split_at(1);
    match behind_byte(front[0], rest, text) {
        Some(text) => Some(Left { bytes: rest, text }),
        None => None,
    }
}

/// Passes over the word of a run of zeros, and a blank where more bytes follow.
#[tactic(auto, using(crate::proofs::Stripping::stripping))]
fn behind_run<'a>(count: usize, rest: &[u8], text: &'a [u8]) -> Option<&'a [u8]>
    ensures { MatchOption result (stripped (run_word count ++ blank_before rest.now) text.now ≡ None) (λ left. stripped (run_word count ++ blank_before rest.now) text.now ≡ Some left.now) }
{
    match behind(b"00*", text) {
        Some(text) => behind_count(count, rest, text),
        None => None,
    }
}

/// Passes over the length of a run of zeros, and a blank where more bytes follow.
#[tactic(auto, using(crate::proofs::Stripping::stripping))]
fn behind_count<'a>(count: usize, rest: &[u8], text: &'a [u8]) -> Option<&'a [u8]>
    ensures { MatchOption result (stripped (decimal count ++ blank_before rest.now) text.now ≡ None) (λ left. stripped (decimal count ++ blank_before rest.now) text.now ≡ Some left.now) }
{
    match behind_number(count as u64, text) {
        Some(text) => blank_before(rest, text),
        None => None,
    }
}

/// Passes over the blank in front of what follows.
fn blank_before<'a>(rest: &[u8], text: &'a [u8]) -> Option<&'a [u8]>
    ensures { MatchOption result (stripped (blank_before rest.now) text.now ≡ None) (λ left. stripped (blank_before rest.now) text.now ≡ Some left.now) }
{
    if rest.is_empty() {
        return Some(text);
    }
    behind(b" ", text)
}

/// Passes over the digits of a number.
fn behind_number<'a>(number: u64, text: &'a [u8]) -> Option<&'a [u8]>
    ensures { MatchOption result (stripped (decimal number) text.now ≡ None) (λ rest. stripped (decimal number) text.now ≡ Some rest.now) }
{
    let mut buffer = Buffer::new();
    behind(buffer.format(number).as_bytes(), text)
}

/// Passes over a blank, where there has to be one.
fn behind_blank(there: bool, text: &[u8]) -> Option<&[u8]>
    ensures { MatchOption result (stripped (blank_if there) text.now ≡ None) (λ rest. stripped (blank_if there) text.now ≡ Some rest.now) }
{
    if there {
        return behind(b" ", text);
    }
    Some(text)
}

/// Passes over the pair of a byte, and a blank where a long run follows.
#[tactic(auto, using(crate::proofs::Stripping::stripping))]
fn behind_byte<'a>(byte: u8, rest: &[u8], text: &'a [u8]) -> Option<&'a [u8]>
    ensures { MatchOption result (stripped (pair byte ++ blank_if (has_long_run rest.now)) text.now ≡ None) (λ left. stripped (pair byte ++ blank_if (has_long_run rest.now)) text.now ≡ Some left.now) }
{
    match behind(&[hex_digit(byte / 16), hex_digit(byte % 16)], text) {
        Some(text) => behind_blank(has_long_run(rest), text),
        None => None,
    }
}

fn has_long_run(bytes: &[u8]) -> bool
    ensures { result ≡ has_long_run bytes.now }
{
    zero_run(bytes) >= 8
}

/// How many zeros stand at the front.
fn zero_run(bytes: &[u8]) -> usize
    ensures count { result ≡ zero_run bytes.now }
    ensures few { result ≤ length bytes.now }
{
    for (i, byte) in bytes.iter().enumerate() {
        if *byte != 0 {
            return i;
        }
    }
    bytes.len()
}

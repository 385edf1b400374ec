//! The values of a statement's words.
ghost use Rattle.std.specs.Prelude.{◌≡◌, ◌+◌, ◌<◌, ◌≤◌, ◌^◌, ◌++◌, ◌∷◌, Some, true, length, codes, is_some, take, IfOk, IsSome, IsOkUnless, OnOk};
ghost use Rattle.std.specs.Str.{bytes_eq};
ghost use Rattle.gl_base.specs.BytesText.{piece_bytes, piece_size};
ghost use Rattle.gl_base.specs.Padded.{padded};
ghost use Rattle.gl_base.specs.Words.{span, text_at, words_at};
ghost use Rattle.gl_script.specs.Columns.{columns};
ghost use Rattle.gl_script.specs.Formed.{are_bytes, are_pieces};
ghost use Rattle.gl_script.specs.Table.{keyword_of};
ghost use Rattle.gl_talk.specs.Copied.{words_of, words_under_way};
ghost use Rattle.gl_talk.specs.ToolWords.{kind_of};
ghost use Rattle.gl_talk.specs.Words.{behind_two, behind_three, bytes_said, is_on_file, live_word, pull_word};
ghost use Rattle.gl_talk.specs.declared.tools.StatementKind.TheVariants.{Starting};

use crate::copied::CopiedStatement;
use gl_base::{Errno, Found, next_word, nth_word, put_piece};
use std::alloc::Global;

/// The statement that is under way.
pub fn under_way(line: &Option<CopiedStatement>) -> &CopiedStatement
    requires { IsSome line.now }
    ensures there { line.now ≡ Some result.now }
    ensures words { words_under_way line.now ≡ words_of result.now }
{
    match line {
        Some(statement) => statement,
        None => unreachable!(),
    }
}

/// The word of a statement that has the number `i`, counted from 0.
fn word(i: u32, line: &CopiedStatement) -> &[u8]
    requires { i < length (words_of line.now) }
    ensures { result.now ≡ text_at i (words_of line.now) }
{
    match nth_word(i, 1, &line.line) {
        Some(word) => word,
        None => unreachable!(),
    }
}

/// The word that a statement begins with.
pub fn first_word(line: &CopiedStatement) -> &[u8]
    ensures { result.now ≡ text_at 0 (words_of line.now) }
{
    word(0, line)
}

/// The name of the file that a statement is on.
pub fn file_name(line: &CopiedStatement) -> &[u8]
    requires { is_on_file line.now.said ≡ true }
    ensures { result.now ≡ text_at 1 (words_of line.now) }
{
    word(1, line)
}

/// The word of the tool that a statement starts.
pub fn started_word(line: &CopiedStatement) -> &[u8]
    requires { kind_of (keyword_of (text_at 0 (words_of line.now))) ≡ Starting }
    ensures { result.now ≡ text_at 2 (words_of line.now) }
{
    word(2, line)
}

/// The direction that the value of a pull names.
pub fn pull_word(word: &[u8]) -> Option<bool>
    ensures { result ≡ pull_word word.now }
{
    if word == b"pull-up".as_slice() {
        return Some(true);
    }
    if word == b"pull-down".as_slice() {
        return Some(false);
    }
    None
}

/// Whether a device comes up, by the value of its `live`.
pub fn live_word(word: &[u8]) -> Option<bool>
    ensures { result ≡ live_word word.now }
{
    if word == b"1".as_slice() {
        return Some(true);
    }
    if word == b"0".as_slice() {
        return Some(false);
    }
    None
}

/// What is left of a line.
#[derive(Clone, Copy)]
pub struct Rest<'a> {
    /// Where it begins.
    pub at: usize,
    /// Its bytes.
    pub line: &'a [u8],
}

/// The first word of what is left of a line.
fn first_found(at: usize, line: &[u8]) -> Found<'_>
    requires long { at + length line.now + 1 < 2 ^ 64 }
    requires there { 0 < length (words_at at line.now) }
    ensures words { words_at at line.now ≡ span result.at result.word.now ∷ words_at result.rest_at result.rest.now }
    ensures within { result.rest_at + length result.rest.now ≤ at + length line.now }
{
    match next_word(at, line) {
        Some(found) => found,
        None => unreachable!(),
    }
}

/// What is left after the first two words.
pub fn behind_two(line: &[u8]) -> Rest<'_>
    requires { 1 < length (columns line.now) }
    ensures words { words_at result.at result.line.now ≡ behind_two (columns line.now) }
    ensures within { result.at + length result.line.now ≤ 1 + length line.now }
{
    let first = first_found(1, line);
    let second = first_found(first.rest_at, first.rest);
    Rest {
        at: second.rest_at,
        line: second.rest,
    }
}

/// What is left after the first three words.
fn behind_three(line: &[u8]) -> Rest<'_>
    requires { 2 < length (columns line.now) }
    ensures words { words_at result.at result.line.now ≡ behind_three (columns line.now) }
    ensures within { result.at + length result.line.now ≤ 1 + length line.now }
{
    let two = behind_two(line);
    let third = first_found(two.at, two.line);
    Rest {
        at: third.rest_at,
        line: third.rest,
    }
}

/// The bytes that the pieces in the line of a command say.
pub fn bytes_said(alloc: Global, line: &[u8]) -> Result<Vec<u8>, Errno>
    requires long { 3 < length (columns line.now) }
    requires bytes { are_bytes (behind_three (columns line.now)) ≡ true }
    ensures ok { IfOk result (λ bytes. bytes.items ≡ bytes_said (behind_three (columns line.now))) }
    ensures memory_alone { IsOkUnless result Errno.NoMemory }
{
    let rest = behind_three(line);
    let first = first_found(rest.at, rest.line);
    if first.word == b"-".as_slice() {
        return Ok(Vec::new(alloc));
    }
    pieces_in(alloc, rest.at, rest.line)
}

/// The bytes that pieces say, up to `as`.
fn pieces_in(alloc: Global, at: usize, line: &[u8]) -> Result<Vec<u8>, Errno>
    requires long { at + length line.now + 1 < 2 ^ 64 }
    requires pieces { are_pieces (words_at at line.now) ≡ true }
    ensures ok { IfOk result (λ bytes. bytes.items ≡ bytes_said (words_at at line.now)) }
    ensures memory_alone { IsOkUnless result Errno.NoMemory }
{
    let mut bytes = Vec::new(alloc);
    let mut at = at;
    let mut rest = line;
    while let Some(found) = next_word(at, rest) {
        if is_as(found.word) {
            return Ok(bytes);
        }
        put_bytes_of(found.word, &mut bytes)?;
        at = found.rest_at;
        rest = found.rest;
    }
    Ok(bytes)
}

/// Whether a word is the `as` behind pieces.
fn is_as(word: &[u8]) -> bool
    ensures { result ≡ bytes_eq word.now (codes "as") }
{
    word == b"as".as_slice()
}

/// Appends the bytes of a piece.
fn put_bytes_of(piece: &[u8], bytes: &mut Vec<u8>) -> Result<(), Errno>
    requires { is_some (piece_size piece.now) ≡ true }
    ensures ok { OnOk result (bytes.new.items ≡ bytes.old.items ++ piece_bytes piece.now) }
    ensures memory_alone { IsOkUnless result Errno.NoMemory }
{
    put_piece(piece, bytes)
}

/// The first 592 bytes, and zeros after them.
pub fn first_bytes(bytes: &[u8]) -> [u8; 592]
    ensures { result ≡ padded 592 (take 592 bytes.now) }
{
    pad::<592>(first(bytes))
}

fn first(bytes: &[u8]) -> &[u8]
    ensures first { result.now ≡ take 592 bytes.now }
    ensures short { length result.now ≤ 592 }
{
    if bytes.len() <= 592 {
        return bytes;
    }
    &bytes[..592]
}

fn pad<const N: usize>(bytes: &[u8]) -> [u8; N]
    requires { length bytes.now ≤ N }
    ensures { result ≡ padded N bytes.now }
{
    let mut array = [0; N];
    array[..bytes.len()].copy_from_slice(bytes);
    array
}

//! Lines and words of a text.
ghost use Rattle.std.specs.Prelude.{◌≡◌, ◌+◌, ◌<◌, ◌≤◌, ◌^◌, [], ◌∷◌, length, MatchOption, IfSome};
ghost use Rattle.std.specs.Option.{option_copied};
ghost use Rattle.gl_base.specs.Words.{span, pieces, pieces_left, words_at, text_at};

/// The bytes before the first byte `cut`, and those after it, if there is one.
#[tactic(auto, using(crate::proofs::Cutting::cuts))]
pub fn split_first(bytes: &[u8], cut: u8) -> (&[u8], Option<&[u8]>)
    ensures pieces { pieces cut bytes.now ≡ result.0.now ∷ pieces_left cut (option_copied result.1) }
    ensures lengths { MatchOption result.1 (length result.0.now ≡ length bytes.now) (λ after. length result.0.now + 1 + length after.now ≡ length bytes.now) }
{
    for (i, byte) in bytes.iter().enumerate() {
        if *byte == cut {
            return (&bytes[..i], Some(&bytes[i + 1..]));
        }
    }
    (bytes, None)
}

/// A word of a line, and what is left of the line behind it.
#[derive(Clone, Copy)]
pub struct Found<'a> {
    /// Where the word begins.
    pub at: usize,
    /// Its bytes: at least one, and no blank.
    pub word: &'a [u8],
    /// Where the rest of the line begins.
    pub rest_at: usize,
    /// The rest of the line.
    pub rest: &'a [u8],
}

/// The first word of a line whose first byte has the place `at`, if a word is left. Words are divided by
/// one or more blanks. This form is this project's choice.
pub fn next_word(at: usize, line: &[u8]) -> Option<Found<'_>>
    requires { at + length line.now + 1 < 2 ^ 64 }
    ensures words { MatchOption result (words_at at line.now ≡ []) (λ found. words_at at line.now ≡ span found.at found.word.now ∷ words_at found.rest_at found.rest.now) }
    ensures within { IfSome result (λ found. (found.at + length found.word.now ≤ found.rest_at) × (found.rest_at + length found.rest.now ≤ at + length line.now)) }
{
    let mut at = at;
    let mut rest = Some(line);
    while let Some(bytes) = rest {
        let (word, after) = split_first(bytes, b' ');
        if !word.is_empty() {
            return Some(with_rest(at, word, after));
        }
        if after.is_some() {
            at += 1;
        }
        rest = after;
    }
    None
}

/// A word and what is left behind it.
fn with_rest<'a>(at: usize, word: &'a [u8], after: Option<&'a [u8]>) -> Found<'a>
    requires { at + length word.now + 1 < 2 ^ 64 }
    ensures word { (result.at ≡ at) × (result.word.now ≡ word.now) }
    ensures rest { MatchOption after.entry ((result.rest_at ≡ at + length word.now) × (result.rest.now ≡ [])) (λ rest. (result.rest_at ≡ at + length word.now + 1) × (result.rest.now ≡ rest.now)) }
{
    let end = at + word.len();
    match after {
        Some(rest) => Found {
            at,
            word,
            rest_at: end + 1,
            rest,
        },
        None => Found {
            at,
            word,
            rest_at: end,
            rest: &[],
        },
    }
}

/// The word of a line that has the number `i`, counted from 0, if there are so many.
pub fn nth_word(i: u32, at: usize, line: &[u8]) -> Option<&[u8]>
    requires { at + length line.now + 1 < 2 ^ 64 }
    ensures { MatchOption result (length (words_at at line.now) ≤ i) (λ word. (i < length (words_at at line.now)) × (word.now ≡ text_at i (words_at at line.now))) }
{
    let mut i = i;
    let mut at = at;
    let mut rest = line;
    while let Some(found) = next_word(at, rest) {
        if i == 0 {
            return Some(found.word);
        }
        i -= 1;
        at = found.rest_at;
        rest = found.rest;
    }
    None
}

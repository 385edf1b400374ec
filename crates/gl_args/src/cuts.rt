//! A word divided at a byte.
ghost use Rattle.std.specs.Prelude.{◌≡◌, ◌++◌, ◌∷◌, MatchOption, Some, None, length, drop};
ghost use Rattle.std.specs.List.{take_while};
ghost use Rattle.std.specs.Char.{is_ascii_digit};
ghost use Rattle.gl_args.specs.Cuts.{before, behind, divided, DividesAs, unit_text};

/// The bytes before the first byte of a kind, and those after it.
pub(crate) fn cut(word: &[u8], byte: u8) -> (&[u8], Option<&[u8]>)
    ensures before { result.0.now ≡ before byte word.now }
    ensures behind { MatchOption result.1 (behind byte word.now ≡ None) (λ rest. behind byte word.now ≡ Some rest.now) }
{
    for at in 0..word.len() {
        if word[at] == byte {
            return (&word[..at], Some(&word[at + 1..]));
        }
    }
    (word, None)
}

/// The bytes before the last byte of a kind, and those after it.
pub(crate) fn divide(word: &[u8], byte: u8) -> Option<(&[u8], &[u8])>
    ensures { DividesAs (divided byte word.now) result }
{
    let mut end = word.len();
    while end > 0 {
        end -= 1;
        if word[end] == byte {
            return Some((&word[..end], &word[end + 1..]));
        }
    }
    None
}

/// The digits that a text begins with, and what stands after them.
pub(crate) fn split_digits(text: &[u8]) -> (&[u8], &[u8])
    ensures digits { result.0.now ≡ take_while is_ascii_digit text.now }
    ensures rest { result.1.now ≡ unit_text text.now }
{
    for at in 0..text.len() {
        if !text[at].is_ascii_digit() {
            return (&text[..at], &text[at..]);
        }
    }
    (text, &[])
}

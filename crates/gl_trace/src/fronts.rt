//! The words at the front of a text.
ghost use Rattle.std.specs.Prelude.{◌≡◌, Some, None, [], length, MatchOption};
ghost use Rattle.gl_trace.specs.Fronts.{fields, fields_of, four_of, front, front_of, one_of, three_of, two_of};

use crate::verb::Count;

/// A word, and what stands after its blank.
#[derive(Clone, Copy)]
pub(crate) struct Front<'a> {
    /// The word.
    pub word: &'a [u8],
    /// What stands after its blank.
    pub rest: &'a [u8],
}

/// Up to four words, and what stands after them. Words that weren't asked for are empty.
#[derive(Clone, Copy)]
pub(crate) struct Fields<'a> {
    /// The first word.
    pub first: &'a [u8],
    /// The second.
    pub second: &'a [u8],
    /// The third.
    pub third: &'a [u8],
    /// The fourth.
    pub fourth: &'a [u8],
    /// What stands after the last blank.
    pub rest: &'a [u8],
}

/// The first word of a text, if there is a blank.
#[tactic(auto, using(crate::proofs::Cutting::cuts))]
pub(crate) fn first_word(text: &[u8]) -> Option<Front<'_>>
    ensures { MatchOption result (front_of text.now ≡ None) (λ got. front_of text.now ≡ Some (front got.word.now got.rest.now)) }
{
    for (i, byte) in text.iter().enumerate() {
        if *byte == b' ' {
            return Some(Front {
                word: &text[..i],
                rest: &text[i + 1..],
            });
        }
    }
    None
}

/// So many words at the front of a text, if there are as many.
pub(crate) fn first_words(count: Count, text: &[u8]) -> Option<Fields<'_>>
    ensures { MatchOption result (fields_of count text.now ≡ None) (λ got. fields_of count text.now ≡ Some (fields got.first.now got.second.now got.third.now got.fourth.now got.rest.now)) }
{
    match count {
        Count::One => one(text),
        Count::Two => two(text),
        Count::Three => three(text),
        Count::Four => four(text),
    }
}

fn one(text: &[u8]) -> Option<Fields<'_>>
    ensures { MatchOption result (one_of text.now ≡ None) (λ got. one_of text.now ≡ Some (fields got.first.now got.second.now got.third.now got.fourth.now got.rest.now)) }
{
    match first_word(text) {
        Some(got) => Some(Fields {
            first: got.word,
            second: &[],
            third: &[],
            fourth: &[],
            rest: got.rest,
        }),
        None => None,
    }
}

fn two(text: &[u8]) -> Option<Fields<'_>>
    ensures { MatchOption result (two_of text.now ≡ None) (λ got. two_of text.now ≡ Some (fields got.first.now got.second.now got.third.now got.fourth.now got.rest.now)) }
{
    match one(text) {
        Some(got) => match first_word(got.rest) {
            Some(more) => Some(Fields {
                first: got.first,
                second: more.word,
                third: &[],
                fourth: &[],
                rest: more.rest,
            }),
            None => None,
        },
        None => None,
    }
}

fn three(text: &[u8]) -> Option<Fields<'_>>
    ensures { MatchOption result (three_of text.now ≡ None) (λ got. three_of text.now ≡ Some (fields got.first.now got.second.now got.third.now got.fourth.now got.rest.now)) }
{
    match two(text) {
        Some(got) => match first_word(got.rest) {
            Some(more) => Some(Fields {
                first: got.first,
                second: got.second,
                third: more.word,
                fourth: &[],
                rest: more.rest,
            }),
            None => None,
        },
        None => None,
    }
}

fn four(text: &[u8]) -> Option<Fields<'_>>
    ensures { MatchOption result (four_of text.now ≡ None) (λ got. four_of text.now ≡ Some (fields got.first.now got.second.now got.third.now got.fourth.now got.rest.now)) }
{
    match three(text) {
        Some(got) => match first_word(got.rest) {
            Some(more) => Some(Fields {
                first: got.first,
                second: got.second,
                third: got.third,
                fourth: more.word,
                rest: more.rest,
            }),
            None => None,
        },
        None => None,
    }
}

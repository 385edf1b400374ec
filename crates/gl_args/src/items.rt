//! The words of a tool as items: options with their values, and line words, in their order.
ghost use Rattle.std.specs.Prelude.{◌≡◌, ◌++◌, [], None, Some, map, option_map, option_copied, is_some, MatchOption, OnOk, IfOk, IsErrOf, IsOkUnless};
ghost use Rattle.gl_args.specs.Cuts.{before, behind};
ghost use Rattle.gl_args.specs.Names.{long_option, short_option};
ghost use Rattle.gl_args.specs.Items.{texts, items_of, item_in, item_given, step_in, step_of, kind_step, to_list, is_value, text_of, begins_with_dash, looks_short, long_kind, short_kind, kind_of};

use crate::cuts::cut;
use crate::names::{OPTIONS, OptionName, ToolName, long_among, short_among};
use std::alloc::Global;
use thiserror::Error;

/// Why words are no tool's.
#[derive(Clone, Copy, PartialEq, Eq, Debug, Error)]
pub enum ArgFault {
    /// They aren't the words of a tool.
    #[error("the words aren't those of a tool")]
    Usage,
    /// Out of memory.
    #[error("memory is wanted")]
    NoMemory,
}

/// An option with its value, which is empty where it takes none; or a line word, which has no option.
#[derive(Clone, Copy)]
pub(crate) struct Item<'a> {
    pub option: Option<OptionName>,
    pub text: &'a [u8],
}

/// What one word gives: an item or none, whether the options have ended, and an option that wants the next word as
/// its value.
#[derive(Clone, Copy)]
pub(crate) struct Step<'a> {
    pub item: Option<Item<'a>>,
    pub ended: bool,
    pub wanted: Option<OptionName>,
}

/// What a word is, before `--` and where no value is wanted.
#[derive(Clone, Copy)]
pub(crate) enum WordKind {
    /// `--`.
    Ends,
    /// A line word.
    Line,
    /// None of these.
    Wrong,
    /// An option that takes no value.
    Flag(OptionName),
    /// An option whose value is the next word.
    Wants(OptionName),
    /// An option whose value stands after `=`.
    Holds(OptionName),
}

/// The items of a tool's words.
pub(crate) fn items_of<'a>(
    alloc: Global,
    tool: ToolName,
    words: &[&'a [u8]],
) -> Result<Vec<Item<'a>>, ArgFault>
    ensures ok { IfOk result (λ items. items_of tool (texts words.now) ≡ Some (map item_in items.items)) }
    ensures usage { IsErrOf result ArgFault.Usage → items_of tool (texts words.now) ≡ None }
{
    let mut items = Vec::new(alloc);
    match put_items(tool, words, &mut items) {
        Ok(()) => Ok(items),
        Err(fault) => Err(fault),
    }
}

/// Puts the items of a tool's words into a list without any.
#[tactic(auto, using(crate::proofs::Fronts::fronts))]
fn put_items<'a>(
    tool: ToolName,
    words: &[&'a [u8]],
    items: &mut Vec<Item<'a>>,
) -> Result<(), ArgFault>
    requires { items.old.items ≡ [] }
    ensures ok { OnOk result (items_of tool (texts words.now) ≡ Some (map item_in items.new.items)) }
    ensures usage { IsErrOf result ArgFault.Usage → items_of tool (texts words.now) ≡ None }
{
    let mut ended = false;
    let mut wanted = None;
    for word in words {
        match step_at(tool, word, ended, wanted) {
            Some(step) => {
                push_item(items, step.item)?;
                ended = step.ended;
                wanted = step.wanted;
            }
            None => return Err(ArgFault::Usage),
        }
    }
    match wanted {
        Some(_) => Err(ArgFault::Usage),
        None => Ok(()),
    }
}

fn push_item<'a>(items: &mut Vec<Item<'a>>, item: Option<Item<'a>>) -> Result<(), ArgFault>
    ensures ok { OnOk result (map item_in items.new.items ≡ map item_in items.old.items ++ to_list (item_given item.entry)) }
    ensures memory_alone { IsOkUnless result ArgFault.NoMemory }
{
    match item {
        Some(item) => {
            if items.push(item).is_err() {
                return Err(ArgFault::NoMemory);
            }
            Ok(())
        }
        None => Ok(()),
    }
}

/// What a word gives, after `--` or not, and where an option wants a value or not.
fn step_at<'a>(
    tool: ToolName,
    word: &'a [u8],
    ended: bool,
    wanted: Option<OptionName>,
) -> Option<Step<'a>>
    ensures { option_map step_in result ≡ step_of tool word.now ended wanted }
{
    match wanted {
        Some(option) => {
            if is_value(word) {
                return Some(with_item(Some(option), word, false));
            }
            None
        }
        None => {
            if ended {
                return Some(with_item(None, word, true));
            }
            kind_step(kind_of(tool, word), word)
        }
    }
}

fn with_item(option: Option<OptionName>, text: &[u8], ended: bool) -> Step<'_>
    ensures { step_in result ≡ record { item = Some (record { option = option; text = text.now }); ended = ended; wanted = None } }
{
    Step {
        item: Some(Item { option, text }),
        ended,
        wanted: None,
    }
}

fn kind_step(kind: WordKind, word: &[u8]) -> Option<Step<'_>>
    ensures { option_map step_in result ≡ kind_step kind word.now }
{
    match kind {
        WordKind::Ends => Some(Step {
            item: None,
            ended: true,
            wanted: None,
        }),
        WordKind::Line => Some(with_item(None, word, false)),
        WordKind::Wrong => None,
        WordKind::Flag(option) => Some(with_item(Some(option), &[], false)),
        WordKind::Wants(option) => Some(Step {
            item: None,
            ended: false,
            wanted: Some(option),
        }),
        WordKind::Holds(option) => Some(with_item(Some(option), value_in(word), false)),
    }
}

/// What a word is, before `--` and where no value is wanted.
fn kind_of(tool: ToolName, word: &[u8]) -> WordKind
    ensures { result ≡ kind_of tool word.now }
{
    if word == b"--".as_slice() {
        return WordKind::Ends;
    }
    if word.starts_with(b"--") {
        return long_kind_of(tool, word);
    }
    if looks_short(word) {
        return short_kind(short_among(&OPTIONS, tool, word));
    }
    if begins_with_dash(word) && word.len() > 2 {
        return WordKind::Wrong;
    }
    WordKind::Line
}

fn long_kind_of(tool: ToolName, word: &[u8]) -> WordKind
    ensures { result ≡ long_kind (long_option tool (before 61 word.now)) (is_some (behind 61 word.now)) }
{
    long_kind(long_among(&OPTIONS, tool, name_in(word)), holds_value(word))
}

/// What stands before `=`.
fn name_in(word: &[u8]) -> &[u8]
    ensures { result.now ≡ before 61 word.now }
{
    let (name, _) = cut(word, b'=');
    name
}

/// What stands after `=`.
fn value_in(word: &[u8]) -> &[u8]
    ensures { result.now ≡ text_of (behind 61 word.now) }
{
    let (_, value) = cut(word, b'=');
    match value {
        Some(value) => value,
        None => &[],
    }
}

/// Whether `=` stands in a word.
fn holds_value(word: &[u8]) -> bool
    ensures { result ≡ is_some (behind 61 word.now) }
{
    let (_, value) = cut(word, b'=');
    match value {
        Some(_) => true,
        None => false,
    }
}

fn long_kind(option: Option<&OptionName>, holds: bool) -> WordKind
    ensures { result ≡ long_kind (option_copied option.entry) holds }
{
    match option {
        Some(option) => {
            if option.takes_value() {
                if holds {
                    return WordKind::Holds(*option);
                }
                return WordKind::Wants(*option);
            }
            if holds {
                return WordKind::Wrong;
            }
            WordKind::Flag(*option)
        }
        None => WordKind::Wrong,
    }
}

fn short_kind(option: Option<&OptionName>) -> WordKind
    ensures { result ≡ short_kind (option_copied option.entry) }
{
    match option {
        Some(option) => {
            if option.takes_value() {
                return WordKind::Wants(*option);
            }
            WordKind::Flag(*option)
        }
        None => WordKind::Wrong,
    }
}

fn looks_short(word: &[u8]) -> bool
    ensures { result ≡ looks_short word.now }
{
    begins_with_dash(word) && word.len() == 2
}

/// Whether a word begins with `-`.
fn begins_with_dash(word: &[u8]) -> bool
    ensures { result ≡ begins_with_dash word.now }
{
    match word {
        [first, ..] => *first == b'-',
        [] => false,
    }
}

/// Whether a word may be the value of the option before it.
fn is_value(word: &[u8]) -> bool
    ensures { result ≡ is_value word.now }
{
    !begins_with_dash(word) || word == b"-".as_slice()
}

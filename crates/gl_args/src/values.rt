//! The values of options and the words of lines.
ghost use Rattle.std.specs.Prelude.{◌≡◌};
ghost use Rattle.gl_args.specs.Values.{is_on, is_off, is_short_text, bias_of, drive_of, edges_of, changes_of, unit_of, scaled, period_of, count_of, switch_of, is_right, set_line, line_said, value_line};

use crate::cuts::{divide, split_digits};
use crate::names::{OptionName, ToolName};
use gl_base::{Name, flag, read_decimal};

/// The bits of a bias, a drive or edges.
const PULL_UP: u64 = 1 << flag::BIAS_PULL_UP;

const PULL_DOWN: u64 = 1 << flag::BIAS_PULL_DOWN;

const DISABLED: u64 = 1 << flag::BIAS_DISABLED;

const OPEN_DRAIN: u64 = 1 << flag::OPEN_DRAIN;

const OPEN_SOURCE: u64 = 1 << flag::OPEN_SOURCE;

const RISING: u64 = 1 << flag::EDGE_RISING;

const FALLING: u64 = 1 << flag::EDGE_FALLING;

/// The flag of a bias, by its word.
pub(crate) fn bias_of(word: &[u8]) -> Option<u64>
    ensures { result ≡ bias_of word.now }
{
    if word == b"pull-up".as_slice() {
        return Some(PULL_UP);
    }
    if word == b"pull-down".as_slice() {
        return Some(PULL_DOWN);
    }
    if word == b"disabled".as_slice() {
        return Some(DISABLED);
    }
    None
}

/// The flag of a drive, by its word; push-pull has none.
pub(crate) fn drive_of(word: &[u8]) -> Option<u64>
    ensures { result ≡ drive_of word.now }
{
    if word == b"push-pull".as_slice() {
        return Some(0);
    }
    if word == b"open-drain".as_slice() {
        return Some(OPEN_DRAIN);
    }
    if word == b"open-source".as_slice() {
        return Some(OPEN_SOURCE);
    }
    None
}

/// The flags of edges, by their word.
pub(crate) fn edges_of(word: &[u8]) -> Option<u64>
    ensures { result ≡ edges_of word.now }
{
    if word == b"rising".as_slice() {
        return Some(RISING);
    }
    if word == b"falling".as_slice() {
        return Some(FALLING);
    }
    if word == b"both".as_slice() {
        return Some(RISING + FALLING);
    }
    None
}

/// A kind of change, by its word: the bit of its number.
pub(crate) fn changes_of(word: &[u8]) -> Option<u64>
    ensures { result ≡ changes_of word.now }
{
    if word == b"requested".as_slice() {
        return Some(2);
    }
    if word == b"released".as_slice() {
        return Some(4);
    }
    if word == b"reconfigured".as_slice() {
        return Some(8);
    }
    None
}

/// How many microseconds a unit of time has, by its word; none is milliseconds.
fn unit_of(word: &[u8]) -> Option<u64>
    ensures { result ≡ unit_of word.now }
{
    if word.is_empty() || word == b"ms".as_slice() {
        return Some(1000);
    }
    if word == b"us".as_slice() {
        return Some(1);
    }
    if word == b"s".as_slice() {
        return Some(1_000_000);
    }
    None
}

/// So many units in microseconds, where 32 bits hold them.
fn scaled(number: Option<u64>, unit: Option<u64>) -> Option<u32>
    ensures { result ≡ scaled number unit }
{
    match number {
        Some(number) => match unit {
            Some(unit) => match number.checked_mul(unit) {
                Some(time) if time < 1 << 32 => Some(time as u32),
                _ => None,
            },
            None => None,
        },
        None => None,
    }
}

/// A period in microseconds: digits, and then a unit or nothing.
pub(crate) fn period_of(text: &[u8]) -> Option<u32>
    ensures { result ≡ period_of text.now }
{
    let (digits, unit) = split_digits(text);
    scaled(read_decimal(digits), unit_of(unit))
}

/// A number of events, from 1 to 1000000.
pub(crate) fn count_of(text: &[u8]) -> Option<u32>
    ensures { result ≡ count_of text.now }
{
    match read_decimal(text) {
        Some(number) if 1 <= number && number <= 1_000_000 => Some(number as u32),
        _ => None,
    }
}

/// Whether a text has 1 to 31 bytes and is a name.
pub(crate) fn is_short_text(text: &[u8]) -> bool
    ensures { result ≡ is_short_text text.now }
{
    !text.is_empty() && Name::of(text).is_some()
}

/// Whether an option's value is right.
pub(crate) fn is_right(option: OptionName, text: &[u8]) -> bool
    ensures { result ≡ is_right option text.now }
{
    match option {
        OptionName::Chip | OptionName::Consumer => is_short_text(text),
        OptionName::Bias => bias_of(text).is_some(),
        OptionName::Drive => drive_of(text).is_some(),
        OptionName::Period => period_of(text).is_some(),
        OptionName::Edges => edges_of(text).is_some(),
        OptionName::Event => changes_of(text).is_some(),
        OptionName::Count => count_of(text).is_some(),
        OptionName::Format => !text.is_empty(),
        OptionName::ByName
        | OptionName::Strict
        | OptionName::Unquoted
        | OptionName::Numeric
        | OptionName::ActiveLow => true,
    }
}

/// The value that a word of gpioset says.
fn switch_of(word: &[u8]) -> Option<bool>
    ensures { result ≡ switch_of word.now }
{
    if is_on(word) {
        return Some(true);
    }
    if is_off(word) {
        return Some(false);
    }
    None
}

fn is_on(word: &[u8]) -> bool
    ensures { result ≡ is_on word.now }
{
    word == b"1".as_slice()
        || word == b"on".as_slice()
        || word == b"active".as_slice()
        || word == b"true".as_slice()
}

fn is_off(word: &[u8]) -> bool
    ensures { result ≡ is_off word.now }
{
    word == b"0".as_slice()
        || word == b"off".as_slice()
        || word == b"inactive".as_slice()
        || word == b"false".as_slice()
}

/// The line and the value that a line word says, if the tool takes it.
pub(crate) fn line_said(tool: ToolName, word: &[u8]) -> Option<(Name, bool)>
    ensures { result ≡ line_said tool word.now }
{
    match tool {
        ToolName::Set => set_line(word),
        ToolName::Detect | ToolName::Info | ToolName::Get | ToolName::Watch | ToolName::Notify =>
            match Name::of(word) {
                Some(name) => Some((name, false)),
                None => None,
            },
    }
}

/// `LINE=VALUE`, divided at its last `=`.
fn set_line(word: &[u8]) -> Option<(Name, bool)>
    ensures { result ≡ set_line word.now }
{
    if Name::of(word).is_none() {
        return None;
    }
    match divide(word, b'=') {
        Some((line, value)) => value_line(line, switch_of(value)),
        None => None,
    }
}

fn value_line(line: &[u8], value: Option<bool>) -> Option<(Name, bool)>
    ensures { result ≡ value_line line.now value }
{
    match value {
        Some(value) => {
            if line.is_empty() {
                return None;
            }
            match Name::of(line) {
                Some(name) => Some((name, value)),
                None => None,
            }
        }
        None => None,
    }
}

//! Tools with their options.
ghost use Rattle.std.specs.Prelude.{◌≡◌, ◌++◌, [], Some, None, IfOk, OnOk, IsErrOf, IsOkUnless, map, length, option_copied};
ghost use Rattle.std.specs.List.{list_all};
ghost use Rattle.gl_args.specs.Items.{texts, item_in};
ghost use Rattle.gl_args.specs.Names.{tool_text};
ghost use Rattle.gl_args.specs.Options.{options_in, tool_in};
ghost use Rattle.gl_args.specs.Values.{bias_of, drive_of, edges_of, changes_of, period_of};
ghost use Rattle.gl_args.specs.Tools.{word_is_right, item_is_right, with_line, line_words, is_line_count, are_right, right_said, name_given, said_or, read_or, edges_given, count_given, consumer_given, line_or_none, lines_from, name_or_none, options_of, tool_by, tool_of, tool_said};

use crate::items::{ArgFault, Item, items_of};
use crate::look_ups::{has, has_twice, value_of};
use crate::names::{OptionName, ToolName};
use crate::values::{
    bias_of, changes_of, count_of, drive_of, edges_of, is_right, is_short_text, line_said,
    period_of,
};
use gl_base::{ByteList, Name, flag};
use std::alloc::Global;

/// A tool with its options.
#[derive(Drop)]
pub enum Tool {
    /// gpiodetect with its chip words, 0 to 16.
    Detect(Vec<Name>),
    /// gpioinfo.
    Info(Opts),
    /// gpioget.
    Get(Opts),
    /// gpioset.
    Set(Opts),
    /// gpiomon.
    Watch(Opts),
    /// gpionotify.
    Notify(Opts),
}

/// The options of a tool, each as it was given, or as it is where it isn't.
#[derive(Drop)]
pub struct Opts {
    /// The word of the chip.
    pub chip: Option<Name>,
    /// Each line word is a name, also one of digits.
    pub by_name: bool,
    /// A name that is found twice is refused.
    pub strict: bool,
    /// Names are printed without quotes.
    pub unquoted: bool,
    /// Values are printed as digits.
    pub numeric: bool,
    /// The lines are active low.
    pub active_low: bool,
    /// The flag of the lines' bias (`linux/gpio.h`); 0 for none.
    pub bias: u64,
    /// The flag of the outputs' drive; 0 for push-pull.
    pub drive: u64,
    /// gpiomon's edges as flags. For gpionotify its kinds of change: the bit of a kind's number.
    pub edges: u64,
    /// The debounce period in microseconds; 0 for none.
    pub period_us: u32,
    /// How many events end the tool, 1 to 1000000.
    pub count: Option<u32>,
    /// How an event is printed.
    pub format: Option<ByteList>,
    /// Who requests the lines.
    pub consumer: Name,
    /// The lines' words, 1 to 64; gpioset gives each a value.
    pub lines: Vec<(Name, bool)>,
}

/// How many chip words gpiodetect takes at most.
const CHIPS_MAX: usize = 16;

/// How many lines a tool takes at most.
const LINES_PER_TOOL: usize = 64;

/// Both edges, as flags.
const BOTH_EDGES: u64 = (1 << flag::EDGE_RISING) + (1 << flag::EDGE_FALLING);

/// All kinds of change, as the bits of their numbers.
const ALL_CHANGES: u64 = 14;

/// The tool that words are: its name, and then options and line words in any order. Usage exactly where they aren't
/// those of a tool, by libgpiod's manual pages and this project's choices.
pub fn read_tool(alloc: Global, words: &[&[u8]]) -> Result<Tool, ArgFault>
    ensures ok { IfOk result (λ tool. tool_said (texts words.now) ≡ Some (tool_in tool)) }
    ensures usage { IsErrOf result ArgFault.Usage → tool_said (texts words.now) ≡ None }
{
    match words.split_first() {
        Some((first, others)) => match ToolName::named(first) {
            Some(name) => read_named(alloc, name, others),
            None => Err(ArgFault::Usage),
        },
        None => Err(ArgFault::Usage),
    }
}

/// The tool of that name with these words.
fn read_named(alloc: Global, name: ToolName, words: &[&[u8]]) -> Result<Tool, ArgFault>
    ensures ok { IfOk result (λ tool. tool_of name (right_said name (texts words.now)) ≡ Some (tool_in tool)) }
    ensures usage { IsErrOf result ArgFault.Usage → right_said name (texts words.now) ≡ None }
{
    match items_of(alloc, name, words) {
        Ok(items) => {
            if !are_right(name, &items) {
                return Err(ArgFault::Usage);
            }
            tool_of(alloc, name, &items)
        }
        Err(fault) => Err(fault),
    }
}

/// The tool of items that are right.
fn tool_of(alloc: Global, name: ToolName, items: &[Item<'_>]) -> Result<Tool, ArgFault>
    ensures ok { IfOk result (λ tool. tool_in tool ≡ tool_by name (map item_in items.now)) }
    ensures memory_alone { IsOkUnless result ArgFault.NoMemory }
{
    match name {
        ToolName::Detect => Ok(Tool::Detect(chips_of(alloc, items)?)),
        ToolName::Info => Ok(Tool::Info(opts_of(alloc, name, items)?)),
        ToolName::Get => Ok(Tool::Get(opts_of(alloc, name, items)?)),
        ToolName::Set => Ok(Tool::Set(opts_of(alloc, name, items)?)),
        ToolName::Watch => Ok(Tool::Watch(opts_of(alloc, name, items)?)),
        ToolName::Notify => Ok(Tool::Notify(opts_of(alloc, name, items)?)),
    }
}

/// The options that items say.
fn opts_of(alloc: Global, name: ToolName, items: &[Item<'_>]) -> Result<Opts, ArgFault>
    ensures ok { IfOk result (λ opts. options_in opts ≡ options_of name (map item_in items.now)) }
    ensures memory_alone { IsOkUnless result ArgFault.NoMemory }
{
    let lines = lines_of(alloc, name, items)?;
    let format = format_given(alloc, value_of(OptionName::Format, items))?;
    Ok(Opts {
        chip: name_given(value_of(OptionName::Chip, items)),
        by_name: has(OptionName::ByName, items),
        strict: has(OptionName::Strict, items),
        unquoted: has(OptionName::Unquoted, items),
        numeric: has(OptionName::Numeric, items),
        active_low: has(OptionName::ActiveLow, items),
        bias: bias_given(value_of(OptionName::Bias, items)),
        drive: drive_given(value_of(OptionName::Drive, items)),
        edges: edges_given(name, items),
        period_us: period_given(value_of(OptionName::Period, items)),
        count: count_given(value_of(OptionName::Count, items)),
        format,
        consumer: consumer_given(name, value_of(OptionName::Consumer, items)),
        lines,
    })
}

/// The chips that gpiodetect's words name.
fn chips_of(alloc: Global, items: &[Item<'_>]) -> Result<Vec<Name>, ArgFault>
    ensures ok { IfOk result (λ names. names.items ≡ map name_or_none (line_words (map item_in items.now))) }
    ensures memory_alone { IsOkUnless result ArgFault.NoMemory }
{
    let mut names = Vec::new(alloc);
    for item in items {
        put_chip(item, &mut names)?;
    }
    Ok(names)
}

fn put_chip(item: &Item<'_>, names: &mut Vec<Name>) -> Result<(), ArgFault>
    ensures ok { OnOk result (names.new.items ≡ names.old.items ++ map name_or_none (with_line item.now.option item.now.text.now [])) }
    ensures memory_alone { IsOkUnless result ArgFault.NoMemory }
{
    match &item.option {
        Some(_) => Ok(()),
        None => {
            if names.push(name_or_none(item.text)).is_err() {
                return Err(ArgFault::NoMemory);
            }
            Ok(())
        }
    }
}

/// The lines that a tool's words say.
fn lines_of(
    alloc: Global,
    name: ToolName,
    items: &[Item<'_>],
) -> Result<Vec<(Name, bool)>, ArgFault>
    ensures ok { IfOk result (λ lines. lines.items ≡ lines_from name (line_words (map item_in items.now))) }
    ensures memory_alone { IsOkUnless result ArgFault.NoMemory }
{
    let mut lines = Vec::new(alloc);
    for item in items {
        put_line(name, item, &mut lines)?;
    }
    Ok(lines)
}

fn put_line(name: ToolName, item: &Item<'_>, lines: &mut Vec<(Name, bool)>) -> Result<(), ArgFault>
    ensures ok { OnOk result (lines.new.items ≡ lines.old.items ++ lines_from name (with_line item.now.option item.now.text.now [])) }
    ensures memory_alone { IsOkUnless result ArgFault.NoMemory }
{
    match &item.option {
        Some(_) => Ok(()),
        None => {
            if lines
                .push(line_or_none(line_said(name, item.text)))
                .is_err()
            {
                return Err(ArgFault::NoMemory);
            }
            Ok(())
        }
    }
}

fn line_or_none(line: Option<(Name, bool)>) -> (Name, bool)
    ensures { result ≡ line_or_none line }
{
    match line {
        Some(line) => line,
        None => (Name::empty(), false),
    }
}

fn name_or_none(text: &[u8]) -> Name
    ensures { result ≡ name_or_none text.now }
{
    match Name::of(text) {
        Some(name) => name,
        None => Name::empty(),
    }
}

fn name_given(value: Option<&[u8]>) -> Option<Name>
    ensures { result ≡ name_given (option_copied value.entry) }
{
    match value {
        Some(text) => Name::of(text),
        None => None,
    }
}

fn number_or(other: u64, number: Option<u64>) -> u64
    ensures { result ≡ said_or other number }
{
    match number {
        Some(number) => number,
        None => other,
    }
}

fn bias_given(value: Option<&[u8]>) -> u64
    ensures { result ≡ read_or 0 bias_of (option_copied value.entry) }
{
    match value {
        Some(text) => number_or(0, bias_of(text)),
        None => 0,
    }
}

fn drive_given(value: Option<&[u8]>) -> u64
    ensures { result ≡ read_or 0 drive_of (option_copied value.entry) }
{
    match value {
        Some(text) => number_or(0, drive_of(text)),
        None => 0,
    }
}

fn period_given(value: Option<&[u8]>) -> u32
    ensures { result ≡ read_or 0 period_of (option_copied value.entry) }
{
    match value {
        Some(text) => match period_of(text) {
            Some(period) => period,
            None => 0,
        },
        None => 0,
    }
}

/// gpiomon's edges, or the kinds of change of gpionotify.
fn edges_given(name: ToolName, items: &[Item<'_>]) -> u64
    ensures { result ≡ edges_given name (map item_in items.now) }
{
    match name {
        ToolName::Notify => changes_or_all(value_of(OptionName::Event, items)),
        ToolName::Detect | ToolName::Info | ToolName::Get | ToolName::Set | ToolName::Watch =>
            edges_or_both(value_of(OptionName::Edges, items)),
    }
}

fn changes_or_all(value: Option<&[u8]>) -> u64
    ensures { result ≡ read_or 14 changes_of (option_copied value.entry) }
{
    match value {
        Some(text) => number_or(ALL_CHANGES, changes_of(text)),
        None => ALL_CHANGES,
    }
}

fn edges_or_both(value: Option<&[u8]>) -> u64
    ensures { result ≡ read_or 48 edges_of (option_copied value.entry) }
{
    match value {
        Some(text) => number_or(BOTH_EDGES, edges_of(text)),
        None => BOTH_EDGES,
    }
}

fn count_given(value: Option<&[u8]>) -> Option<u32>
    ensures { result ≡ count_given (option_copied value.entry) }
{
    match value {
        Some(text) => count_of(text),
        None => None,
    }
}

fn consumer_given(name: ToolName, value: Option<&[u8]>) -> Name
    ensures { result ≡ consumer_given name (option_copied value.entry) }
{
    match name_given(value) {
        Some(consumer) => consumer,
        None => own_name(name),
    }
}

/// A tool's own name.
fn own_name(name: ToolName) -> Name
    ensures { result ≡ tool_text name }
{
    match Name::of(name.text().as_bytes()) {
        Some(name) => name,
        None => Name::empty(),
    }
}

fn format_given(alloc: Global, value: Option<&[u8]>) -> Result<Option<ByteList>, ArgFault>
    ensures ok { IfOk result (λ format. format ≡ option_copied value.entry) }
    ensures memory_alone { IsOkUnless result ArgFault.NoMemory }
{
    match value {
        Some(text) => {
            let mut format = ByteList::new(alloc);
            if format.push_all(text).is_err() {
                return Err(ArgFault::NoMemory);
            }
            Ok(Some(format))
        }
        None => Ok(None),
    }
}

/// Whether all items are right.
fn are_right(name: ToolName, items: &[Item<'_>]) -> bool
    ensures { result ≡ are_right name (map item_in items.now) }
{
    all_are_right(name, items) && !has_twice(items) && is_line_count(name, line_count(items))
}

fn all_are_right(name: ToolName, items: &[Item<'_>]) -> bool
    ensures { result ≡ list_all (item_is_right name) (map item_in items.now) }
{
    for item in items {
        if !item_is_right(name, item) {
            return false;
        }
    }
    true
}

fn item_is_right(name: ToolName, item: &Item<'_>) -> bool
    ensures { result ≡ item_is_right name (item_in item.now) }
{
    match &item.option {
        Some(option) => is_right(*option, item.text),
        None => word_is_right(name, item.text),
    }
}

fn word_is_right(name: ToolName, word: &[u8]) -> bool
    ensures { result ≡ word_is_right name word.now }
{
    match name {
        ToolName::Detect => is_short_text(word),
        ToolName::Info | ToolName::Get | ToolName::Set | ToolName::Watch | ToolName::Notify =>
            line_said(name, word).is_some(),
    }
}

fn is_line_count(name: ToolName, count: usize) -> bool
    ensures { result ≡ is_line_count name count }
{
    match name {
        ToolName::Detect => count <= CHIPS_MAX,
        ToolName::Info => count == 0,
        ToolName::Get | ToolName::Set | ToolName::Watch | ToolName::Notify => {
            1 <= count && count <= LINES_PER_TOOL
        }
    }
}

/// How many line words there are.
fn line_count(items: &[Item<'_>]) -> usize
    ensures { result ≡ length (line_words (map item_in items.now)) }
{
    let mut count = 0;
    for item in items {
        if item.option.is_none() {
            count += 1;
        }
    }
    count
}

//! How a monitor prints an item.
ghost use Rattle.gl_args.specs.Options.{options_in};
ghost use Rattle.std.specs.Prelude.{◌≡◌, ◌++◌, ◌<◌, find, length, option_copied, OnOk, IfOk, IsOkUnless};
ghost use Rattle.gl_base.specs.ChipWord.{chip_name};
ghost use Rattle.gl_base.specs.Decimal.{decimal};
ghost use Rattle.gl_base.specs.Seconds.{seconds_text};
ghost use Rattle.gl_monitor.specs.ItemText.{word_of, has_offset, name_at, number_of_chip, given_text, named_text, line_text, name_or_unnamed, expansion, formatted, plain_text, item_text, item_line, items_text, number_or_zero, event_word, change_word};

use crate::item::Item;
use gl_args::{Opts, ToolName};
use gl_base::{ByteList, Errno, Name, chip_number};
use gl_lines::{FoundLine, place_of, put_quoted};
use std::alloc::Global;

/// The lines of items.
pub(crate) fn items_text(
    alloc: Global,
    tool: ToolName,
    opts: &Opts,
    found: &[FoundLine],
    items: &[Item],
) -> Result<ByteList, Errno>
    ensures ok { IfOk result (λ text. text ≡ items_text tool (options_in opts.now) found.now items.now) }
    ensures memory_alone { IsOkUnless result Errno.NoMemory }
{
    let mut text = ByteList::new(alloc);
    for item in items {
        put_line(alloc, tool, opts, found, item, &mut text)?;
    }
    Ok(text)
}

fn put_line(
    alloc: Global,
    tool: ToolName,
    opts: &Opts,
    found: &[FoundLine],
    item: &Item,
    text: &mut ByteList,
) -> Result<(), Errno>
    ensures ok { OnOk result (text.new ≡ text.old ++ item_line tool (options_in opts.now) found.now item.now) }
    ensures memory_alone { IsOkUnless result Errno.NoMemory }
{
    put_item(alloc, tool, opts, found, item, text)?;
    text.push_all(b"\n")
}

fn put_item(
    alloc: Global,
    tool: ToolName,
    opts: &Opts,
    found: &[FoundLine],
    item: &Item,
    text: &mut ByteList,
) -> Result<(), Errno>
    ensures ok { OnOk result (text.new ≡ text.old ++ item_text tool (options_in opts.now) found.now item.now) }
    ensures memory_alone { IsOkUnless result Errno.NoMemory }
{
    match &opts.format {
        Some(format) => put_formatted(alloc, tool, opts, found, item, format.as_slice(), text),
        None => put_plain(alloc, tool, opts, found, item, text),
    }
}

/// `SECONDS`, a tab, the word of the event, a tab, and the line.
fn put_plain(
    alloc: Global,
    tool: ToolName,
    opts: &Opts,
    found: &[FoundLine],
    item: &Item,
    text: &mut ByteList,
) -> Result<(), Errno>
    ensures ok { OnOk result (text.new ≡ text.old ++ plain_text tool (options_in opts.now) found.now item.now) }
    ensures memory_alone { IsOkUnless result Errno.NoMemory }
{
    put_seconds(alloc, item.time, text)?;
    text.push_all(b"\t")?;
    text.push_all(word_of(tool, item.number))?;
    text.push_all(b"\t")?;
    put_line_name(alloc, opts, found, item.offset, text)
}

/// The line as it is printed without a format.
fn put_line_name(
    alloc: Global,
    opts: &Opts,
    found: &[FoundLine],
    offset: u32,
    text: &mut ByteList,
) -> Result<(), Errno>
    ensures ok { OnOk result (text.new ≡ text.old ++ line_text (options_in opts.now) found.now offset) }
    ensures memory_alone { IsOkUnless result Errno.NoMemory }
{
    match name_at(found, offset) {
        Some(name) => put_named(alloc, opts, found, offset, &name, text),
        None => put_given(alloc, opts, found, offset, text),
    }
}

/// `CHIP OFFSET`.
fn put_given(
    alloc: Global,
    opts: &Opts,
    found: &[FoundLine],
    offset: u32,
    text: &mut ByteList,
) -> Result<(), Errno>
    ensures ok { OnOk result (text.new ≡ text.old ++ given_text (options_in opts.now) found.now offset) }
    ensures memory_alone { IsOkUnless result Errno.NoMemory }
{
    put_chip(opts, found, text)?;
    text.push_all(b" ")?;
    put_number(alloc, offset, text)
}

/// The word of a line that was found by its name, after `CHIP OFFSET` where the chip was named.
fn put_named(
    alloc: Global,
    opts: &Opts,
    found: &[FoundLine],
    offset: u32,
    name: &Name,
    text: &mut ByteList,
) -> Result<(), Errno>
    ensures ok { OnOk result (text.new ≡ text.old ++ named_text (options_in opts.now) found.now offset name.now) }
    ensures memory_alone { IsOkUnless result Errno.NoMemory }
{
    if opts.chip.is_none() {
        return put_quoted(opts.unquoted, name.as_bytes(), text);
    }
    put_given(alloc, opts, found, offset, text)?;
    text.push_all(b" ")?;
    put_quoted(opts.unquoted, name.as_bytes(), text)
}

/// The word by which the line at an offset was found, if it was found by its name.
fn name_at(found: &[FoundLine], offset: u32) -> Option<Name>
    ensures { result ≡ name_at found.now offset }
{
    match line_at(found, offset) {
        Some(line) => line.name,
        None => None,
    }
}

/// The line at an offset.
fn line_at(found: &[FoundLine], offset: u32) -> Option<&FoundLine>
    ensures { option_copied result ≡ find (has_offset offset) found.now }
{
    for line in found {
        if line.offset == offset {
            return Some(line);
        }
    }
    None
}

/// The number of the chip of the lines: by the chip word, or by the place where they were found.
fn number_of_chip(opts: &Opts, found: &[FoundLine]) -> u64
    ensures { result ≡ number_of_chip (options_in opts.now) found.now }
{
    match &opts.chip {
        Some(chip) => number_or_zero(chip_number(chip.as_bytes())),
        None => u64::from(place_of(found)),
    }
}

fn number_or_zero(number: Option<u64>) -> u64
    ensures { result ≡ number_or_zero number }
{
    match number {
        Some(number) => number,
        None => 0,
    }
}

fn put_chip(opts: &Opts, found: &[FoundLine], text: &mut ByteList) -> Result<(), Errno>
    ensures ok { OnOk result (text.new ≡ text.old ++ chip_name (number_of_chip (options_in opts.now) found.now)) }
    ensures memory_alone { IsOkUnless result Errno.NoMemory }
{
    let name = Name::with_number(b"gpiochip", number_of_chip(opts, found));
    text.push_all(name.as_bytes())
}

/// The text of an item by a format.
fn put_formatted(
    alloc: Global,
    tool: ToolName,
    opts: &Opts,
    found: &[FoundLine],
    item: &Item,
    format: &[u8],
    text: &mut ByteList,
) -> Result<(), Errno>
    ensures ok { OnOk result (text.new ≡ text.old ++ formatted tool (options_in opts.now) found.now item.now format.now) }
    ensures memory_alone { IsOkUnless result Errno.NoMemory }
{
    let mut rest = format;
    while !rest.is_empty() {
        rest = put_front(alloc, tool, opts, found, item, rest, text)?;
    }
    Ok(())
}

/// Puts what the front of a format stands for, and gives what is left of it.
fn put_front<'a>(
    alloc: Global,
    tool: ToolName,
    opts: &Opts,
    found: &[FoundLine],
    item: &Item,
    format: &'a [u8],
    text: &mut ByteList,
) -> Result<&'a [u8], Errno>
    requires { 0 < length format.now }
    ensures ok { IfOk result (λ rest. text.new ++ formatted tool (options_in opts.now) found.now item.now rest.now ≡ text.old ++ formatted tool (options_in opts.now) found.now item.now format.now) }
    ensures less { IfOk result (λ rest. length rest.now < length format.now) }
    ensures memory_alone { IsOkUnless result Errno.NoMemory }
{
    match format {
        [first, letter, rest @ ..] => {
            if *first == b'%' {
                put_expansion(alloc, tool, opts, found, item, *letter, text)?;
                return Ok(rest);
            }
            text.push_all(&[*first])?;
            Ok(&format[1..])
        }
        [first] => {
            text.push_all(&[*first])?;
            Ok(&[])
        }
        [] => Ok(&[]),
    }
}

/// What stands for the letter after a percent sign.
fn put_expansion(
    alloc: Global,
    tool: ToolName,
    opts: &Opts,
    found: &[FoundLine],
    item: &Item,
    letter: u8,
    text: &mut ByteList,
) -> Result<(), Errno>
    ensures ok { OnOk result (text.new ≡ text.old ++ expansion tool (options_in opts.now) found.now item.now letter) }
    ensures memory_alone { IsOkUnless result Errno.NoMemory }
{
    if letter == b'o' {
        return put_number(alloc, item.offset, text);
    }
    if letter == b'l' {
        return put_name(name_at(found, item.offset), text);
    }
    if letter == b'c' {
        return put_chip(opts, found, text);
    }
    if letter == b'e' {
        return put_number(alloc, item.number, text);
    }
    if letter == b'E' {
        return text.push_all(word_of(tool, item.number));
    }
    if letter == b'S' {
        return put_seconds(alloc, item.time, text);
    }
    if letter == b'%' {
        return text.push_all(b"%");
    }
    text.push_all(&[b'%', letter])
}

/// A line's name, or `unnamed`.
fn put_name(name: Option<Name>, text: &mut ByteList) -> Result<(), Errno>
    ensures ok { OnOk result (text.new ≡ text.old ++ name_or_unnamed name) }
    ensures memory_alone { IsOkUnless result Errno.NoMemory }
{
    match &name {
        Some(name) => text.push_all(name.as_bytes()),
        None => text.push_all(b"unnamed"),
    }
}

/// The word of an event, or of a kind of change.
fn word_of(tool: ToolName, number: u32) -> &'static [u8]
    ensures { result.now ≡ word_of tool number }
{
    match tool {
        ToolName::Notify => change_word(number),
        ToolName::Detect | ToolName::Info | ToolName::Get | ToolName::Set | ToolName::Watch =>
            event_word(number),
    }
}

fn event_word(id: u32) -> &'static [u8]
    ensures { result.now ≡ event_word id }
{
    if id == 1 { b"rising" } else { b"falling" }
}

fn change_word(kind: u32) -> &'static [u8]
    ensures { result.now ≡ change_word kind }
{
    if kind == 1 {
        return b"requested";
    }
    if kind == 2 {
        return b"released";
    }
    b"reconfigured"
}

fn put_number(alloc: Global, number: u32, text: &mut ByteList) -> Result<(), Errno>
    ensures ok { OnOk result (text.new ≡ text.old ++ decimal number) }
    ensures memory_alone { IsOkUnless result Errno.NoMemory }
{
    let mut digits = Vec::new(alloc);
    gl_base::put_decimal(u64::from(number), &mut digits)?;
    text.push_all(&digits)
}

fn put_seconds(alloc: Global, ns: u64, text: &mut ByteList) -> Result<(), Errno>
    ensures ok { OnOk result (text.new ≡ text.old ++ seconds_text ns) }
    ensures memory_alone { IsOkUnless result Errno.NoMemory }
{
    let mut seconds = Vec::new(alloc);
    gl_base::put_seconds(ns, &mut seconds)?;
    text.push_all(&seconds)
}

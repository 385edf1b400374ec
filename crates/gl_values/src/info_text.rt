//! The line that gpioinfo prints for a line.
ghost use Rattle.std.specs.Prelude.{◌≡◌, ◌++◌, OnOk, OnErr, IsOkUnless};
ghost use Rattle.gl_values.specs.InfoText.{direction_text, active_low_text, drive_text, bias_text, edges_text, clock_text, period_text, some_period_text, microseconds_text, user_text, name_text, words_text, line_text, is_both, offset_text, left_justified, consumer_text};

use gl_base::{ByteList, Errno, flag, has_bit, put_decimal, put_repeated, put_right_justified};
use gl_lines::put_quoted;
use gl_uapi::Info;
use std::alloc::Global;

/// How many columns an offset has.
const OFFSET_COLUMNS: usize = 3;

/// How many columns a name has.
const NAME_COLUMNS: usize = 16;

/// Appends what is printed for a line: its offset, its name, and words on how it is used. When out of memory the text is as
/// it was.
pub(crate) fn put_line(
    alloc: Global,
    unquoted: bool,
    offset: u32,
    info: &Info,
    text: &mut ByteList,
) -> Result<(), Errno>
    ensures ok { OnOk result (text.new ≡ text.old ++ line_text unquoted offset info.now) }
    ensures kept { OnErr result (text.new ≡ text.old) }
    ensures memory_alone { IsOkUnless result Errno.NoMemory }
{
    let mut line = ByteList::new(alloc);
    put_parts(alloc, unquoted, offset, info, &mut line)?;
    text.push_all(line.as_slice())
}

fn put_parts(
    alloc: Global,
    unquoted: bool,
    offset: u32,
    info: &Info,
    text: &mut ByteList,
) -> Result<(), Errno>
    ensures ok { OnOk result (text.new ≡ text.old ++ line_text unquoted offset info.now) }
    ensures memory_alone { IsOkUnless result Errno.NoMemory }
{
    text.push_all(b"\tline ")?;
    put_offset(alloc, offset, text)?;
    text.push_all(b":\t")?;
    put_name(alloc, unquoted, info, text)?;
    text.push_all(b"\t")?;
    put_words(alloc, unquoted, info, text)?;
    text.push_all(b"\n")
}

fn put_offset(alloc: Global, offset: u32, text: &mut ByteList) -> Result<(), Errno>
    ensures ok { OnOk result (text.new ≡ text.old ++ offset_text offset) }
    ensures memory_alone { IsOkUnless result Errno.NoMemory }
{
    let mut digits = Vec::new(alloc);
    put_right_justified(OFFSET_COLUMNS, b' ', u64::from(offset), &mut digits)?;
    text.push_all(&digits)
}

/// The name in quotes or `unnamed`, left-justified.
fn put_name(alloc: Global, unquoted: bool, info: &Info, text: &mut ByteList) -> Result<(), Errno>
    ensures ok { OnOk result (text.new ≡ text.old ++ left_justified NAME_COLUMNS (name_text unquoted info.now.name)) }
    ensures memory_alone { IsOkUnless result Errno.NoMemory }
{
    let mut name = ByteList::new(alloc);
    put_name_alone(unquoted, info.name.as_bytes(), &mut name)?;
    text.push_all(name.as_slice())?;
    let mut blanks = Vec::new(alloc);
    let width = name.as_slice().len();
    put_repeated(NAME_COLUMNS.saturating_sub(width), b' ', &mut blanks)?;
    text.push_all(&blanks)
}

fn put_name_alone(unquoted: bool, name: &[u8], text: &mut ByteList) -> Result<(), Errno>
    ensures ok { OnOk result (text.new ≡ text.old ++ name_text unquoted name.now) }
    ensures memory_alone { IsOkUnless result Errno.NoMemory }
{
    match name {
        [] => text.push_all(b"unnamed"),
        [_, ..] => put_quoted(unquoted, name, text),
    }
}

/// The words on how a line is used, separated by blanks.
fn put_words(alloc: Global, unquoted: bool, info: &Info, text: &mut ByteList) -> Result<(), Errno>
    ensures ok { OnOk result (text.new ≡ text.old ++ words_text unquoted info.now) }
    ensures memory_alone { IsOkUnless result Errno.NoMemory }
{
    text.push_all(direction_text(info.flags))?;
    text.push_all(active_low_text(info.flags))?;
    text.push_all(drive_text(info.flags))?;
    text.push_all(bias_text(info.flags))?;
    text.push_all(edges_text(info.flags))?;
    text.push_all(clock_text(info.flags))?;
    put_period(alloc, info.period, text)?;
    put_user(unquoted, info, text)
}

fn direction_text(flags: u64) -> &'static [u8]
    ensures { result.now ≡ direction_text flags }
{
    if has_bit(flags, flag::OUTPUT) {
        return b"output";
    }
    b"input"
}

fn active_low_text(flags: u64) -> &'static [u8]
    ensures { result.now ≡ active_low_text flags }
{
    if has_bit(flags, flag::ACTIVE_LOW) {
        return b" active-low";
    }
    b""
}

fn drive_text(flags: u64) -> &'static [u8]
    ensures { result.now ≡ drive_text flags }
{
    if has_bit(flags, flag::OPEN_DRAIN) {
        return b" drive=open-drain";
    }
    if has_bit(flags, flag::OPEN_SOURCE) {
        return b" drive=open-source";
    }
    b""
}

fn bias_text(flags: u64) -> &'static [u8]
    ensures { result.now ≡ bias_text flags }
{
    if has_bit(flags, flag::BIAS_PULL_UP) {
        return b" bias=pull-up";
    }
    if has_bit(flags, flag::BIAS_PULL_DOWN) {
        return b" bias=pull-down";
    }
    if has_bit(flags, flag::BIAS_DISABLED) {
        return b" bias=disabled";
    }
    b""
}

fn edges_text(flags: u64) -> &'static [u8]
    ensures { result.now ≡ edges_text flags }
{
    if is_both(flags) {
        return b" edges=both";
    }
    if has_bit(flags, flag::EDGE_RISING) {
        return b" edges=rising";
    }
    if has_bit(flags, flag::EDGE_FALLING) {
        return b" edges=falling";
    }
    b""
}

/// Whether both edges are events.
fn is_both(flags: u64) -> bool
    ensures { result ≡ is_both flags }
{
    has_bit(flags, flag::EDGE_RISING) && has_bit(flags, flag::EDGE_FALLING)
}

fn clock_text(flags: u64) -> &'static [u8]
    ensures { result.now ≡ clock_text flags }
{
    if has_bit(flags, flag::EVENT_CLOCK_REALTIME) {
        return b" event-clock=realtime";
    }
    b""
}

fn put_period(alloc: Global, period: u32, text: &mut ByteList) -> Result<(), Errno>
    ensures ok { OnOk result (text.new ≡ text.old ++ period_text period) }
    ensures memory_alone { IsOkUnless result Errno.NoMemory }
{
    if period == 0 {
        return Ok(());
    }
    put_some_period(alloc, period, text)
}

fn put_some_period(alloc: Global, period: u32, text: &mut ByteList) -> Result<(), Errno>
    ensures ok { OnOk result (text.new ≡ text.old ++ some_period_text period) }
    ensures memory_alone { IsOkUnless result Errno.NoMemory }
{
    text.push_all(b" debounce-period=")?;
    put_microseconds(alloc, period, text)?;
    Ok(())
}

fn put_microseconds(alloc: Global, period: u32, text: &mut ByteList) -> Result<(), Errno>
    ensures ok { OnOk result (text.new ≡ text.old ++ microseconds_text period) }
    ensures memory_alone { IsOkUnless result Errno.NoMemory }
{
    let mut digits = Vec::new(alloc);
    put_decimal(u64::from(period), &mut digits)?;
    text.push_all(&digits)?;
    text.push_all(b"us")
}

fn put_user(unquoted: bool, info: &Info, text: &mut ByteList) -> Result<(), Errno>
    ensures ok { OnOk result (text.new ≡ text.old ++ user_text unquoted info.now) }
    ensures memory_alone { IsOkUnless result Errno.NoMemory }
{
    if !has_bit(info.flags, flag::USED) {
        return Ok(());
    }
    put_consumer(unquoted, info.consumer.as_bytes(), text)
}

fn put_consumer(unquoted: bool, consumer: &[u8], text: &mut ByteList) -> Result<(), Errno>
    ensures ok { OnOk result (text.new ≡ text.old ++ consumer_text unquoted consumer.now) }
    ensures memory_alone { IsOkUnless result Errno.NoMemory }
{
    match consumer {
        [] => text.push_all(b" used"),
        [_, ..] => {
            text.push_all(b" consumer=")?;
            put_quoted(unquoted, consumer, text)
        }
    }
}

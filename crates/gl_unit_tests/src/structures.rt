//! That the commands are those of `linux/gpio.h`, and that a value goes through the writers and the views and stays the same.

use crate::texts::put_word;
use gl_base::{Errno, Name, put_decimal};
use gl_uapi::{
    Changed, ChangedRef, ChipRef, Command, ConfigRef, Event, EventsRef, Info, InfoRef, RequestRef,
    UnwatchRef, ValuesRef, write_chip_info, write_event, write_info_changed, write_line_info,
    write_values,
};

/// The commands.
const COMMANDS: [Command; 8] = [
    // GPIO_GET_CHIPINFO_IOCTL
    Command::ChipInfo,
    // GPIO_V2_GET_LINEINFO_IOCTL
    Command::LineInfo,
    // GPIO_V2_GET_LINEINFO_WATCH_IOCTL
    Command::Watch,
    // GPIO_V2_GET_LINE_IOCTL
    Command::GetLine,
    // GPIO_GET_LINEINFO_UNWATCH_IOCTL
    Command::Unwatch,
    // GPIO_V2_LINE_SET_CONFIG_IOCTL
    Command::SetConfig,
    // GPIO_V2_LINE_GET_VALUES_IOCTL
    Command::GetValues,
    // GPIO_V2_LINE_SET_VALUES_IOCTL
    Command::SetValues,
];

/// The numbers of these commands as a C compiler gets them from `linux/gpio.h`, and one that is no command's.
const NUMBERS: [u32; 9] = [
    0x8044_B401,
    0xC100_B405,
    0xC100_B406,
    0xC250_B407,
    0xC004_B40C,
    0xC110_B40D,
    0xC010_B40E,
    0xC010_B40F,
    0,
];

/// The place of a command among these.
fn place_of(command: Command) -> Option<usize> {
    COMMANDS.iter().position(|it| *it == command)
}

/// Appends for each of the numbers the place and the length of the command that it is, and a blank.
pub fn put_commands(out: &mut Vec<u8>) -> Result<(), Errno> {
    for number in &NUMBERS {
        put_command(Command::of(*number), out)?;
    }
    Ok(())
}

/// Appends the place and the length of a command, and a blank.
fn put_command(command: Option<Command>, out: &mut Vec<u8>) -> Result<(), Errno> {
    let Some(command) = command else {
        return put_word(b"none ", out);
    };
    let Some(place) = place_of(command) else {
        return put_word(b"other ", out);
    };
    put_decimal(place as u64, out)?;
    put_word(b" ", out)?;
    put_decimal(u64::from(command.size()), out)?;
    put_word(b" ", out)
}

/// Which views there are of some bytes.
fn views(bytes: &[u8]) -> [bool; 6] {
    [
        RequestRef::of(bytes).is_some(),
        ChangedRef::of(bytes).is_some(),
        ConfigRef::of(bytes).is_some(),
        InfoRef::of(bytes).is_some(),
        ChipRef::of(bytes).is_some(),
        ValuesRef::of(bytes).is_some(),
    ]
}

/// A view is made from its structure's length on, and not below: whether that is so of each length up to 600, and of the events.
pub fn views_by_length() -> [bool; 2] {
    let buffer = [0u8; 600];
    let mut views_are = true;
    let mut events_are = true;
    for len in 0..=600usize {
        let wanted = [592, 288, 272, 256, 68, 16].map(|size: usize| len >= size);
        views_are = views_are && views(&buffer[..len]) == wanted;
        events_are = events_are && EventsRef::of(&buffer[..len]).count() as usize == len / 48;
    }
    [views_are, events_are]
}

/// A chip, as its view reads it: name, label and lines. Nothing where there is no view.
fn chip_told(bytes: &[u8]) -> Option<(Name, Name, u32)> {
    match ChipRef::of(bytes) {
        Some(chip) => Some((
            Name::read(chip.name()),
            Name::read(chip.label()),
            chip.lines(),
        )),
        None => None,
    }
}

/// Whether a chip is read as it was written, and the byte behind it is as it was.
fn is_chip_read() -> bool {
    let name = Name::filled(b"gpiochip0");
    let label = Name::filled(b"demo");
    let mut out = [0xFFu8; 70];
    write_chip_info(&mut out, &name, &label, 4);
    chip_told(&out) == Some((name, label, 4)) && out[68] == 0xFF
}

/// Bits and mask of values, as their view reads them.
fn values_told(bytes: &[u8]) -> Option<(u64, u64)> {
    match ValuesRef::of(bytes) {
        Some(values) => Some((values.bits(), values.mask())),
        None => None,
    }
}

/// Whether values are read as they were written, and stand where they have to, and the byte behind them is as it was.
fn are_values_read() -> bool {
    let mut out = [0xFFu8; 17];
    write_values(&mut out, 0x8000_0000_0000_0001, 3);
    values_told(&out) == Some((0x8000_0000_0000_0001, 3))
        && (out[0], out[7], out[8], out[16]) == (1, 0x80, 3, 0xFF)
}

/// An input with a name and a consumer that is debounced for so many microseconds.
fn button(period: u32) -> Info {
    Info {
        name: Name::filled(b"BUTTON"),
        consumer: Name::filled(b"?"),
        offset: 3,
        flags: 0x105,
        period,
    }
}

/// What a view of a line's information tells.
fn info_told(line: &InfoRef<'_>) -> (Name, Name, u32, u64, u32) {
    (
        Name::read(line.name()),
        Name::read(line.consumer()),
        line.offset(),
        line.flags(),
        line.period(),
    )
}

/// What it is to tell.
fn told_of(info: &Info) -> (Name, Name, u32, u64, u32) {
    (
        info.name,
        info.consumer,
        info.offset,
        info.flags,
        info.period,
    )
}

/// A change of a line, as its view reads it: when, of which kind, and the line. Nothing where its padding isn't zero.
fn change_told(bytes: &[u8]) -> Option<(u64, u32, (Name, Name, u32, u64, u32))> {
    match ChangedRef::of(bytes) {
        Some(read) if read.info().padding_is_zero() => {
            Some((read.timestamp(), read.kind(), info_told(&read.info())))
        }
        _ => None,
    }
}

/// Whether a change is read as it was written.
fn is_change_read() -> bool {
    let changed = Changed {
        info: button(1000),
        timestamp: 1_500_000_000,
        kind: 2,
    };
    let mut out = [0xFFu8; 288];
    write_info_changed(&mut out, &changed);
    change_told(&out) == Some((1_500_000_000, 2, told_of(&changed.info)))
}

/// A line, as its view reads it. Nothing where there is no view.
fn line_told(bytes: &[u8]) -> Option<(Name, Name, u32, u64, u32)> {
    match InfoRef::of(bytes) {
        Some(line) => Some(info_told(&line)),
        None => None,
    }
}

/// Whether a line is read as it was written.
fn is_line_read() -> bool {
    let still = button(0);
    let mut out = [0xFFu8; 256];
    write_line_info(&mut out, &still);
    line_told(&out) == Some(told_of(&still))
}

/// Whether the second of two events is read as it was written.
fn is_event_read() -> bool {
    let event = Event {
        timestamp: 2,
        id: 1,
        offset: 3,
        seqno: 4,
        line_seqno: 0xFFFF_FFFF,
    };
    let mut out = [0xFFu8; 100];
    write_event(&mut out[48..], &event);
    let events = EventsRef::of(&out);
    events.count() == 2 && events.get(1) == event
}

/// The offset of a line that is to be watched no more, as its view reads it.
fn unwatched(bytes: &[u8]) -> Option<u32> {
    match UnwatchRef::of(bytes) {
        Some(unwatch) => Some(unwatch.offset()),
        None => None,
    }
}

/// Whether a chip, values, a change, a line, an event and a line to be watched no more are read as they were written, in this order.
pub fn checks() -> [bool; 7] {
    [
        is_chip_read(),
        are_values_read(),
        is_change_read(),
        is_line_read(),
        is_event_read(),
        unwatched(&[9, 0, 0, 0, 1]) == Some(9),
        unwatched(&[9, 0, 0]) == None,
    ]
}

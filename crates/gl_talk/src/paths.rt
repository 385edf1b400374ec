//! Paths that go to the lines of a chip and to a device, in place of the tree.
ghost use Rattle.std.specs.Prelude.{◌≡◌, [], ◌∷◌, MatchOption, map};
ghost use Rattle.std.specs.List.{list_all};
ghost use Rattle.gl_base.specs.Words.{pieces, pieces_left};
ghost use Rattle.gl_script.specs.Forms.{within};
ghost use Rattle.gl_talk.specs.Paths.{chip_part, is_device, is_pull_part, line_file, line_file_by, line_part, live_by, live_device};

use gl_base::{Name, are_label_bytes, read_plain_decimal, split_first};

/// The pull or the value of a line, as gpio-sim has it among a chip's files.
#[derive(Clone, Copy)]
pub struct LineFile {
    /// The chip's number, from 0 to 63.
    pub chip: u8,
    /// The line's offset, from 0 to 9999.
    pub offset: u32,
    /// Whether it is the pull; else it is the value.
    pub is_pull: bool,
}

/// The file of a line that a path names, if it names one.
#[tactic(auto, using(crate::proofs::Parts::four_parts))]
pub fn line_file(path: &[u8]) -> Option<LineFile>
    ensures { result ≡ line_file path.now }
{
    let (chip, rest) = split_first(path, b'/');
    let Some(rest) = rest else {
        return None;
    };
    let (line, rest) = split_first(rest, b'/');
    let Some(rest) = rest else {
        return None;
    };
    let (name, more) = split_first(rest, b'/');
    if let Some(_) = more {
        return None;
    }
    line_file_by(chip_part(chip), line_part(line), is_pull_part(name))
}

fn line_file_by(chip: Option<u8>, offset: Option<u32>, is_pull: Option<bool>) -> Option<LineFile>
    ensures { result ≡ line_file_by chip offset is_pull }
{
    match (chip, offset, is_pull) {
        (Some(chip), Some(offset), Some(is_pull)) => Some(LineFile {
            chip,
            offset,
            is_pull,
        }),
        _ => None,
    }
}

fn chip_part(part: &[u8]) -> Option<u8>
    ensures { result ≡ chip_part part.now }
{
    if part.starts_with(b"gpiochip") {
        return chip_within(read_plain_decimal(&part[8..]));
    }
    None
}

fn line_part(part: &[u8]) -> Option<u32>
    ensures { result ≡ line_part part.now }
{
    if part.starts_with(b"sim_gpio") {
        return at_most(9999, read_plain_decimal(&part[8..]));
    }
    None
}

fn is_pull_part(part: &[u8]) -> Option<bool>
    ensures { result ≡ is_pull_part part.now }
{
    if part == b"pull".as_slice() {
        return Some(true);
    }
    if part == b"value".as_slice() {
        return Some(false);
    }
    None
}

/// A number as that of a chip, if it is one.
fn chip_within(number: Option<u64>) -> Option<u8>
    ensures { result ≡ within 0 63 number }
{
    match number {
        Some(number) => {
            if number <= 63 {
                return Some(number as u8);
            }
            None
        }
        None => None,
    }
}

fn at_most(most: u32, number: Option<u64>) -> Option<u32>
    ensures { result ≡ within 0 most number }
{
    match number {
        Some(number) => {
            if number <= u64::from(most) {
                return Some(number as u32);
            }
            None
        }
        None => None,
    }
}

/// The device whose `live` a path names, if it names one.
#[tactic(auto, using(crate::proofs::Parts::three_parts, crate::proofs::WordReadings::device_fits))]
pub fn live_device(path: &[u8]) -> Option<Name>
    ensures { result ≡ live_device path.now }
{
    let (device, rest) = split_first(path, b'/');
    let Some(rest) = rest else {
        return None;
    };
    let (name, more) = split_first(rest, b'/');
    if let Some(_) = more {
        return None;
    }
    if is_device(device) && name == b"live".as_slice() {
        return Some(Name::filled(device));
    }
    None
}

fn is_device(part: &[u8]) -> bool
    ensures { result ≡ is_device part.now }
{
    1 <= part.len() && part.len() <= 15 && are_label_bytes(part) && !part.starts_with(b"gpiochip")
}

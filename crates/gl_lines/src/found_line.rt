//! The lines that a tool found.
ghost use Rattle.std.specs.Prelude.{◌≡◌, not, IfOk, IsOkUnless, map};
ghost use Rattle.std.specs.List.{list_all};
ghost use Rattle.gl_lines.specs.FoundLines.{is_at, are_apart, place_of, offsets_of};

use gl_base::{Errno, Name};
use std::alloc::Global;

/// A line that a tool found.
#[derive(Clone, Copy)]
pub struct FoundLine {
    /// Its chip's place; 0 where the line was given by its offset on the chip that was named.
    pub place: u8,
    /// Its offset on the chip.
    pub offset: u32,
    /// Its word, where it was found by its name.
    pub name: Option<Name>,
}

/// Whether lines are of two chips.
pub(crate) fn are_apart(lines: &[FoundLine]) -> bool
    ensures { result ≡ are_apart lines.now }
{
    match lines.split_first() {
        Some((first, others)) => !are_at(first.place, others),
        None => false,
    }
}

/// Whether all lines are of the chip at a place.
fn are_at(place: u8, lines: &[FoundLine]) -> bool
    ensures { result ≡ list_all (is_at place) lines.now }
{
    lines.iter().all(|line| line.place == place)
}

/// The place of the chip of lines; 0 where there are none.
pub fn place_of(lines: &[FoundLine]) -> u32
    ensures { result ≡ place_of lines.now }
{
    match lines.first() {
        Some(line) => u32::from(line.place),
        None => 0,
    }
}

/// The offsets of lines.
pub(crate) fn offsets_of(alloc: Global, lines: &[FoundLine]) -> Result<Vec<u32>, Errno>
    ensures ok { IfOk result (λ offsets. offsets.items ≡ offsets_of lines.now) }
    ensures memory_alone { IsOkUnless result Errno.NoMemory }
{
    let mut offsets = Vec::new(alloc);
    for line in lines {
        offsets.push(line.offset)?;
    }
    Ok(offsets)
}

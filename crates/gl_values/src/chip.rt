//! A chip as its information tells of it.
ghost use Rattle.std.specs.Prelude.{◌≡◌, ◌+◌, ◌<◌, ◌^◌, [], ◌∷◌, IfOk, IsSome, IsOkUnless, MatchOption};
ghost use Rattle.gl_values.specs.Chips.{chip_told, chip_line, chip_head, chip_query, is_absent, passes_over, words_from};

use gl_base::command::GET_CHIPINFO;
use gl_base::{ByteList, Do, Errno, Name, PLACES, Path, put_decimal};
use gl_lines::{path_of_name, path_of_number};
use gl_uapi::ChipRef;
use std::alloc::Global;

/// A chip: what GET_CHIPINFO tells of it.
#[derive(Clone, Copy)]
pub struct Chip {
    /// Its name.
    pub name: Name,
    /// Its label.
    pub label: Name,
    /// How many lines it has.
    pub lines: u32,
}

/// The chip that bytes tell of; None where there are too few of them.
pub(crate) fn chip_told(bytes: &[u8]) -> Option<Chip>
    ensures { result ≡ chip_told bytes.now }
{
    match ChipRef::of(bytes) {
        Some(chip) => Some(Chip {
            name: Name::read(chip.name()),
            label: Name::read(chip.label()),
            lines: chip.lines(),
        }),
        None => None,
    }
}

/// Whether a chip that was to be opened isn't there.
fn is_absent(errno: Errno) -> bool
    ensures { result ≡ is_absent errno }
{
    matches!(errno, Errno::NoEnt | Errno::NoDev)
}

/// Whether a chip that wasn't opened is passed over: it isn't there, and no chip was given by a word.
pub(crate) fn passes_over(errno: Errno, is_named: bool) -> bool
    ensures { result ≡ passes_over errno is_named }
{
    is_absent(errno) && !is_named
}

/// The chip word after the first `next`: of those that were given, or of the numbers of all places.
#[tactic(auto, using(crate::proofs::ChipWords::words))]
pub(crate) fn word_at(words: &[Name], next: usize) -> Option<Path>
    ensures word { MatchOption result (words_from words.now next ≡ []) (λ word. words_from words.now next ≡ word ∷ words_from words.now (next + 1)) }
    ensures small { IsSome result → next < 2 ^ 63 }
{
    if words.is_empty() {
        if next < PLACES as usize {
            return Some(path_of_number(next as u32));
        }
        return None;
    }
    match words.get(next) {
        Some(word) => Some(path_of_name(word)),
        None => None,
    }
}

/// The question for what the chip in a slot tells of itself.
pub(crate) fn chip_query(slot: u32) -> Do
    ensures { result ≡ chip_query slot }
{
    Do::Ioctl {
        slot,
        cmd: GET_CHIPINFO,
        len: 68,
        bytes: [0; 592],
        made: 0,
    }
}

/// `NAME [LABEL] (N lines)`.
pub(crate) fn chip_line(alloc: Global, chip: &Chip) -> Result<ByteList, Errno>
    ensures ok { IfOk result (λ text. text ≡ chip_line chip.now) }
    ensures memory_alone { IsOkUnless result Errno.NoMemory }
{
    let mut digits = Vec::new(alloc);
    put_decimal(u64::from(chip.lines), &mut digits)?;
    let mut text = ByteList::new(alloc);
    text.push_all(chip.name.as_bytes())?;
    text.push_all(b" [")?;
    text.push_all(chip.label.as_bytes())?;
    text.push_all(b"] (")?;
    text.push_all(&digits)?;
    text.push_all(b" lines)\n")?;
    Ok(text)
}

/// `NAME - N lines:`.
pub(crate) fn chip_head(alloc: Global, chip: &Chip) -> Result<ByteList, Errno>
    ensures ok { IfOk result (λ text. text ≡ chip_head chip.now) }
    ensures memory_alone { IsOkUnless result Errno.NoMemory }
{
    let mut digits = Vec::new(alloc);
    put_decimal(u64::from(chip.lines), &mut digits)?;
    let mut text = ByteList::new(alloc);
    text.push_all(chip.name.as_bytes())?;
    text.push_all(b" - ")?;
    text.push_all(&digits)?;
    text.push_all(b" lines:\n")?;
    Ok(text)
}

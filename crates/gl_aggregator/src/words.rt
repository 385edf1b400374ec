//! Words that have a bit for some of the lines that an operation shares with a target.
ghost use Rattle.std.specs.Prelude.{◌≡◌, ◌+◌, ◌^◌, ◌<◌, ◌≤◌, IfSome, bit_or, if◌then◌else◌, length};
ghost use Rattle.gl_base.specs.Lines.{offsets_of};
ghost use Rattle.gl_base.specs.Bits.{has_bit};
ghost use Rattle.gl_driver.specs.Calls.{FitsOp};
ghost use Rattle.gl_aggregator.specs.Gather.{gathered_behind, with_bits_from};
ghost use Rattle.gl_aggregator.specs.Routes.{IsRoute, is_meant, line_at, lines_of, lines_on, position_at, position_in, with_bits_where, word_where};
ghost use Rattle.gl_aggregator.specs.Commands.{is_high, word_at};
ghost use Rattle.gl_aggregator.specs.Words.{is_chosen};

use crate::routes::Route;
use gl_base::{Op, flag, has_bit};

/// Which lines of an operation.
#[derive(Clone, Copy)]
pub(crate) enum Choice {
    /// All.
    All,
    /// Those that the operation gives the value 1.
    High,
    /// Those that an `Apply` gives this flag word.
    Flagged(u64),
}

/// The flags of a line that its target is to have: whether it is active low, its direction, drive and bias.
const KEPT_FLAGS: u64 = 1 << flag::ACTIVE_LOW
    | 1 << flag::INPUT
    | 1 << flag::OUTPUT
    | 1 << flag::OPEN_DRAIN
    | 1 << flag::OPEN_SOURCE
    | 1 << flag::BIAS_PULL_UP
    | 1 << flag::BIAS_PULL_DOWN
    | 1 << flag::BIAS_DISABLED;

/// The flag word of an operation's line.
pub(crate) fn word_at(op: &Op, i: u32) -> u64
    requires { i < 64 }
    ensures { result ≡ word_at op.now i }
{
    match op {
        Op::Get { .. } | Op::Set { .. } => 0,
        Op::Apply { settings, .. } => settings.lines[i as usize].flags & KEPT_FLAGS,
    }
}

/// The offsets of an operation's lines, in order.
pub(crate) fn offsets_of(op: &Op) -> &[u32]
    requires { FitsOp op.now }
    ensures offsets { result.now ≡ offsets_of (lines_of op.now) }
    ensures few { length result.now ≤ 64 }
{
    match op {
        Op::Get { lines } => lines.offsets(),
        Op::Set { lines, .. } => lines.offsets(),
        Op::Apply { lines, .. } => lines.offsets(),
    }
}

/// Whether an operation is to give its line at a position the value 1.
fn is_high(op: &Op, i: u32) -> bool
    requires { i < 64 }
    ensures { result ≡ is_high op.now i }
{
    match op {
        Op::Get { .. } => false,
        Op::Set { bits, .. } => has_bit(*bits, i),
        Op::Apply { settings, .. } => settings.lines[i as usize].value,
    }
}

/// Whether a choice has an operation's line.
fn is_chosen(op: &Op, choice: Choice, i: u32) -> bool
    requires { i < 64 }
    ensures { result ≡ is_chosen op.now choice i }
{
    match choice {
        Choice::All => true,
        Choice::High => is_high(op, i),
        Choice::Flagged(word) => word_at(op, i) == word,
    }
}

/// A word with one bit besides, if it is to have it.
fn with_bit_if(word: u64, holds: bool, bit: u32) -> u64
    requires { bit < 64 }
    ensures { result ≡ bit_or word (if holds then 2 ^ bit else 0) }
{
    if holds { word | 1 << bit } else { word }
}

/// The operation does something with its line at a position.
fn is_meant(op: &Op, i: u32) -> bool
    requires { i < 64 }
    ensures { result ≡ is_meant op.now i }
{
    match op {
        Op::Set { mask, .. } => has_bit(*mask, i),
        Op::Get { .. } | Op::Apply { .. } => true,
    }
}

/// The position in a target's request of the line at an offset of the chip.
fn position_in(base: u32, count: u32, offset: u32) -> Option<u32>
    requires { base + count < 2 ^ 32 }
    ensures position { result ≡ position_in base count offset }
    ensures within { IfSome result (λ at. at < count) }
{
    if base <= offset && offset < base + count {
        return Some(offset - base);
    }
    None
}

/// The position in a target's request of the line at a position of the operation, where the operation means it.
pub(crate) fn position_at(op: &Op, route: &Route, i: u32, offset: u32) -> Option<u32>
    requires route { IsRoute route.now }
    requires i { i < 64 }
    ensures position { result ≡ position_at op.now route.now.base route.now.target.lines.count i offset }
    ensures within { IfSome result (λ at. at < 64) }
{
    if is_meant(op, i) {
        position_in(route.base, route.target.lines.count, offset)
    } else {
        None
    }
}

/// A word with the bit of one of the operation's lines besides, at its place in the target's request, if it is among the target's and the chosen ones.
fn with_line(op: &Op, route: &Route, choice: Choice, word: u64, i: u32, offset: u32) -> u64
    requires route { IsRoute route.now }
    requires i { i < 64 }
    ensures { result ≡ with_bits_where (λ l. is_chosen op.now choice l.line) (λ l. l.at) word
        (line_at i (position_at op.now route.now.base route.now.target.lines.count i offset)) }
{
    match position_at(op, route, i, offset) {
        Some(at) => with_bit_if(word, is_chosen(op, choice, i), at),
        None => word,
    }
}

/// The word of the chosen ones of the lines that are a target's, a bit a line of the target's request.
pub(crate) fn word_to(op: &Op, route: &Route, choice: Choice) -> u64
    requires op { FitsOp op.now }
    requires route { IsRoute route.now }
    ensures { result ≡ word_where (λ l. is_chosen op.now choice l.line) (λ l. l.at) (lines_on op.now route.now) }
{
    let offsets = offsets_of(op);
    let mut word = 0;
    for (i, offset) in offsets.iter().enumerate() {
        word = with_line(op, route, choice, word, i as u32, *offset);
    }
    word
}

/// The bits of an operation with that of one of its lines besides, if it is among the target's and the target's word has its bit there.
fn with_line_from(op: &Op, route: &Route, bits: u64, word: u64, i: u32, offset: u32) -> u64
    requires route { IsRoute route.now }
    requires i { i < 64 }
    ensures { result ≡ with_bits_where (λ l. has_bit word l.at) (λ l. l.line) bits
        (line_at i (position_at op.now route.now.base route.now.target.lines.count i offset)) }
{
    match position_at(op, route, i, offset) {
        Some(at) => with_bit_if(bits, has_bit(word, at), i),
        None => bits,
    }
}

/// The bits of an operation with those besides of the lines that are a target's, by the target's word.
fn with_lines_from(op: &Op, route: &Route, bits: u64, word: u64) -> u64
    requires op { FitsOp op.now }
    requires route { IsRoute route.now }
    ensures { result ≡ with_bits_where (λ l. has_bit word l.at) (λ l. l.line) bits (lines_on op.now route.now) }
{
    let offsets = offsets_of(op);
    let mut all = bits;
    for (i, offset) in offsets.iter().enumerate() {
        all = with_line_from(op, route, all, word, i as u32, *offset);
    }
    all
}

/// The bits of an operation with those besides that one target's word gives.
fn gathered(op: &Op, route: &Route, bits: u64, word: u64) -> u64
    requires op { FitsOp op.now }
    requires route { IsRoute route.now }
    ensures { result ≡ with_bits_from op.now bits word (lines_on op.now route.now) }
{
    match op {
        Op::Get { .. } => with_lines_from(op, route, bits, word),
        Op::Set { .. } | Op::Apply { .. } => bits,
    }
}

/// The bits of an operation behind the visit of one of its targets, of the word that the visit gave; none where it gave none, as where the target's
/// place is closed.
pub(crate) fn gathered_behind(op: &Op, route: &Route, bits: u64, word: Option<u64>) -> Option<u64>
    requires op { FitsOp op.now }
    requires route { IsRoute route.now }
    ensures { result ≡ gathered_behind op.now bits word (lines_on op.now route.now) }
{
    match word {
        Some(word) => Some(gathered(op, route, bits, word)),
        None => None,
    }
}

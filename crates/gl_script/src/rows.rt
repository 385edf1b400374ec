//! What a statement says, one row a statement: its words are read one after the other, each once.
#![tactic(auto, using(crate::proofs::OneByOne::read_on, crate::proofs::OneByOne::misread_at, crate::proofs::OneByOne::first_says, crate::proofs::OneByOne::second_is))]

ghost use Rattle.std.specs.Prelude.{◌≡◌, ◌+◌, ◌<◌, ◌^◌, [], ◌∷◌, Some, length};
ghost use Rattle.gl_base.specs.Words.{span, text_at, words_at};
ghost use Rattle.gl_script.specs.Left.{IsRead, IsReadIn, IsShort, IsStated, Says, left_in};
ghost use Rattle.gl_script.specs.Said.{chip_of, hold_of, pin_said, range_of, release_of, small_of};
ghost use Rattle.gl_script.specs.Table.{only};

use crate::cursor::Cursor;
use crate::faults::spot;
use crate::forms::PinWord;
use crate::limits::JOINED_MAX;
use crate::refusal::{RefusalKind, Spot};
use crate::said::Said;
use crate::table::{Form, Keyword};
use crate::version::Version;
use gl_base::command::GET_LINE;
use gl_base::{Found, LINES_MAX, PinDo};

/// What a statement says that begins with a word, in a session of this version, or its first fault.
pub fn statement_said(
    version: Version,
    keyword: Option<Keyword>,
    first: &Found<'_>,
) -> Result<Said, Spot>
    requires word { first.now.at + length first.now.word.now < 2 ^ 32 }
    requires rest { first.now.rest_at + length first.now.rest.now + 1 < 2 ^ 32 }
    ensures { IsStated version keyword (span first.now.at first.now.word.now) (words_at first.now.rest_at first.now.rest.now) result }
{
    match keyword {
        Some(keyword) => words_said(version, keyword, &mut Cursor::behind(first)),
        None => Err(spot(first.at, RefusalKind::Statement)),
    }
}

/// What the words behind that of a statement say.
fn words_said(version: Version, keyword: Keyword, words: &mut Cursor<'_>) -> Result<Said, Spot>
    requires { IsShort words.old }
    ensures { IsReadIn version keyword (left_in words.old) result }
{
    match keyword {
        Keyword::Probe => probe_said(version, words),
        Keyword::Unplug => unplug_said(words),
        Keyword::MakeDir => make_dir_said(words),
        Keyword::RemoveDir => remove_dir_said(words),
        Keyword::Write => write_said(version, words),
        Keyword::Read => read_said(words),
        Keyword::Clock => clock_said(words),
        Keyword::Fault => fault_said(words),
        Keyword::Accept => accept_said(words),
        Keyword::Aggregate => aggregate_said(version, words),
        Keyword::Pin => pin_said(words),
        Keyword::Irq => irq_said(words),
        Keyword::Open => open_said(words),
        Keyword::Ioctl => ioctl_said(words),
        Keyword::Events => events_said(words),
        Keyword::OldIoctl => old_ioctl_said(words),
        Keyword::OldEvents => old_events_said(words),
        Keyword::Changes => changes_said(words),
        Keyword::Poll => of_name(Said::Poll, words),
        Keyword::Close => of_name(Said::Close, words),
        Keyword::Detect => Ok(Said::Detect),
        Keyword::Info => Ok(Said::Info),
        Keyword::Get => Ok(Said::Get),
        Keyword::Set => Ok(Said::Set),
        Keyword::Start => start_said(words),
        Keyword::Step => step_said(words),
        Keyword::Stop => stop_said(words),
    }
}

/// `mkdir PATH`.
fn make_dir_said(words: &mut Cursor<'_>) -> Result<Said, Spot>
    requires { IsShort words.old }
    ensures { IsRead Keyword.MakeDir (left_in words.old) result }
{
    let path = words.path()?;
    words.no_more()?;
    Ok(Said::MakeDir { path })
}

/// `rmdir PATH`.
fn remove_dir_said(words: &mut Cursor<'_>) -> Result<Said, Spot>
    requires { IsShort words.old }
    ensures { IsRead Keyword.RemoveDir (left_in words.old) result }
{
    let path = words.path()?;
    words.no_more()?;
    Ok(Said::RemoveDir { path })
}

/// `read PATH`.
fn read_said(words: &mut Cursor<'_>) -> Result<Said, Spot>
    requires { IsShort words.old }
    ensures { IsRead Keyword.Read (left_in words.old) result }
{
    let path = words.path()?;
    words.no_more()?;
    Ok(Said::Read { path })
}

/// A statement of the name of a file alone.
fn of_name(said: Said, words: &mut Cursor<'_>) -> Result<Said, Spot>
    requires { IsShort words.old }
    ensures { Says (only (Form.FileName ∷ [])) (Some said) (left_in words.old) result }
{
    words.text(Form::FileName)?;
    words.no_more()?;
    Ok(said)
}

/// `probe LABEL N`.
fn probe_said(version: Version, words: &mut Cursor<'_>) -> Result<Said, Spot>
    requires { IsShort words.old }
    ensures { IsReadIn version Keyword.Probe (left_in words.old) result }
{
    let label = words.label(version)?;
    let lines = words.small(1, LINES_MAX)?;
    words.no_more()?;
    Ok(Said::Probe { label, lines })
}

/// `unplug CHIP`.
fn unplug_said(words: &mut Cursor<'_>) -> Result<Said, Spot>
    requires { IsShort words.old }
    ensures { IsRead Keyword.Unplug (left_in words.old) result }
{
    let chip = words.chip()?;
    words.no_more()?;
    Ok(Said::Unplug { chip })
}

/// `write PATH VALUE`.
fn write_said(version: Version, words: &mut Cursor<'_>) -> Result<Said, Spot>
    requires { IsShort words.old }
    ensures { IsReadIn version Keyword.Write (left_in words.old) result }
{
    let path = words.path()?;
    let value = words.label(version)?;
    words.no_more()?;
    Ok(Said::Write { path, value })
}

/// `clock N N`.
fn clock_said(words: &mut Cursor<'_>) -> Result<Said, Spot>
    requires { IsShort words.old }
    ensures { IsRead Keyword.Clock (left_in words.old) result }
{
    let mono = words.number(0, 0xFFFF_FFFF_FFFF_FFFF)?;
    let real = words.number(0, 0xFFFF_FFFF_FFFF_FFFF)?;
    words.no_more()?;
    Ok(Said::Clock { mono, real })
}

/// `fault N`.
fn fault_said(words: &mut Cursor<'_>) -> Result<Said, Spot>
    requires { IsShort words.old }
    ensures { IsRead Keyword.Fault (left_in words.old) result }
{
    let nth = words.small(1, 1_000_000)?;
    words.no_more()?;
    Ok(Said::Fault { nth })
}

/// `accept N`.
fn accept_said(words: &mut Cursor<'_>) -> Result<Said, Spot>
    requires { IsShort words.old }
    ensures { IsRead Keyword.Accept (left_in words.old) result }
{
    let bits = words.number(0, 0xFFFF_FFFF_FFFF_FFFF)?;
    words.no_more()?;
    Ok(Said::Accept { bits })
}

/// `aggregate LABEL NAME [NAME [NAME [NAME]]]`.
fn aggregate_said(version: Version, words: &mut Cursor<'_>) -> Result<Said, Spot>
    requires { IsShort words.old }
    ensures { IsReadIn version Keyword.Aggregate (left_in words.old) result }
{
    let label = words.label(version)?;
    words.text(Form::FileName)?;
    words.file_names(JOINED_MAX - 1)?;
    Ok(Said::Aggregate { label })
}

/// `pin range CHIP N N N`, `pin hold CHIP N` or `pin drop CHIP N`.
fn pin_said(words: &mut Cursor<'_>) -> Result<Said, Spot>
    requires { IsShort words.old }
    ensures { IsRead Keyword.Pin (left_in words.old) result }
{
    match words.pin()? {
        PinWord::Range => range_said(words),
        PinWord::Hold => hold_said(words),
        PinWord::Drop => drop_said(words),
    }
}

/// `CHIP N N N` behind `pin range`.
fn range_said(words: &mut Cursor<'_>) -> Result<Said, Spot>
    requires { IsShort words.old }
    ensures { Says (only (Form.Chip ∷ Form.Number 0 0xFFFFFFFF ∷ Form.Number 0 0xFFFFFFFF ∷ Form.Number 0 0xFFFFFFFF ∷ [])) (pin_said (chip_of (text_at 0 (left_in words.old).words)) (range_of (small_of (text_at 1 (left_in words.old).words)) (small_of (text_at 2 (left_in words.old).words)) (small_of (text_at 3 (left_in words.old).words)))) (left_in words.old) result }
{
    let chip = words.chip()?;
    let offset = words.small(0, 0xFFFF_FFFF)?;
    let pin = words.small(0, 0xFFFF_FFFF)?;
    let count = words.small(0, 0xFFFF_FFFF)?;
    words.no_more()?;
    let what = PinDo::Range { offset, pin, count };
    Ok(Said::Pin { chip, what })
}

/// `CHIP N` behind `pin hold`.
fn hold_said(words: &mut Cursor<'_>) -> Result<Said, Spot>
    requires { IsShort words.old }
    ensures { Says (only (Form.Chip ∷ Form.Number 0 0xFFFFFFFF ∷ [])) (pin_said (chip_of (text_at 0 (left_in words.old).words)) (hold_of (small_of (text_at 1 (left_in words.old).words)))) (left_in words.old) result }
{
    let chip = words.chip()?;
    let pin = words.small(0, 0xFFFF_FFFF)?;
    words.no_more()?;
    let what = PinDo::Hold(pin);
    Ok(Said::Pin { chip, what })
}

/// `CHIP N` behind `pin drop`.
fn drop_said(words: &mut Cursor<'_>) -> Result<Said, Spot>
    requires { IsShort words.old }
    ensures { Says (only (Form.Chip ∷ Form.Number 0 0xFFFFFFFF ∷ [])) (pin_said (chip_of (text_at 0 (left_in words.old).words)) (release_of (small_of (text_at 1 (left_in words.old).words)))) (left_in words.old) result }
{
    let chip = words.chip()?;
    let pin = words.small(0, 0xFFFF_FFFF)?;
    words.no_more()?;
    let what = PinDo::Release(pin);
    Ok(Said::Pin { chip, what })
}

/// `irq WORD CHIP N`.
fn irq_said(words: &mut Cursor<'_>) -> Result<Said, Spot>
    requires { IsShort words.old }
    ensures { IsRead Keyword.Irq (left_in words.old) result }
{
    let what = words.irq()?;
    let chip = words.chip()?;
    let offset = words.small(0, 0xFFFF_FFFF)?;
    words.no_more()?;
    Ok(Said::Irq { what, chip, offset })
}

/// `open NAME WORD`.
fn open_said(words: &mut Cursor<'_>) -> Result<Said, Spot>
    requires { IsShort words.old }
    ensures { IsRead Keyword.Open (left_in words.old) result }
{
    let name = words.file_name()?;
    let word = words.chip_word()?;
    words.no_more()?;
    Ok(Said::Open { name, word })
}

/// `ioctl NAME COMMAND PIECES.. [as NAME]`.
fn ioctl_said(words: &mut Cursor<'_>) -> Result<Said, Spot>
    requires { IsShort words.old }
    ensures { IsRead Keyword.Ioctl (left_in words.old) result }
{
    words.text(Form::FileName)?;
    let command = words.command()?;
    let made = words.pieces(command == GET_LINE)?;
    Ok(Said::Ioctl { command, made })
}

/// `events NAME N`.
fn events_said(words: &mut Cursor<'_>) -> Result<Said, Spot>
    requires { IsShort words.old }
    ensures { IsRead Keyword.Events (left_in words.old) result }
{
    words.text(Form::FileName)?;
    let len = words.short(49_152)?;
    words.no_more()?;
    Ok(Said::Events { len })
}

/// `ioctl1 NAME COMMAND PIECES.. [as NAME]`.
fn old_ioctl_said(words: &mut Cursor<'_>) -> Result<Said, Spot>
    requires { IsShort words.old }
    ensures { IsRead Keyword.OldIoctl (left_in words.old) result }
{
    words.text(Form::FileName)?;
    let command = words.old_command()?;
    let made = words.pieces(gl_v1::makes_file(Some(command)))?;
    Ok(Said::OldIoctl { command, made })
}

/// `events1 NAME N`.
fn old_events_said(words: &mut Cursor<'_>) -> Result<Said, Spot>
    requires { IsShort words.old }
    ensures { IsRead Keyword.OldEvents (left_in words.old) result }
{
    words.text(Form::FileName)?;
    let len = words.short(16_384)?;
    words.no_more()?;
    Ok(Said::OldEvents { len })
}

/// `changes NAME N`.
fn changes_said(words: &mut Cursor<'_>) -> Result<Said, Spot>
    requires { IsShort words.old }
    ensures { IsRead Keyword.Changes (left_in words.old) result }
{
    words.text(Form::FileName)?;
    let len = words.short(9216)?;
    words.no_more()?;
    Ok(Said::Changes { len })
}

/// `start NAME TOOL ..`.
fn start_said(words: &mut Cursor<'_>) -> Result<Said, Spot>
    requires { IsShort words.old }
    ensures { IsRead Keyword.Start (left_in words.old) result }
{
    let name = words.file_name()?;
    words.text(Form::HeldTool)?;
    Ok(Said::Start { name })
}

/// `step NAME N`.
fn step_said(words: &mut Cursor<'_>) -> Result<Said, Spot>
    requires { IsShort words.old }
    ensures { IsRead Keyword.Step (left_in words.old) result }
{
    let name = words.file_name()?;
    let turns = words.small(1, 1000)?;
    words.no_more()?;
    Ok(Said::Step { name, turns })
}

/// `stop NAME`.
fn stop_said(words: &mut Cursor<'_>) -> Result<Said, Spot>
    requires { IsShort words.old }
    ensures { IsRead Keyword.Stop (left_in words.old) result }
{
    let name = words.file_name()?;
    words.no_more()?;
    Ok(Said::Stop { name })
}

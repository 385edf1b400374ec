//! The table of statements: the word that each begins with, and the forms that words have.
ghost use Rattle.std.specs.Prelude.{◌≡◌, find, option_copied};
ghost use Rattle.gl_script.specs.FirstBytes.{keywords_from};
ghost use Rattle.gl_script.specs.Table.{has_accept, keyword_name, is_keyword, is_in, keyword_in, keyword_of, only_in};

use crate::initials::beginning_with;
use crate::version::Version;

/// The form of a word.
#[derive(Clone, Copy)]
pub enum Form {
    /// NAME: 1 to 15 letters, digits, `_`, `-`, `.`.
    FileName,
    /// LABEL and VALUE: 1 to 31 of the same; from `session 3` on also `\` and 1 to 31 pairs of hexadecimal digits, none of them
    /// `00`.
    Label(Version),
    /// PATH: 1 to 127 of the same and `/`.
    Path,
    /// N: 1 to 20 digits, whose value is from `low` to `high`.
    Number { low: u64, high: u64 },
    /// CHIP: `gpiochipN`, `N` or `/dev/gpiochipN`, with N from 0 to 63.
    Chip,
    /// WORD: at most 127 bytes.
    Word,
    /// COMMAND: the word of a command, or `0x` and eight hexadecimal digits.
    Command,
    /// COMMAND of the first uAPI, in the same way.
    OldCommand,
    /// `range`, `hold` or `drop`.
    PinWord,
    /// `lock`, `unlock`, `enable`, `disable` or `none`.
    IrqWord,
    /// `gpioset`, `gpiomon` or `gpionotify`.
    HeldTool,
}

/// The word that a statement begins with.
#[derive(Clone, Copy, PartialEq, Eq)]
pub enum Keyword {
    /// `probe`.
    Probe,
    /// `unplug`.
    Unplug,
    /// `mkdir`.
    MakeDir,
    /// `rmdir`.
    RemoveDir,
    /// `write`.
    Write,
    /// `read`.
    Read,
    /// `clock`.
    Clock,
    /// `fault`.
    Fault,
    /// `accept`, from `session 2` on.
    Accept,
    /// `aggregate`.
    Aggregate,
    /// `pin`.
    Pin,
    /// `irq`.
    Irq,
    /// `open`.
    Open,
    /// `ioctl`.
    Ioctl,
    /// `events`.
    Events,
    /// `ioctl1`.
    OldIoctl,
    /// `events1`.
    OldEvents,
    /// `changes`.
    Changes,
    /// `poll`.
    Poll,
    /// `close`.
    Close,
    /// `gpiodetect`.
    Detect,
    /// `gpioinfo`.
    Info,
    /// `gpioget`.
    Get,
    /// `gpioset`.
    Set,
    /// `start`.
    Start,
    /// `step`.
    Step,
    /// `stop`.
    Stop,
}

/// All statements.
pub const KEYWORDS: [Keyword; 27] = [
    Keyword::Probe,
    Keyword::Unplug,
    Keyword::MakeDir,
    Keyword::RemoveDir,
    Keyword::Write,
    Keyword::Read,
    Keyword::Clock,
    Keyword::Fault,
    Keyword::Accept,
    Keyword::Aggregate,
    Keyword::Pin,
    Keyword::Irq,
    Keyword::Open,
    Keyword::Ioctl,
    Keyword::Events,
    Keyword::OldIoctl,
    Keyword::OldEvents,
    Keyword::Changes,
    Keyword::Poll,
    Keyword::Close,
    Keyword::Detect,
    Keyword::Info,
    Keyword::Get,
    Keyword::Set,
    Keyword::Start,
    Keyword::Step,
    Keyword::Stop,
];

impl Keyword {
    /// The word.
    pub fn name(self) -> &'static str
        ensures { result.now ≡ keyword_name self }
    {
        match self {
            Keyword::Probe => "probe",
            Keyword::Unplug => "unplug",
            Keyword::MakeDir => "mkdir",
            Keyword::RemoveDir => "rmdir",
            Keyword::Write => "write",
            Keyword::Read => "read",
            Keyword::Clock => "clock",
            Keyword::Fault => "fault",
            Keyword::Accept => "accept",
            Keyword::Aggregate => "aggregate",
            Keyword::Pin => "pin",
            Keyword::Irq => "irq",
            Keyword::Open => "open",
            Keyword::Ioctl => "ioctl",
            Keyword::Events => "events",
            Keyword::OldIoctl => "ioctl1",
            Keyword::OldEvents => "events1",
            Keyword::Changes => "changes",
            Keyword::Poll => "poll",
            Keyword::Close => "close",
            Keyword::Detect => "gpiodetect",
            Keyword::Info => "gpioinfo",
            Keyword::Get => "gpioget",
            Keyword::Set => "gpioset",
            Keyword::Start => "start",
            Keyword::Step => "step",
            Keyword::Stop => "stop",
        }
    }
}

/// The statement that a word begins in a session of any version, if it begins one.
pub fn keyword_of(word: &[u8]) -> Option<Keyword>
    ensures { result ≡ keyword_of word.now }
{
    match word {
        [first, ..] => keyword_from(*first, word),
        [] => None,
    }
}

/// The statement that a word begins, among those that begin with this byte.
fn keyword_from(first: u8, word: &[u8]) -> Option<Keyword>
    ensures { result ≡ find (is_keyword word.now) (keywords_from first) }
{
    match keyword_among(beginning_with(first), word) {
        Some(keyword) => Some(*keyword),
        None => None,
    }
}

fn keyword_among<'a>(keywords: &'a [Keyword], word: &[u8]) -> Option<&'a Keyword>
    ensures { option_copied result ≡ find (is_keyword word.now) keywords.now }
{
    keywords
        .iter()
        .find(|keyword| keyword.name().as_bytes() == word)
}

/// Whether a session of this version has `accept`.
fn has_accept(version: Version) -> bool
    ensures { result ≡ has_accept version }
{
    match version {
        Version::One => false,
        Version::Two | Version::Three => true,
    }
}

/// Whether a session of this version has the statement.
fn is_in(version: Version, keyword: Keyword) -> bool
    ensures { result ≡ is_in version keyword }
{
    match keyword {
        Keyword::Accept => has_accept(version),
        _ => true,
    }
}

/// The statement, if a session of this version has it.
fn only_in(version: Version, keyword: Option<Keyword>) -> Option<Keyword>
    ensures { result ≡ only_in version keyword }
{
    match keyword {
        Some(keyword) if is_in(version, keyword) => Some(keyword),
        _ => None,
    }
}

/// The statement that a word begins in a session of this version, if it begins one.
pub fn keyword_in(version: Version, word: &[u8]) -> Option<Keyword>
    ensures { result ≡ keyword_in version word.now }
{
    only_in(version, keyword_of(word))
}

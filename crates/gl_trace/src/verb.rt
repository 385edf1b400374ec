//! The words with which the texts of calls begin.
ghost use Rattle.std.specs.Prelude.{◌≡◌, find, option_copied};
ghost use Rattle.gl_trace.specs.Verbs.{asked_of, is_verb, verb_count, verb_of, verb_word};

/// How many words stand after a verb, before the bytes of a command.
#[derive(Clone, Copy, PartialEq, Eq)]
pub enum Count {
    /// One.
    One,
    /// Two.
    Two,
    /// Three.
    Three,
    /// Four.
    Four,
}

/// The part of a command that a verb is of.
#[derive(Clone, Copy, PartialEq, Eq)]
pub enum CommandPart {
    /// A command that needs no driver.
    Whole,
    /// A command that is asked for.
    Ask,
    /// A command whose driver answered.
    Tell,
}

/// All verbs.
pub const VERBS: [Verb; 32] = [
    Verb::Probe,
    Verb::Unplug,
    Verb::MakeDir,
    Verb::RemoveDir,
    Verb::Write,
    Verb::Read,
    Verb::Live,
    Verb::Remove,
    Verb::Tick,
    Verb::Range,
    Verb::Hold,
    Verb::Drop,
    Verb::Lock,
    Verb::Unlock,
    Verb::Enable,
    Verb::Disable,
    Verb::Never,
    Verb::Pull,
    Verb::Interrupt,
    Verb::Level,
    Verb::PullOf,
    Verb::Open,
    Verb::Find,
    Verb::Ioctl,
    Verb::Ask,
    Verb::Tell,
    Verb::ReadLine,
    Verb::ReadChip,
    Verb::PollLine,
    Verb::PollChip,
    Verb::Close,
    Verb::Refused,
];

/// The word with which the text of a call begins. The words are this project's choice.
#[derive(Clone, Copy, PartialEq, Eq)]
pub enum Verb {
    /// `probe`.
    Probe,
    /// `unplug`.
    Unplug,
    /// `mkdir`.
    MakeDir,
    /// `rmdir`.
    RemoveDir,
    /// `write`.
    Write,
    /// `read`.
    Read,
    /// `live`.
    Live,
    /// `remove`.
    Remove,
    /// `tick`.
    Tick,
    /// `range`.
    Range,
    /// `hold`.
    Hold,
    /// `drop`.
    Drop,
    /// `lock`.
    Lock,
    /// `unlock`.
    Unlock,
    /// `enable`.
    Enable,
    /// `disable`.
    Disable,
    /// `none`.
    Never,
    /// `pull`.
    Pull,
    /// `interrupt`.
    Interrupt,
    /// `level`.
    Level,
    /// `pullof`.
    PullOf,
    /// `open`.
    Open,
    /// `find`.
    Find,
    /// `ioctl`.
    Ioctl,
    /// `ask`.
    Ask,
    /// `tell`.
    Tell,
    /// `readline`.
    ReadLine,
    /// `readchip`.
    ReadChip,
    /// `pollline`.
    PollLine,
    /// `pollchip`.
    PollChip,
    /// `close`.
    Close,
    /// `refused`.
    Refused,
}

impl Verb {
    /// The word.
    pub fn word(self) -> &'static str
        ensures { result.now ≡ verb_word self }
    {
        match self {
            Verb::Probe => "probe",
            Verb::Unplug => "unplug",
            Verb::MakeDir => "mkdir",
            Verb::RemoveDir => "rmdir",
            Verb::Write => "write",
            Verb::Read => "read",
            Verb::Live => "live",
            Verb::Remove => "remove",
            Verb::Tick => "tick",
            Verb::Range => "range",
            Verb::Hold => "hold",
            Verb::Drop => "drop",
            Verb::Lock => "lock",
            Verb::Unlock => "unlock",
            Verb::Enable => "enable",
            Verb::Disable => "disable",
            Verb::Never => "none",
            Verb::Pull => "pull",
            Verb::Interrupt => "interrupt",
            Verb::Level => "level",
            Verb::PullOf => "pullof",
            Verb::Open => "open",
            Verb::Find => "find",
            Verb::Ioctl => "ioctl",
            Verb::Ask => "ask",
            Verb::Tell => "tell",
            Verb::ReadLine => "readline",
            Verb::ReadChip => "readchip",
            Verb::PollLine => "pollline",
            Verb::PollChip => "pollchip",
            Verb::Close => "close",
            Verb::Refused => "refused",
        }
    }

    /// How many words stand after it, before the bytes of a command.
    pub fn count(self) -> Count
        ensures { result ≡ verb_count self }
    {
        match self {
            Verb::MakeDir | Verb::RemoveDir | Verb::Read | Verb::Live | Verb::Open | Verb::Close =>
                Count::One,
            Verb::Unplug
            | Verb::Write
            | Verb::Remove
            | Verb::Tick
            | Verb::Hold
            | Verb::Drop
            | Verb::Lock
            | Verb::Unlock
            | Verb::Enable
            | Verb::Disable
            | Verb::Never
            | Verb::Level
            | Verb::PullOf
            | Verb::Find
            | Verb::PollLine
            | Verb::PollChip
            | Verb::Refused => Count::Two,
            Verb::Probe | Verb::Pull | Verb::Interrupt | Verb::ReadLine | Verb::ReadChip =>
                Count::Three,
            Verb::Range | Verb::Ioctl | Verb::Ask | Verb::Tell => Count::Four,
        }
    }

    /// The part of a command that it is of, if it is of one.
    pub fn asked(self) -> Option<CommandPart>
        ensures { result ≡ asked_of self }
    {
        match self {
            Verb::Ioctl => Some(CommandPart::Whole),
            Verb::Ask => Some(CommandPart::Ask),
            Verb::Tell => Some(CommandPart::Tell),
            _ => None,
        }
    }

    /// The verb of a word, if it is one.
    pub fn of(word: &[u8]) -> Option<Verb>
        ensures { result ≡ verb_of word.now }
    {
        match verb_among(&VERBS, word) {
            Some(verb) => Some(*verb),
            None => None,
        }
    }
}

fn verb_among<'a>(verbs: &'a [Verb], word: &[u8]) -> Option<&'a Verb>
    ensures { option_copied result ≡ find (is_verb word.now) verbs.now }
{
    verbs.iter().find(|verb| verb.word().as_bytes() == word)
}

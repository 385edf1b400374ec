//! The words that say what kind of call a line is.

/// What kind of call a line is.
#[derive(Clone, Copy)]
pub enum Verb {
    Probe,
    Unplug,
    MakeDir,
    RemoveDir,
    Write,
    Read,
    Live,
    Remove,
    Tick,
    Pin,
    Irq,
    Pull,
    Level,
    Interrupt,
    OpenChip,
    Find,
    FindAt,
    Ioctl,
    ReadEdges,
    ReadInfo,
    PollLine,
    PollChip,
    Close,
    Refused,
}

/// Each verb behind its word.
const VERBS: [(&[u8], Verb); 24] = [
    (b"probe", Verb::Probe),
    (b"unplug", Verb::Unplug),
    (b"mkdir", Verb::MakeDir),
    (b"rmdir", Verb::RemoveDir),
    (b"write", Verb::Write),
    (b"read", Verb::Read),
    (b"live", Verb::Live),
    (b"remove", Verb::Remove),
    (b"tick", Verb::Tick),
    (b"pin", Verb::Pin),
    (b"irq", Verb::Irq),
    (b"pull", Verb::Pull),
    (b"level", Verb::Level),
    (b"interrupt", Verb::Interrupt),
    (b"open", Verb::OpenChip),
    (b"find", Verb::Find),
    (b"findat", Verb::FindAt),
    (b"ioctl", Verb::Ioctl),
    (b"edges", Verb::ReadEdges),
    (b"changes", Verb::ReadInfo),
    (b"polledges", Verb::PollLine),
    (b"pollchanges", Verb::PollChip),
    (b"close", Verb::Close),
    (b"refused", Verb::Refused),
];

/// The verb of a word, if it is that of one.
pub fn verb_of(word: &[u8]) -> Option<Verb> {
    match VERBS.iter().find(|row| row.0 == word) {
        Some(row) => Some(row.1),
        None => None,
    }
}

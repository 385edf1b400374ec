//! Statements by the byte that their word begins with, so that a word is compared with few of them.
ghost use Rattle.std.specs.Prelude.{◌≡◌, filter};
ghost use Rattle.gl_script.specs.FirstBytes.{begins_with};
ghost use Rattle.gl_script.specs.declared.table.TheConstants.{KEYWORDS};

use crate::table::Keyword;

/// The statements whose word begins with this byte.
pub(crate) fn beginning_with(first: u8) -> &'static [Keyword]
    ensures { result.now ≡ filter (begins_with first) KEYWORDS }
{
    match first {
        b'a' => &[Keyword::Accept, Keyword::Aggregate],
        b'c' => &[Keyword::Clock, Keyword::Changes, Keyword::Close],
        b'e' => &[Keyword::Events, Keyword::OldEvents],
        b'f' => &[Keyword::Fault],
        b'g' => &[Keyword::Detect, Keyword::Info, Keyword::Get, Keyword::Set],
        b'i' => &[Keyword::Irq, Keyword::Ioctl, Keyword::OldIoctl],
        b'm' => &[Keyword::MakeDir],
        b'o' => &[Keyword::Open],
        b'p' => &[Keyword::Probe, Keyword::Pin, Keyword::Poll],
        b'r' => &[Keyword::RemoveDir, Keyword::Read],
        b's' => &[Keyword::Start, Keyword::Step, Keyword::Stop],
        b'u' => &[Keyword::Unplug],
        b'w' => &[Keyword::Write],
        _ => &[],
    }
}

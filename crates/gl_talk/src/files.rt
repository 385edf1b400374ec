//! The open files of an actor.
ghost use Rattle.std.specs.Prelude.{◌≡◌, map, is_some, option_map};
ghost use Rattle.std.specs.List.{position};
ghost use Rattle.gl_base.specs.Rows.{without_first};
ghost use Rattle.gl_talk.specs.Open.{file_in, file_of, is_chip, is_file, is_old_event, is_request, is_row};

use gl_base::Name;
use gl_v1::KindV1;

/// What kind of file it is.
#[derive(Clone, Copy)]
pub enum TalkFileKind {
    /// A chip's file.
    Chip,
    /// A request of uAPI v2.
    Request,
    /// A handle, or a request for edges, of the first uAPI.
    Old(KindV1),
}

/// Whether it is a chip's file.
pub fn is_chip(kind: TalkFileKind) -> bool
    ensures { result ≡ is_chip kind }
{
    match kind {
        TalkFileKind::Chip => true,
        TalkFileKind::Request | TalkFileKind::Old(_) => false,
    }
}

/// Whether it is a request of v2.
pub fn is_request(kind: TalkFileKind) -> bool
    ensures { result ≡ is_request kind }
{
    match kind {
        TalkFileKind::Request => true,
        TalkFileKind::Chip | TalkFileKind::Old(_) => false,
    }
}

/// Whether it is a request for edges of the first uAPI.
pub fn is_old_event(kind: TalkFileKind) -> bool
    ensures { result ≡ is_old_event kind }
{
    match kind {
        TalkFileKind::Old(KindV1::Event) => true,
        TalkFileKind::Old(KindV1::Chip | KindV1::Handle(_))
        | TalkFileKind::Chip
        | TalkFileKind::Request => false,
    }
}

/// An open file: its name, and the slot that its operations name.
#[derive(Clone, Copy)]
pub struct TalkFile {
    /// Its name.
    pub name: Name,
    /// Its slot.
    pub slot: u32,
    /// What kind of file it is.
    pub kind: TalkFileKind,
}

/// The file of a name, if there is one.
pub fn file_of(files: &[TalkFile], name: &[u8]) -> Option<TalkFile>
    ensures { option_map file_in result ≡ file_of name.now (map file_in files.now) }
{
    for file in files {
        if file.name.as_bytes() == name {
            return Some(*file);
        }
    }
    None
}

/// Whether there is a file of a name.
pub fn has_file(files: &[TalkFile], name: &[u8]) -> bool
    ensures { result ≡ is_some (file_of name.now (map file_in files.now)) }
{
    file_of(files, name).is_some()
}

/// Where the file of a name stands.
fn position_of(files: &[TalkFile], name: &[u8]) -> Option<usize>
    ensures { result ≡ position (is_row name.now) files.now }
{
    files.iter().position(|file| file.name.as_bytes() == name)
}

/// Takes out the file of a name.
pub fn remove_file(files: &mut Vec<TalkFile>, name: &[u8])
    ensures { map file_in files.new.items ≡ without_first (is_file name.now) (map file_in files.old.items) }
{
    match position_of(files, name) {
        Some(at) => {
            let _ = files.remove(at);
        }
        None => {}
    }
}

//! Entries of a history as lines of text.

ghost use Rattle.gl_trace.specs.EntryText.{HasText};

use gl_base::{Errno, Kind, Name, Path};
use gl_core::{Call, Core, Part, Reply};
use gl_trace::{put_entry, read_entry};
use gl_world::Entry;

/// Appends the entry that a line is as it is written, `none` where it is none.
pub fn put(line: &[u8], out: &mut Vec<u8>) -> Result<(), Errno> {
    match read_entry(line) {
        Some(got) => put_entry(got.0, &got.1, out),
        None => {
            out.extend_from_slice(b"none")?;
            Ok(())
        }
    }
}

/// Appends three entries, with `|` behind the first two.
pub fn put_made(out: &mut Vec<u8>) -> Result<(), Errno> {
    put_entry(0, &probe(), out)?;
    out.push(b'|')?;
    put_open(out)?;
    out.push(b'|')?;
    put_entry(10, &ask(), out)
}

/// A chip is made.
fn probe() -> Entry<Core>
    ensures { HasText result }
{
    Entry {
        actor: 0,
        call: Call::Probe {
            label: Name::filled(b"demo"),
            lines: 1,
            kind: Kind::Simulated,
        },
        reply: Reply::Number(0),
    }
}

/// Appends the entry of a chip that is opened by an empty word.
fn put_open(out: &mut Vec<u8>) -> Result<(), Errno> {
    let Some(word) = Path::of(b"") else {
        return Err(Errno::Inval);
    };
    let open = Entry {
        actor: 1,
        call: Call::OpenChip { word },
        reply: Reply::Refused(Errno::NoEnt),
    };
    put_entry(1, &open, out)
}

/// A file is asked what its chip is.
fn ask() -> Entry<Core>
    ensures { HasText result }
{
    Entry {
        actor: 2,
        call: Call::Ioctl {
            place: 0,
            fd: 3,
            cmd: 0x8044_B401,
            len: 68,
            bytes: [0; 592],
            part: Part::Whole,
        },
        reply: Reply::Refused(Errno::BadF),
    }
}

//! The calls on the configuration tree that make no chip and remove none.

ghost use Rattle.gl_model.specs.Tree.{make_dir, read_file, remove_dir, write_file};
ghost use Rattle.std.specs.Prelude.{◌≡◌};
ghost use Rattle.gl_core.specs.Steps.{Steps, replied};

use crate::state::State;
use gl_base::{Errno, Name, Path};
use gl_model::Reply;

/// What a call is answered that was done or refused.
pub(crate) fn reply_of(done: Result<(), Errno>) -> Reply
    ensures { result ≡ replied done }
{
    match done {
        Ok(()) => Reply::Done,
        Err(errno) => Reply::Refused(errno),
    }
}

impl State {
    /// Makes a directory of the tree.
    pub(crate) fn make_dir(&mut self, path: &Path) -> Reply
        ensures { Steps (make_dir path.now) self.old self.new result }
    {
        reply_of(self.tree.mkdir(path))
    }

    /// Removes a directory of the tree.
    pub(crate) fn remove_dir(&mut self, path: &Path) -> Reply
        ensures { Steps (remove_dir path.now) self.old self.new result }
    {
        reply_of(self.tree.rmdir(path))
    }

    /// Writes a value to a file of the tree.
    pub(crate) fn write_file(&mut self, path: &Path, value: &Name) -> Reply
        ensures { Steps (write_file path.now value.now) self.old self.new result }
    {
        reply_of(self.tree.write(path, value))
    }

    /// Reads a file of the tree.
    pub(crate) fn read_file(&self, path: &Path) -> Reply
        ensures { Steps (read_file path.now) self.now self.now result }
    {
        match self.tree.read(path) {
            Ok(text) => Reply::Text(text),
            Err(errno) => Reply::Refused(errno),
        }
    }
}

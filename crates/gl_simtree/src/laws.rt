//! What makes the forms of paths trustworthy, and the numbers of the tree, by value.
ghost use Rattle.std.specs.Prelude.{◌≡◌};
ghost use Rattle.gl_simtree.specs.Spelling.{PathsAreSpelled};

use crate::limits::DIRECTORIES_MAX;

/// A path names one directory or file at most, and this has no other path.
pub fn paths_are_spelled()
    ensures { PathsAreSpelled }
{}

/// The limits are these numbers.
pub fn limits_by_value()
    ensures { DIRECTORIES_MAX ≡ 1024 }
{}

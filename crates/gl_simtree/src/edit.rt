//! Rows changed and taken out.
ghost use Rattle.std.specs.Prelude.{◌≡◌, ◌≤◌, length, vec_capacity};
ghost use Rattle.gl_base.specs.Rows.{Each, change_first, without_first};
ghost use Rattle.gl_simtree.specs.Formed.{IsFormedRow};
ghost use Rattle.gl_simtree.specs.Rows.{is_row_of, with_state};

use crate::node::Directory;
use crate::row::{State, TreeRow};
use crate::search::position_of;
use gl_base::Name;

/// Takes out the row of a directory.
#[tactic(auto, using(crate::proofs::Found::found))]
pub(crate) fn remove(rows: &mut Vec<TreeRow>, directory: &Directory)
    ensures rows { rows.new.items ≡ without_first (is_row_of directory.now) rows.old.items }
    ensures capacity { vec_capacity rows.new ≡ vec_capacity rows.old }
    ensures length { length rows.new.items ≤ length rows.old.items }
    ensures formed { Each IsFormedRow rows.old.items → Each IsFormedRow rows.new.items }
{
    match position_of(rows, directory) {
        Some(at) => {
            let _ = rows.remove(at);
        }
        None => {}
    }
}

/// Puts a row in place of that of a directory.
#[tactic(auto, using(crate::proofs::Found::found))]
pub(crate) fn replace(rows: &mut Vec<TreeRow>, directory: &Directory, row: TreeRow)
    ensures rows { rows.new.items ≡ change_first (is_row_of directory.now) (λ _. row) rows.old.items }
    ensures capacity { vec_capacity rows.new ≡ vec_capacity rows.old }
    ensures length { length rows.new.items ≡ length rows.old.items }
    ensures formed { IsFormedRow row → Each IsFormedRow rows.old.items → Each IsFormedRow rows.new.items }
{
    match position_of(rows, directory) {
        Some(at) => rows[at] = row,
        None => {}
    }
}

/// Sets a device's state.
#[tactic(auto, using(crate::proofs::Found::found))]
pub(crate) fn set_state(rows: &mut Vec<TreeRow>, device: &Name, state: State)
    ensures rows { rows.new.items ≡ with_state device.now state rows.old.items }
    ensures capacity { vec_capacity rows.new ≡ vec_capacity rows.old }
    ensures length { length rows.new.items ≡ length rows.old.items }
    ensures formed { Each IsFormedRow rows.old.items → Each IsFormedRow rows.new.items }
{
    match position_of(rows, &Directory::Device { device: *device }) {
        Some(at) => rows[at].set_state(state),
        None => {}
    }
}

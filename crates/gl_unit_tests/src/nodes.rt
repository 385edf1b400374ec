//! What paths of the tree name.

use crate::texts::put_word;
use gl_base::{Errno, Path};
use gl_simtree::node::{Directory, File, Node};
use gl_simtree::parse::node_at;

/// Appends what kind of node a path names.
pub fn put(text: &[u8], out: &mut Vec<u8>) -> Result<(), Errno> {
    put_word(kind(text).as_bytes(), out)
}

/// What kind of node a path names, as a word.
fn kind(text: &[u8]) -> &'static str {
    match Path::of(text) {
        Some(path) => kind_of(&path),
        None => "too long",
    }
}

/// The same of a path.
fn kind_of(path: &Path) -> &'static str {
    match node_at(path) {
        None => "none",
        Some(Node::Directory(Directory::Device { .. })) => "device",
        Some(Node::Directory(Directory::Bank { .. })) => "bank",
        Some(Node::Directory(Directory::Line { .. })) => "line",
        Some(Node::Directory(Directory::Hog { .. })) => "hog",
        Some(Node::File(_, File::Live)) => "live",
        Some(Node::File(_, File::ChipName)) => "chip_name",
        Some(Node::File(_, File::NumLines)) => "num_lines",
        Some(Node::File(_, File::Label)) => "label",
        Some(Node::File(_, File::LineName)) => "line name",
        Some(Node::File(_, File::HogName)) => "hog name",
        Some(Node::File(_, File::Direction)) => "direction",
    }
}

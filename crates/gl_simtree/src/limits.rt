//! The limits of the tree. They are this project's choice.

/// How many directories the tree has at most.
pub const DIRECTORIES_MAX: usize = 1024;

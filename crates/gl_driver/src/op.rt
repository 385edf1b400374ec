//! One call of a driver, and its failure.

use gl_base::Op;

/// The driver failed. Its port has counted the failure.
#[derive(Clone, Copy, PartialEq, Eq)]
pub struct DriverFault;

/// One call of a driver.
#[derive(Clone, Copy, PartialEq, Eq)]
pub struct DriverCall {
    /// What it was asked.
    pub op: Op,
    /// What it answered, or nothing where it failed.
    pub answer: Option<u64>,
}
